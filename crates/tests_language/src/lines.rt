//! Scripts, one a line, and what they come to.

/// One script a line, the answers to its questions, each with `<-` in front, an arrow, and what it comes to
/// with a budget of 100, with a bar behind each time that it stands or ends.
pub const ROWS: &str = r#" => 0  100|
return x => 2 x 99|
return => 2  99|
return a b => 1 wrong number of words for "return" 99|
wrong boom; keep a 1 => 1 boom 99|
wrong => 1 wrong number of words for "error" 99|
break => 3  99|
continue x => 1 wrong number of words for "continue" 99|
keep a 5; return $a => 2 5 98|
keep a 5; keep b $a$a.; return <$b> => 2 <55.> 97|
keep a(x) 5; keep i x; return <$a($i)> => 2 <5> 97|
keep a(x) {b c}; return $a(x) => 2 b c 98|
keep a(x) 1; return $a => 1 variable "a" is an array 99|
keep a 1; return $a(x) => 1 variable "a(x)" is no array 99|
keep a 1; keep a(x) 1 => 1 variable "a(x)" is no array 98|
return $x => 1 can't read "x": no such variable 100|
return $x[keep a 1] => 1 can't read "x": no such variable 100|
return [keep a 1]$x => 1 can't read "x": no such variable 99|
gone 1 2 => 1 invalid command name "gone" 99|
keep [return x] y => 2 x 99|
keep a { => 1 unclosed brace at 7 100|
proc p {a {b 2} args} {return $a-$b-$args}; p 1 => 0 1-2- 97|
proc p {a {b 2} args} {return $a-$b-$args}; p 1 3 {4 5} 6 => 0 1-3-{4 5} 6 97|
proc p {a {b 2} args} {return $a}; p => 1 wrong number of words for "p" 98|
proc p {} {keep a 1}; p; return $a => 1 can't read "a": no such variable 97|
proc q {} {break}; q => 1 invoked "break" outside of a loop 97|
proc q {} {continue}; q => 1 invoked "continue" outside of a loop 97|
proc q {} {wrong x}; q => 1 x 97|
proc p {{a b c}} {} => 1 bad value "a b c" for "proc" 99|
proc p \{ {} => 1 bad list at 0 99|
note a; return [note b]c => 2 c 97|
return [ask a][ask b] <- X <- Y Z => asks ask a 3 99|asks ask b 3 95|2 XY Z 91|
proc p {} {return [ask]}; keep v [p]; return $v <- 7 => asks ask 5 97|2 7 91|
rename return back; back a b => 1 wrong number of words for "return" 98|
rename gone x => 1 no command "gone" 99|
rename break keep => 1 command "keep" exists 99|
rename break {}; break => 1 invalid command name "break" 98|
eval keep a {1;keep b 2}; return $a$b => 2 12 96|
eval => 1 wrong number of words for "eval" 99|
eval {break} => 3  98|
catch {set x} m; return $m => 2 can't read "x": no such variable 97|
catch {return a} m; return [catch break]$m => 2 3a 95|
catch {keep b 1} b(x); return $b => 1 variable "b(x)" is no array 98|
catch => 1 wrong number of words for "catch" 99|
return [catch ask m]$m <- no => asks ask 4 98|2 0no 94|
set i 5; incr i 2; append i x; return $i => 2 7x 96|
array set a {y 2 x 1}; return [array get a] => 2 x 1 y 2 97|
set g 1; proc p {} {global g; set g 2}; p; return $g => 2 2 94|
set => 1 wrong number of words for "set" 99|
keep v [ask] <- { => asks ask 3 99|0 { 95|"#;

/// Expressions.
pub const EXPRESSIONS: &str = r#"expr 1+2*3 => 0 7 98|
expr => 1 wrong number of words for "expr" 99|
expr {1 + } => 1 syntax error in expression at 4 98|
expr 1 2 => 1 syntax error in expression at 2 98|
expr {"a" + 1} => 1 can't use non-numeric string as operand of "+" 98|
expr {-"a"} => 1 can't use non-numeric string as operand of "-" 98|
expr {!"a"} => 1 expected boolean but got "a" 98|
expr {"a" && 1} => 1 expected boolean but got "a" 98|
expr {1 && "b"} => 1 expected boolean but got "b" 98|
expr {0 || "b"} => 1 expected boolean but got "b" 98|
expr {0 && [wrong x]} => 0 0 98|
expr {1 || [wrong x]} => 0 1 98|
expr {1 && yes} => 0 1 98|
expr {1 ? 2 : [wrong x]} => 0 2 98|
expr {no ? [wrong x] : 3} => 0 3 98|
expr {"x" ? 1 : 2} => 1 expected boolean but got "x" 98|
expr {1/0} => 1 divide by zero 98|
expr {1 << 64} => 1 bad shift count 98|
expr {9223372036854775807 + 1} => 1 integer overflow 98|
expr {$a} => 1 can't read "a": no such variable 98|
set a 0x10; expr {$a} => 0 16 97|
set a(x) 4; set i x; expr {$a($i) * [return 3]} => 2 3 95|
expr {"a b" eq {a b}} => 0 1 98|
expr {"a[keep b c]$b"} => 0 acc 97|
expr {(1 < 2) + (2 <= 1)} => 0 1 98|"#;

/// Choices and loops.
pub const TURNS: &str = r#"if 1 {set a 5} => 0 5 97|
if 0 {set a 5} => 0  98|
if 0 a else {set b 6} => 0 6 97|
if 0 a {set b 6} => 0 6 97|
if 0 a elseif 0 b elseif 1 then {set c 7} else d => 0 7 95|
if 1 then then => 1 invalid command name "then" 97|
if 1 {} => 0  98|
if 1 => 1 wrong number of words for "if" 99|
if 1 then => 1 wrong number of words for "if" 99|
if 0 a else => 1 wrong number of words for "if" 99|
if 0 a elseif 1 => 1 wrong number of words for "if" 99|
if 0 a else b c => 1 wrong number of words for "if" 99|
if 0 a b c => 1 wrong number of words for "if" 99|
if x a => 1 syntax error in expression at 0 98|
if {"x"} a => 1 expected boolean but got "x" 98|
if {[break]} a => 3  97|
if 1 \{ => 1 unclosed brace at 0 98|
while 0 {} => 0  98|
while => 1 wrong number of words for "while" 99|
while {"a"} {} => 1 expected boolean but got "a" 98|
while 1 {break} => 0  96|
while 1 {return 5} => 2 5 96|
while 1 {wrong x} => 1 x 96|
while {[break]} {} => 3  97|
set i 3; while {$i} {incr i -1; continue; wrong x} => 0  85|
set i 0; while 1 {incr i; if {$i > 4} break}; return $i => 2 5 71|
while 1 {} => spent 0|
catch {while 1 {}} m => spent 0|
for {set i 0} {$i < 3} {incr i} {append s $i}; return $s => 2 012 84|
for a b c => 1 wrong number of words for "for" 99|
for {break} 1 {} {} => 3  98|
for {} 1 {break} {} => 0  96|
for {set i 0} {$i < 2} {incr i; continue} {} => 0  89|
for {} 1 {return 4} {} => 2 4 96|
for {} {[continue]} {} {} => 4  97|
for {} 1 {} {break} => 0  96|"#;

/// Loops over lists and choices by patterns.
pub const PICKS: &str =
    r#"set s {}; foreach {a b} {1 2 3} {append s $a- $b,}; return $s => 2 1-2,3-, 93|
foreach {} {1 2} {} => 1 bad value "" for "foreach" 99|
foreach a {} {} => 0  99|
foreach \{ a b => 1 bad list at 0 99|
foreach a \{ b => 1 bad list at 0 99|
foreach a b => 1 wrong number of words for "foreach" 99|
foreach a {1 2} {break} => 0  97|
foreach a {1 2} {continue} => 0  95|
foreach a {1 2} {return $a} => 2 1 97|
set a(x) 1; foreach a {1 2} {} => 1 variable "a" is an array 97|
foreach {a a} {1 2 3} {append s $a}; return $s => 2 2 94|
switch b {a {return 1} b {return 2}} => 2 2 98|
switch b a {return 1} b {return 2} => 2 2 98|
switch -glob bcd {b* {return 2}} => 2 2 98|
switch -glob -exact bcd {b* {return 2}} => 0  99|
switch -exact -- -x -x {return 3} => 2 3 98|
switch a {a - b {return 4}} => 2 4 98|
switch a {b - default {return 5}} => 2 5 98|
switch a {default {return 1} a {return 2}} => 2 2 98|
switch a {b c} => 0  99|
switch a {} => 0  99|
switch a a => 1 bad value "a" for "switch" 99|
switch a a b c => 1 wrong number of words for "switch" 99|
switch a {a -} => 1 bad value "-" for "switch" 99|
switch -x a b c => 1 bad value "-x" for "switch" 99|
switch a => 1 wrong number of words for "switch" 99|
switch => 1 wrong number of words for "switch" 99|
switch a \{ => 1 bad list at 0 99|"#;

/// Commands that tell of commands, and natives.
pub const COMMANDS: &str = r#"info => 1 wrong number of words for "info" 99|
info foo => 1 unknown subcommand "foo" of "info" 99|
info exists => 1 wrong number of words for "info" 99|
info exists a b => 1 wrong number of words for "info" 99|
info args => 1 wrong number of words for "info" 99|
info foo a b => 1 wrong number of words for "info" 99|
set a 1; return [info exists a][info exists b] => 2 10 96|
info args ask => 1 no procedure "ask" 99|
info body nope => 1 no procedure "nope" 99|
proc p {a {b 2} args} {x}; return [info args p]|[info body p] => 2 a b args|x 96|
proc zz {} {}; return [info commands zz*] => 2 zz 97|
return [info commands s*] => 2 set string switch 98|
list => 0  99|
string a => 1 wrong number of words for "string" 99|
string repeat a => 1 wrong number of words for "string" 99|
rename string s; s => 1 wrong number of words for "string" 98|
eval expr 1 + 1 => 0 2 97|
set i 0; while {$i < 2} {incr i; foreach j {1 2} {if {$j > 1} continue; append s $i$j}}; return $s => 2 1121 72|
proc f n {if {$n == 0} {return 1}; expr {$n * [f [expr {$n - 1}]]}}; f 3 => 0 6 74|"#;
