//! Pages and what they come to.

/// A first page, the pages that it includes in turn, each with `<-` in front, an arrow, and what it comes to with a
/// budget of 100: its code and what is left; the output; and behind a 1 the codes that the host was told, each a
/// digit.
pub const PAGES: &str = r#"a<% b => 0  100|a<% b|10
a<% ns_adp_append b %>c<%= d %>e => 0  98|abcde|10
x<% wrong e %>y<% ns_adp_append z %>w => 0  98|xyzw|110
<% break %>a<% continue %>b<% gone %>c<% { %>d => 0  97|abcd|134110
a<% return x %>b => 0  99|a|12
a<% ns_adp_return %>b => 0  99|a|15
a<% ns_adp_break %>b => 6  99|a|16
1<% page i.adp q %>4 <- 2<% ns_adp_append q %>3 => 0  98|12q34|100
1<% page i.adp q %>4 <- 2<% return x %>3 => 0  98|124|120
1<% page i.adp q %>4 <- 2<% ns_adp_return %>3 => 0  98|124|150
1<% page i.adp q %>4 <- 2<% ns_adp_break %>3 => 6  98|12|166
1<% page i.adp q %>4 <- 2<% ns_adp_abort %>3 => 7  98|12|177
1<% page i.adp q %>4 <- 2<% wrong x %>3 => 0  98|1234|1100
1<% catch {page i} m; ns_adp_append $m. %>4 <- 2<% ns_adp_break %>3 => 0  96|12.4|160
1<% ns_adp_append [page i]. %>4 <- 2 => 0  98|12.4|100
<% keep a 1 %><% page i %><% ns_adp_append $a %> <- 2<% ns_adp_append $a %> => 0  97|21|1100
<% keep a 1 %><% ns_adp_append $a %><% page i %><% page j %> <- <% keep b 2 %> <- <% ns_adp_append $b %> => 0  95|1|10100
<% proc p {} {global b; keep b 2}; p %><% global b; ns_adp_append $b %><% ns_adp_append $b %> => 0  93|22|10
<% proc p {} {keep c 1; page i; ns_adp_append $c}; p %> <- <% ns_adp_append $c %> => 0  95|1|1100
<% page a %>3 <- 1<% page b %>2 <- 0 => 0  98|1023|1000"#;

/// The same at depth 200.
pub const DEEP_PAGES: &str = r#"<% page i %>b <- a => 0  99|ab|100
<% page i %>b <- a<% %> => deep 99|a|1
<% ns_adp_append a %>b => 0  99|ab|10"#;
