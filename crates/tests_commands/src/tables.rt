ghost use Rattle.std.specs.Prelude.{◌≡◌, ◌<◌, ◌∷◌, ◌++◌, [], false, OnOk};
ghost use Rattle.natives.specs.Answers.{Reply, Answers};
ghost use Rattle.natives.specs.Names.{name_of, names_of, has_name};

use crate::stored::add;
use cmd_table::{Cmd, CmdTable, Def, Renamed, Steps};
use natives::{Fault, Native, Natives};
use std::alloc::Global;
use std::marker::Brand;
use std::sync::ledger::{Blank, Ledger};
use std::test::Fail;
use txt_core::{NoMemory, Text, Words};

/// The built-in names that are no natives, in byte order.
const BUILT_INS: &str =
    "append array break catch close continue eof error eval expr for foreach gets global if incr \
    info lappend ns_adp_abort ns_adp_append ns_adp_argc ns_adp_argv ns_adp_break ns_adp_include \
    ns_adp_puts ns_adp_return ns_conn ns_eval ns_httptime ns_ictl ns_queryget \
    ns_register_filter ns_register_proc ns_return ns_returnnotfound ns_returnredirect \
    ns_schedule_proc ns_set ns_time ns_unschedule_proc ns_urldecode ns_urlencode nsv_append \
    nsv_array nsv_exists nsv_get nsv_incr nsv_lappend nsv_names nsv_set nsv_unset open proc \
    read rename return set switch unset while ";

/// What any native may answer.
fn gives_up(_alloc: Global, _words: &Words) -> Result<Text, Fault>
    ensures { (reply : Reply) → Answers reply result }
{
    Err(Fault::NoMemory)
}

/// A table of the built-ins, of these natives, and of `b` and `a` as further built-ins.
fn example<L: Ledger>(
    alloc: Global,
    natives: &Natives,
    steps: &mut Steps<L>,
) -> Result<CmdTable, NoMemory> {
    let mut table = CmdTable::new(alloc, natives, steps)?;
    for name in [b"b", b"a"] {
        let built = Cmd::Built(Text::new(alloc, name)?);
        table.put(Text::new(alloc, name)?, built, steps)?;
    }
    Ok(table)
}

/// Defines a procedure `c` of this body.
fn define<L: Ledger>(
    alloc: Global,
    table: &mut CmdTable,
    body: &str,
    steps: &mut Steps<L>,
) -> Result<(), NoMemory> {
    let def = Def::Proc {
        name: Text::new(alloc, b"c")?,
        params: Text::empty(alloc),
        body: Text::new(alloc, body.as_bytes())?,
    };
    table.apply(&def, steps)
}

/// Puts a name at the end of a text with what it stands for: a built-in with its own name, a
/// procedure with its body.
fn show_command(table: &CmdTable, name: &Text, all: &mut Text) -> Result<(), NoMemory> {
    all.append(name.bytes())?;
    match table.get(name) {
        Some(Cmd::Built(text) | Cmd::Proc { body: text, .. }) => all.append(text.bytes())?,
        None => all.append(b"nothing")?,
    }
    all.append(b" ")
}

/// Puts the names of one byte and those of natives at the end of a text, with what they stand for.
fn show(table: &CmdTable, natives: &Natives, all: &mut Text) -> Result<(), NoMemory> {
    for name in table.names()?.as_slice() {
        if name.len() == 1 || natives.find(name).is_some() {
            show_command(table, name, all)?;
        }
    }
    Ok(())
}

/// Whether a name stands for its own built-in.
fn is_own(table: &CmdTable, name: &Text) -> bool {
    match table.get(name) {
        Some(Cmd::Built(own)) => own.bytes() == name.bytes(),
        _ => false,
    }
}

/// Puts a name at the end of a text with a space behind it; with what else it stands for, where it doesn't
/// stand for its own built-in.
fn list_name(table: &CmdTable, name: &Text, all: &mut Text) -> Result<(), NoMemory> {
    if !is_own(table, name) {
        return show_command(table, name, all);
    }
    all.append(name.bytes())?;
    all.append(b" ")
}

/// The names of a table, as `list_name` puts them.
fn names_listed(alloc: Global, table: &CmdTable) -> Result<Text, NoMemory> {
    let mut all = Text::empty(alloc);
    for name in table.names()?.as_slice() {
        list_name(table, name, &mut all)?;
    }
    Ok(all)
}

/// The names of a new table without natives, with a space behind each; with what else it stands for, where
/// a name doesn't stand for its own built-in.
fn new_listing<L: Ledger>(alloc: Global, blank: Blank) -> Result<Text, NoMemory>
    requires name { blank.name ≡ L.name }
    requires parts { blank.parts ≡ L.parts }
    requires some { 0 < blank.parts }
{
    let mut steps = Steps::<L>::new(blank);
    let table = CmdTable::new(alloc, &Natives::new(alloc), &mut steps)?;
    names_listed(alloc, &table)
}

/// Renames a command, and puts what is answered at the end of a text.
fn rename<L: Ledger>(
    alloc: Global,
    table: &mut CmdTable,
    old: &str,
    new: &str,
    steps: &mut Steps<L>,
    all: &mut Text,
) -> Result<(), NoMemory> {
    let old = Text::new(alloc, old.as_bytes())?;
    let new = Text::new(alloc, new.as_bytes())?;
    match table.rename(&old, &new, steps)? {
        Renamed::Done => all.append(b"done "),
        Renamed::NoOld => all.append(b"absent "),
        Renamed::NewExists => all.append(b"taken "),
    }
}

/// Puts a built-in `c` into a table, and then a procedure in its place.
fn put_c<L: Ledger>(
    alloc: Global,
    table: &mut CmdTable,
    steps: &mut Steps<L>,
) -> Result<(), NoMemory> {
    let first = Cmd::Built(Text::new(alloc, b"1")?);
    table.put(Text::new(alloc, b"c")?, first, steps)?;
    define(alloc, table, "2", steps)
}

/// Renames on a table, one after the other: what is shown of the table, and behind it what each answers
/// and what is shown of the table after it.
fn listing_on<L: Ledger>(
    alloc: Global,
    table: &mut CmdTable,
    natives: &Natives,
    renames: &[(&str, &str)],
    steps: &mut Steps<L>,
) -> Result<Text, NoMemory> {
    let mut all = Text::empty(alloc);
    show(table, natives, &mut all)?;
    for (old, new) in renames {
        rename(alloc, table, old, new, steps, &mut all)?;
        show(table, natives, &mut all)?;
    }
    Ok(all)
}

/// Renames on the table of `example` with a procedure `c`, one after the other: what each answers,
/// and what is shown of the table after it.
fn listing<L: Ledger>(
    alloc: Global,
    blank: Blank,
    natives: &Natives,
    renames: &[(&str, &str)],
) -> Result<Text, NoMemory>
    requires name { blank.name ≡ L.name }
    requires parts { blank.parts ≡ L.parts }
    requires some { 0 < blank.parts }
{
    let mut steps = Steps::<L>::new(blank);
    let mut table = example(alloc, natives, &mut steps)?;
    put_c(alloc, &mut table, &mut steps)?;
    listing_on(alloc, &mut table, natives, renames, &mut steps)
}

#[test]
fn built_ins_stand_for_themselves(rt: HostRuntime) -> Result<(), Fail> {
    let alloc = rt.alloc();
    let came = new_listing::<Brand>(alloc, Blank::new(1))?;
    assert_eq!(rt; came.bytes(), BUILT_INS.as_bytes());
    Ok(())
}

/// Two natives.
#[tactic(auto, unfolding(natives::specs::Ranges::range_of))]
fn two_natives(alloc: Global) -> Result<Natives, NoMemory> {
    let mut natives = Natives::new(alloc);
    let list = Native::new(Text::new(alloc, b"list")?, 1, 200_001, gives_up);
    add(&mut natives, list)?;
    let join = Native::new(Text::new(alloc, b"join")?, 2, 3, gives_up);
    add(&mut natives, join)?;
    Ok(natives)
}

/// The renames that are made.
const OLD_AND_NEW: [(&str, &str); 10] = [
    ("d", "a"),
    ("d", ""),
    ("a", "b"),
    ("a", "a"),
    ("a", "d"),
    ("b", ""),
    ("b", "c"),
    ("c", "b"),
    ("list", "e"),
    ("join", ""),
];

/// What is shown before them, and what each answers and what is shown after it.
const SHOWN: &str = "aa bb c2 joinjoin listlist \
    absent aa bb c2 joinjoin listlist \
    absent aa bb c2 joinjoin listlist \
    taken aa bb c2 joinjoin listlist \
    taken aa bb c2 joinjoin listlist \
    done bb c2 da joinjoin listlist \
    done c2 da joinjoin listlist \
    absent c2 da joinjoin listlist \
    done b2 da joinjoin listlist \
    done b2 da elist joinjoin \
    done b2 da elist ";

#[test]
fn renames(rt: HostRuntime) -> Result<(), Fail> {
    let natives = two_natives(rt.alloc())?;
    let came = listing::<Brand>(rt.alloc(), Blank::new(1), &natives, OLD_AND_NEW.as_slice())?;
    assert_eq!(rt; came.bytes(), SHOWN.as_bytes());
    Ok(())
}
