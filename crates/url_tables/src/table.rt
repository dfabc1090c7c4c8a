//! Registrations by the plain segments of their URLs.

ghost use Rattle.std.specs.Prelude.{◌≡◌, ◌++◌, OnOk};
ghost use Rattle.txt_core.specs.Names.{Words};
ghost use Rattle.url_tables.specs.Tables.{same_path, if_same, found};

use crate::site::Site;
use std::alloc::Global;
use std::collections::BTreeMap;
use txt_core::{NoMemory, Sequence, Text};

/// The registrations under each list of plain segments, in their order.
pub(crate) type Sites = BTreeMap<Vec<Text>, Sequence<Site>>;

/// Puts a registration behind those of the same plain segments.
pub(crate) fn put(
    alloc: Global,
    sites: &mut Sites,
    plain: Vec<Text>,
    site: Site,
) -> Result<(), NoMemory>
    ensures { OnOk result
        ((path : Words)
        → found sites.new path
        ≡ found sites.old path ++ if_same (same_path path plain.items) site) }
{
    if let Some(others) = sites.get_mut(plain.as_slice()) {
        return others.add(site);
    }
    let mut first = Sequence::new(alloc);
    first.add(site)?;
    sites.insert(plain, first)?;
    Ok(())
}
