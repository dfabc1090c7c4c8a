//! The tables of a blueprint's registrations and filters.

ghost use Rattle.std.specs.Prelude.{◌≡◌, ◌≤◌, ◌++◌, ◌∷◌, [], List, length, false, true, IfOk, OnOk};
ghost use Rattle.std.specs.Option.{option_copied, option_map};
ghost use Rattle.txt_core.specs.Names.{Bytes, Words};
ghost use Rattle.cmd_table.specs.declared.definition.Def.{Def};
ghost use Rattle.cmd_table.specs.declared.definition.When.{When as Stage};
ghost use Rattle.url_tables.specs.Serving.{route_method, route};
ghost use Rattle.url_tables.specs.Filters.{Filters};
ghost use Rattle.url_tables.specs.Searching.{last_serving, found_at};

use crate::filters::{Passing, WordsList};
use crate::shared::SharedWords;
use crate::site::{Route, Site};
use crate::table::{Sites, put};
use crate::url::read_url;
use cmd_table::{Def, Defs, When};
use std::alloc::Global;
use std::collections::BTreeMap;
use txt_core::{NoMemory, Sequence, Text, Words};

/// The method under which a request is looked for: HEAD counts as GET.
pub(crate) fn route_method(method: &[u8]) -> &[u8]
    ensures { result.now ≡ route_method method.now }
{
    if method == b"HEAD".as_slice() {
        b"GET"
    } else {
        method
    }
}

/// The latest registration of these that serves the request.
fn latest<'a>(sites: &'a [Site], method: &[u8], rest: &[Text], pattern: bool) -> Option<&'a Route>
    ensures { option_map (λ route. route.words) (option_copied result)
        ≡ last_serving pattern method.now rest.now sites.now }
{
    let mut at = sites.len();
    while at > 0 {
        at -= 1;
        let site = &sites[at];
        if site.serves(method, rest, pattern) {
            return Some(&site.route);
        }
    }
    None
}

/// The latest registration of these that has a pattern and serves the request: none where nothing is left
/// of the path.
#[tactic(auto, using(crate::proofs::Latest::no_pattern))]
fn latest_pattern<'a>(sites: &'a [Site], method: &[u8], rest: &[Text]) -> Option<&'a Route>
    ensures { option_map (λ route. route.words) (option_copied result)
        ≡ last_serving true method.now rest.now sites.now }
{
    if rest.is_empty() {
        return None;
    }
    latest(sites, method, rest, true)
}

/// What serves requests, and what filters they pass, of a list of definitions.
///
/// A request is looked for under each front of its path, the longest first, and there among the
/// registrations of these very segments, the latest first. So what it costs goes by its path, and by the
/// number of registrations only as searching an ordered map does.
#[derive(Debug, Drop)]
pub struct Routes {
    alloc: Global,
    sites: Sites,
    filters: Vec<Passing>,
}

impl Routes {
    ghost use Rattle.url_tables.specs.Tables.{kept, found, passing, IsBuiltOf};

    /// The tables of these definitions. The only error is want of memory.
    pub fn build(alloc: Global, defs: &Defs) -> Result<Routes, NoMemory>
        ensures { IfOk result (λ routes. IsBuiltOf routes defs.now) }
    {
        let mut routes = Routes {
            alloc,
            sites: BTreeMap::new(alloc),
            filters: Vec::new(alloc),
        };
        for def in defs.as_slice() {
            routes.add(def)?;
        }
        Ok(routes)
    }

    /// Puts a definition behind the others.
    fn add(&mut self, def: &Def) -> Result<(), NoMemory>
        ensures { OnOk result
            ((defs : List Def) → IsBuiltOf self.old defs
            → IsBuiltOf self.new (defs ++ def.now ∷ [])) }
    {
        match def {
            Def::Route {
                method,
                url,
                inherit,
                words,
            } => self.add_route(method, url, *inherit, words),
            Def::Filter {
                when,
                method,
                pattern,
                words,
            } => self.add_filter(*when, method, pattern, words),
            _ => Ok(()),
        }
    }

    fn add_route(
        &mut self,
        method: &Text,
        url: &Text,
        inherit: bool,
        words: &Words,
    ) -> Result<(), NoMemory>
        ensures { OnOk result
            (((plain : Words)
            → found self.new.sites plain
            ≡ found self.old.sites plain ++ kept plain
            (Def.Route method.now url.now inherit words.now))
            × (self.new.filters.items ≡ self.old.filters.items)) }
    {
        let alloc = self.alloc;
        let parts = read_url(alloc, url.bytes())?;
        let copies = Sequence::of_copies(alloc, words.as_slice())?;
        let words = SharedWords::new(alloc, copies)?;
        let site = Site {
            method: method.copy(alloc)?,
            suffix: parts.suffix,
            inherit,
            route: Route { words },
        };
        put(alloc, &mut self.sites, parts.plain, site)
    }

    fn add_filter(
        &mut self,
        when: When,
        method: &Text,
        pattern: &Text,
        words: &Words,
    ) -> Result<(), NoMemory>
        ensures { OnOk result
            ((self.new.filters.items
            ≡ self.old.filters.items ++ passing (Def.Filter when method.now pattern.now words.now))
            × (self.new.sites ≡ self.old.sites)) }
    {
        let alloc = self.alloc;
        let passing = Passing {
            when,
            method: method.copy(alloc)?,
            pattern: pattern.copy(alloc)?,
            words: Sequence::of_copies(alloc, words.as_slice())?,
        };
        self.filters.push(passing)?;
        Ok(())
    }

    /// What serves a request whose path begins with so many segments as the plain ones of its URL.
    fn serve_at(&self, method: &[u8], path: &[Text], count: usize) -> Option<&Route>
        requires { count ≤ length path.now }
        ensures { option_map (λ route. route.words) (option_copied result)
            ≡ found_at self.now.sites method.now path.now count }
    {
        let (front, rest) = path.split_at(count);
        let sites = self.sites.get(front)?;
        match latest_pattern(sites.as_slice(), method, rest) {
            Some(route) => Some(route),
            None => latest(sites.as_slice(), method, rest, false),
        }
    }

    /// What serves a request with this method and the segments of this path: of all registrations that
    /// match, the one with most plain segments, of these one with a pattern, and of these the latest;
    /// `None` exactly where no registration matches. It takes no memory.
    pub fn serve(&self, method: &Text, segments: &Words) -> Option<&Route>
        ensures { (defs : List Def) → IsBuiltOf self.now defs
            → option_map (λ route. route.words) (option_copied result)
            ≡ route defs method.now segments.now }
    {
        let wanted = route_method(method.bytes());
        let path = segments.as_slice();
        let mut count = path.len() + 1;
        while count > 0 {
            count -= 1;
            if let Some(route) = self.serve_at(wanted, path, count) {
                return Some(route);
            }
        }
        None
    }

    /// Whether there is a filter at all. Without one, no request passes any.
    pub fn has_filters(&self) -> bool
        ensures { (defs : List Def) → IsBuiltOf self.now defs → result ≡ false
            → (when : Stage) (method path : Bytes) → Filters when method path defs ≡ [] }
    {
        !self.filters.as_slice().is_empty()
    }

    /// The words of the filters that a request with this method and path passes at a stage, in the order
    /// of their registration. The only error is want of memory.
    pub fn filters(&self, when: When, method: &Text, path: &Text) -> Result<WordsList, NoMemory>
        ensures { (defs : List Def) → IsBuiltOf self.now defs
            → IfOk result (λ list. list ≡ Filters when method.now path.now defs) }
    {
        let mut list = Sequence::new(self.alloc);
        for filter in self.filters.as_slice() {
            if filter.is_passed(when, method, path) {
                list.add(Sequence::of_copies(self.alloc, filter.words.as_slice())?)?;
            }
        }
        Ok(list)
    }
}
