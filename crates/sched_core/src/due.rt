//! What is due at a moment, and the entries afterwards.
ghost use Rattle.std.specs.Prelude.{◌≡◌, ◌↔◌, ◌⊎◌, ◌≢◌, ℕ, ◌≤◌, ◌<◌, ◌+◌, ◌∷◌, List, cond, None, IfOk, OnOk, OnErr, MatchBool, Contains, filter, map};
ghost use Rattle.std.specs.List.{list_any};
ghost use Rattle.std.specs.Ordering.{eq_by_cmp};
ghost use Rattle.std.specs.BTreeMap.{get, keys};
ghost use Rattle.sched_core.specs.Entries.{Entry, due_of, key_cmp, AreInOrder, most_seconds};
ghost use Rattle.sched_core.specs.Due.{is_due, is_later, listed, IsNext, IsMoved, IsAfterDue};
ghost use Rattle.sched_core.specs.Allowed.{AreSound, HaveOwnIds};
ghost use Rattle.txt_core.specs.Limits.{last_moment};

use crate::call::{DueList, DueScript};
use crate::plan::{Key, Plan, Plans};
use std::alloc::Global;
use std::collections::BTreeMap;
use txt_core::NoMemory;

/// The least moment after `now` that is `due` and a whole number of times `seconds`.
fn next_moment(due: u64, seconds: u64, now: u64) -> u64
    requires due { due ≤ now }
    requires now { now ≤ last_moment }
    requires seconds { (1 ≤ seconds) × (seconds ≤ most_seconds) }
    ensures next { IsNext now due seconds result }
    ensures bound { result ≤ now + seconds }
{
    now + seconds - (now - due) % seconds
}

/// The scripts that are due, with their ids, copied.
fn due_scripts(alloc: Global, plans: &Plans, now: u64) -> Result<DueList, NoMemory>
    requires { now ≤ last_moment }
    ensures { IfOk result (λ list. list ≡ map listed (filter (is_due now) plans.now.entries)) }
{
    let mut list = DueList::new(alloc);
    for (key, plan) in plans.range(..(now + 1, 0)) {
        let script = plan.script.copy(alloc)?;
        list.add(DueScript { id: key.1, script })?;
    }
    Ok(list)
}

/// The entries that are due and don't run once, each at its next moment.
fn moved(alloc: Global, plans: &Plans, now: u64) -> Result<Plans, NoMemory>
    requires now { now ≤ last_moment }
    requires ordered { AreInOrder plans.now.entries }
    requires sound { AreSound plans.now.entries }
    requires ids { HaveOwnIds plans.now.entries }
    ensures { IfOk result (λ later.
        (e : Entry) → Contains later.entries e ↔ IsMoved now plans.now.entries e) }
{
    let mut later = BTreeMap::new(alloc);
    for (key, plan) in plans.range(..(now + 1, 0)) {
        if !plan.once {
            let moment = next_moment(key.0, plan.seconds, now);
            let script = plan.script.copy(alloc)?;
            let next = Plan {
                seconds: plan.seconds,
                once: false,
                script,
            };
            later.insert((moment, key.1), next)?;
        }
    }
    Ok(later)
}

/// The keys of all entries.
fn all_keys(alloc: Global, plans: &Plans) -> Result<Vec<Key>, NoMemory>
    ensures { IfOk result (λ all. all.items ≡ keys plans.now) }
{
    Ok(plans.keys().copied().collect(alloc)?)
}

/// Takes the entries of these keys out.
fn remove_all(plans: &mut Plans, keys: &[Key])
    requires { AreInOrder plans.old.entries }
    ensures found { (q : ℕ × ℕ)
        → get key_cmp plans.new q
        ≡ cond (list_any (λ k. eq_by_cmp key_cmp k q) keys.now) None (get key_cmp plans.old q) }
    ensures ordered { AreInOrder plans.new.entries }
{
    for key in keys {
        plans.remove(key);
    }
}

/// Puts more entries in. Where memory wants, the entries are as they were.
fn take_in(alloc: Global, plans: &mut Plans, mut later: Plans) -> Result<(), NoMemory>
    requires ordered { AreInOrder plans.old.entries }
    requires apart { (e f : Entry) → Contains plans.old.entries e
        → Contains later.entries f → e.0 ≢ f.0 }
    ensures ok { OnOk result
        ((e : Entry)
        → Contains plans.new.entries e
        ↔ (Contains plans.old.entries e ⊎ Contains later.entries e)) }
    ensures err { OnErr result (plans.new.entries ≡ plans.old.entries) }
    ensures ordered { AreInOrder plans.new.entries }
{
    let keys = all_keys(alloc, &later)?;
    match plans.append(&mut later) {
        Ok(()) => Ok(()),
        Err(_) => {
            remove_all(plans, &keys);
            Err(NoMemory)
        }
    }
}

/// Whether the first entry is due.
fn starts_due(plans: &Plans, now: u64) -> bool
    ensures { MatchBool result
        ((e : Entry) × (es : List Entry) × (plans.now.entries ≡ e ∷ es) × (due_of e ≤ now))
        ((e : Entry) → Contains plans.now.entries e → now < due_of e) }
{
    match plans.first_key_value() {
        Some((key, _)) => key.0 <= now,
        None => false,
    }
}

/// Takes the entries out that are due.
fn drop_due(plans: &mut Plans, now: u64)
    requires { AreInOrder plans.old.entries }
    ensures later { plans.new.entries ≡ filter (is_later now) plans.old.entries }
    ensures ordered { AreInOrder plans.new.entries }
{
    while starts_due(plans, now) {
        let _first = plans.pop_first();
    }
}

/// What is due at this moment. The entries that run once are taken out, and the others moved on.
/// All memory is taken before the first entry is: where it wants, the entries are as they were.
pub(crate) fn take_due(alloc: Global, plans: &mut Plans, now: u64) -> Result<DueList, NoMemory>
    requires now { now ≤ last_moment }
    requires ordered { AreInOrder plans.old.entries }
    requires sound { AreSound plans.old.entries }
    requires ids { HaveOwnIds plans.old.entries }
    ensures list { IfOk result (λ list. list ≡ map listed (filter (is_due now) plans.old.entries)) }
    ensures after { OnOk result (IsAfterDue now plans.old.entries plans.new.entries) }
    ensures err { OnErr result (plans.new.entries ≡ plans.old.entries) }
    ensures ordered { AreInOrder plans.new.entries }
{
    let list = due_scripts(alloc, plans, now)?;
    let later = moved(alloc, plans, now)?;
    take_in(alloc, plans, later)?;
    drop_due(plans, now);
    Ok(list)
}
