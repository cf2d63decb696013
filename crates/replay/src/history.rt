//! The entries of all seats, in the order of their tickets. They are moved, not copied.

ghost use Rattle.std.specs.Prelude.{◌≡◌, ◌+◌, ◌<◌, ◌≤◌, ℕ, [], List, take, drop, length, replicate, slice_get, IfOk, IsSome, Some};
ghost use Rattle.std.specs.List.{flat_map};
ghost use Rattle.evac_model.specs.declared.entry.Entry.{Entry};
ghost use Rattle.core_state.specs.Pages.{entry_with};
ghost use Rattle.replay.specs.Entries.{placed, all_placed};

use core_state::View;
use evac_model::{EntryList, first_node};
use std::alloc::{AllocError, Global};
use std::collections::LinkedList;

/// So many places, all empty.
fn empty_places(alloc: Global, count: usize) -> Result<Vec<EntryList>, AllocError>
    ensures { IfOk result (λ v. v.items ≡ replicate count []) }
{
    let mut places = Vec::with_capacity(alloc, count)?;
    for _place in 0..count {
        places.push(LinkedList::new(alloc))?;
    }
    Ok(places)
}

/// Moves the first of some entries to the place of its ticket, where that is there and empty.
fn place_first(places: &mut [EntryList], entries: &mut EntryList)
    requires { 0 < length entries.old }
    ensures places { places.new ≡ placed places.old (take 1 entries.old) }
    ensures rest { entries.new ≡ drop 1 entries.old }
{
    let node = first_node(entries);
    let place = match node.front() {
        Some(e) => e.ticket as usize,
        None => unreachable!(),
    };
    if place < places.len() && places[place].is_empty() {
        places[place] = node;
    }
}

/// Moves the entries of a view to the places of their tickets.
fn place_entries(places: &mut [EntryList], view: View)
    ensures { places.new ≡ placed places.old view.entries }
{
    let View { entries, .. } = view;
    let mut left = entries;
    for _entry in 0..left.len() {
        place_first(places, &mut left);
    }
}

/// Moves the entries of all views to the places of their tickets.
fn place_all(places: &mut [EntryList], views: Vec<View>)
    ensures { places.new ≡ all_placed places.old views.items }
{
    for view in views {
        place_entries(places, view);
    }
}

/// The entries at all places, in order.
fn entries_at(alloc: Global, places: Vec<EntryList>) -> Result<EntryList, AllocError>
    ensures { IfOk result (λ entries. entries ≡ flat_map (λ l. l) places.items) }
{
    let mut entries = LinkedList::new(alloc);
    for place in places {
        let mut at_place = place;
        entries.append(&mut at_place)?;
    }
    Ok(entries)
}

/// The entries of all views, in the order of their tickets, of which so many are drawn: each has an entry.
pub(crate) fn history(
    alloc: Global,
    views: Vec<View>,
    count: usize,
) -> Result<EntryList, AllocError>
    requires { (t : ℕ) → t < count → IsSome (entry_with t views.items) }
    ensures count { IfOk result (λ h. length h ≡ count) }
    ensures each { IfOk result (λ h. (t : ℕ) (e : Entry) → slice_get h t ≡ Some e → entry_with t views.items ≡ Some e) }
{
    let mut places = empty_places(alloc, count)?;
    place_all(places.as_mut_slice(), views);
    entries_at(alloc, places)
}
