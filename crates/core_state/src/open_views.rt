//! The views of the seats when a core is opened.

ghost use Rattle.std.specs.Prelude.{◌≡◌, ◌+◌, ◌<◌, ◌≤◌, ◌++◌, ◌∷◌, [], length, replicate, IfOk, OnOk, None, Some};
ghost use Rattle.evac_model.specs.Geometry.{frame_count};
ghost use Rattle.evac_model.specs.StartPages.{AreStartPages};
ghost use Rattle.core_state.specs.CoreOpens.{driver_view, owner_view, owner_views, free_hand, scanner_view, keeper_view, opening_views};
ghost use Rattle.core_state.specs.Copies.{nothing_copied};
ghost use Rattle.core_state.specs.Views.{spent};

use crate::actions::Actions;
use crate::hand::HandFrame;
use crate::noticed::Noticed;
use crate::open_hands::{open_free, open_hand, open_unplugged};
use crate::scan::{FrameCopy, Scan};
use crate::view::View;
use evac_model::{Geometry, Listed, StartPage};
use std::alloc::{AllocError, Global};
use std::collections::LinkedList;

/// No actions.
fn no_actions(alloc: Global) -> Actions
    ensures { result ≡ spent.actions }
{
    Actions {
        made: LinkedList::new(alloc),
        leases_refused: LinkedList::new(alloc),
        isolations_refused: LinkedList::new(alloc),
        marked: false,
        known: 0,
        journal: None,
        under_way: false,
    }
}

/// A seat without tickets, right to move and image, that has these frames in hand.
fn new_view(alloc: Global, g: &Geometry, hand: Vec<Option<HandFrame>>) -> View
    ensures { result ≡ keeper_view g.now None hand.items }
{
    View {
        cells: g.cells(),
        caller: None,
        entries: LinkedList::new(alloc),
        held: None,
        hand: Listed::from_vec(hand),
        unmarked: LinkedList::new(alloc),
        noticed: Noticed {
            by_right: LinkedList::new(alloc),
            last: None,
            by_ticket: 0,
        },
        left: 0,
        seen: 0,
        mover: Listed::from_vec(Vec::new(alloc)),
        actions: no_actions(alloc),
        scan: None,
    }
}

/// The driver's seat.
fn driver(alloc: Global, g: &Geometry) -> Result<View, AllocError>
    ensures { IfOk result (λ v. v ≡ driver_view g.now) }
{
    let mover = vec![in alloc; true; g.pages() as usize]?;
    let mut view = new_view(alloc, g, open_hand(alloc, g)?);
    view.caller = Some(0);
    view.mover = Listed::from_vec(mover);
    Ok(view)
}

/// The seat of an owner.
fn owner(alloc: Global, g: &Geometry, owner: u32, left: u64) -> Result<View, AllocError>
    ensures { IfOk result (λ v. v ≡ owner_view g.now owner left) }
{
    let mut view = new_view(alloc, g, open_hand(alloc, g)?);
    view.caller = Some(owner);
    view.left = left;
    Ok(view)
}

/// Adds the seats of the owners.
fn push_owners(
    alloc: Global,
    g: &Geometry,
    views: &mut Vec<View>,
    budgets: &[u64],
) -> Result<(), AllocError>
    requires { length budgets.now ≤ 16 }
    ensures { OnOk result (views.new.items ≡ views.old.items ++ owner_views g.now 1 budgets.now) }
{
    for i in 0..budgets.len() {
        views.push(owner(alloc, g, i as u32 + 1, budgets[i])?)?;
    }
    Ok(())
}

/// Room for the copy of each frame.
fn no_copies(alloc: Global, g: &Geometry) -> Result<Vec<FrameCopy>, AllocError>
    ensures { IfOk result (λ v. v.items ≡ replicate (frame_count g.now) (nothing_copied g.now.cells)) }
{
    let frames = g.frames();
    let mut image = Vec::with_capacity(alloc, frames as usize)?;
    for _frame in 0..frames {
        image.push(FrameCopy::nothing(alloc, g.cells() as usize)?)?;
    }
    Ok(image)
}

/// The scanner's seat.
fn scanner(alloc: Global, g: &Geometry) -> Result<View, AllocError>
    ensures { IfOk result (λ v. v ≡ scanner_view g.now) }
{
    let image = no_copies(alloc, g)?;
    let mut view = new_view(alloc, g, open_hand(alloc, g)?);
    view.scan = Some(Scan {
        at: None,
        image: Listed::from_vec(image),
        swept: LinkedList::new(alloc),
        passes: 0,
    });
    Ok(view)
}

/// The seat that keeps the free frames, and the journal of the frame space.
fn free_keeper(alloc: Global, g: &Geometry, start: &[StartPage]) -> Result<View, AllocError>
    requires { AreStartPages g.now start.now }
    ensures { IfOk result (λ v. v ≡ keeper_view g.now (Some []) (free_hand g.now start.now)) }
{
    let mut view = new_view(alloc, g, open_free(alloc, g, start)?);
    view.actions.journal = Some(LinkedList::new(alloc));
    Ok(view)
}

/// The views of all seats, in their order.
pub(crate) fn open_views(
    alloc: Global,
    g: &Geometry,
    start: &[StartPage],
    budgets: &[u64],
) -> Result<Vec<View>, AllocError>
    requires start { AreStartPages g.now start.now }
    requires owners { length budgets.now ≤ 16 }
    ensures { IfOk result (λ v. v.items ≡ opening_views g.now start.now budgets.now) }
{
    let mut views = Vec::with_capacity(alloc, budgets.len() + 4)?;
    views.push(driver(alloc, g)?)?;
    push_owners(alloc, g, &mut views, budgets)?;
    views.push(scanner(alloc, g)?)?;
    views.push(free_keeper(alloc, g, start)?)?;
    let unplugged = open_unplugged(alloc, g)?;
    views.push(new_view(alloc, g, unplugged))?;
    Ok(views)
}
