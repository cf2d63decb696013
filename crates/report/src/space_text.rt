//! The lines of the frame space's actions.

ghost use Rattle.std.specs.Prelude.{◌≡◌, ◌∷◌, [], ◌++◌, codes, OnOk};
ghost use Rattle.std.specs.List.{flat_map};
ghost use Rattle.std.specs.Fmt.{decimal};
ghost use Rattle.report.specs.ReportText.{behind_space, action_words, action_text};
ghost use Rattle.report.specs.Sections.{space_text};

use crate::words::{put_kind, put_number, put_numbers, put_word};
use evac_model::{BlockNo, FrameNo, Kind, PageNo, SpaceAction};
use std::alloc::AllocError;

/// Adds the words of a lease for a page.
fn put_lease(
    out: &mut Vec<u8>,
    who: u32,
    frame: FrameNo,
    page: PageNo,
    kind: Kind,
) -> Result<(), AllocError>
    ensures { OnOk result (out.new.items ≡ out.old.items ++ flat_map behind_space (action_words (SpaceAction.Lease who frame page kind))) }
{
    put_word(out, b"lease")?;
    put_numbers(out, &[who as u64, frame.0 as u64])?;
    put_word(out, b"alloc")?;
    put_number(out, page.0 as u64)?;
    put_kind(out, kind)
}

/// Adds the words of the driver's lease of a target.
fn put_move_lease(out: &mut Vec<u8>, frame: FrameNo, page: PageNo) -> Result<(), AllocError>
    ensures { OnOk result (out.new.items ≡ out.old.items ++ flat_map behind_space (action_words (SpaceAction.MoveLease frame page))) }
{
    put_word(out, b"lease")?;
    put_word(out, b"0")?;
    put_number(out, frame.0 as u64)?;
    put_word(out, b"move")?;
    put_number(out, page.0 as u64)
}

/// Adds the name of an action and its block.
fn put_block(out: &mut Vec<u8>, name: &[u8], block: BlockNo) -> Result<(), AllocError>
    ensures { OnOk result (out.new.items ≡ out.old.items ++ flat_map behind_space (name.now ∷ decimal block.0 ∷ [])) }
{
    put_word(out, name)?;
    put_number(out, block.0 as u64)
}

/// Adds the words of an action.
fn put_action_words(out: &mut Vec<u8>, action: &SpaceAction) -> Result<(), AllocError>
    ensures { OnOk result (out.new.items ≡ out.old.items ++ flat_map behind_space (action_words action.now)) }
{
    match action {
        SpaceAction::Lease {
            who,
            frame,
            page,
            kind,
        } => put_lease(out, *who, *frame, *page, *kind),
        SpaceAction::MoveLease { frame, page } => put_move_lease(out, *frame, *page),
        SpaceAction::Return { who, frame } => {
            put_word(out, b"return")?;
            put_numbers(out, &[*who as u64, frame.0 as u64])
        }
        SpaceAction::Isolate { block } => put_block(out, b"isolate", *block),
        SpaceAction::Undo { block } => put_block(out, b"undo", *block),
        SpaceAction::Offline { block } => put_block(out, b"offline", *block),
        SpaceAction::Online { block } => put_block(out, b"online", *block),
    }
}

/// Adds the line of the action with this number.
fn put_action(out: &mut Vec<u8>, number: u64, action: &SpaceAction) -> Result<(), AllocError>
    ensures { OnOk result (out.new.items ≡ out.old.items ++ action_text number action.now) }
{
    out.extend_from_slice(b"space")?;
    put_number(out, number)?;
    put_action_words(out, action)?;
    Ok(out.push(b'\n')?)
}

/// Adds a line for each action, numbered from 0.
pub fn put_actions(out: &mut Vec<u8>, actions: &[SpaceAction]) -> Result<(), AllocError>
    ensures { OnOk result (out.new.items ≡ out.old.items ++ space_text 0 actions.now) }
{
    for (number, action) in actions.iter().enumerate() {
        put_action(out, number as u64, action)?;
    }
    Ok(())
}
