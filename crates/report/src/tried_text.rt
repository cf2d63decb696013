//! The lines of the blocks that a command of the host tried.

ghost use Rattle.std.specs.Prelude.{◌≡◌, ◌∷◌, [], ◌++◌, OnOk};
ghost use Rattle.std.specs.List.{flat_map};
ghost use Rattle.std.specs.Fmt.{decimal};
ghost use Rattle.report.specs.ReportText.{behind_space, answer_word, cause_words, block_text, tried_text};

use crate::words::{put_number, put_numbers, put_word};
use evac_model::{BlockNo, EvacCause, FrameNo, PageNo, Response, Tried, TriedResult};
use std::alloc::AllocError;

/// Adds the name of the device's answer.
fn put_answer(out: &mut Vec<u8>, response: Response) -> Result<(), AllocError>
    ensures { OnOk result (out.new.items ≡ out.old.items ++ behind_space (answer_word response)) }
{
    match response {
        Response::Ack { .. } => put_word(out, b"ack"),
        Response::Nack => put_word(out, b"nack"),
        Response::Busy => put_word(out, b"busy"),
        Response::Error => put_word(out, b"error"),
    }
}

/// Adds the name of a cause, and the frame and the page that it is about.
fn put_found(out: &mut Vec<u8>, name: &[u8], frame: FrameNo, page: PageNo) -> Result<(), AllocError>
    ensures { OnOk result (out.new.items ≡ out.old.items ++ flat_map behind_space (name.now ∷ decimal frame.0 ∷ decimal page.0 ∷ [])) }
{
    put_word(out, name)?;
    put_numbers(out, &[frame.0 as u64, page.0 as u64])
}

/// Adds why a block wasn't emptied.
fn put_cause(out: &mut Vec<u8>, cause: &EvacCause) -> Result<(), AllocError>
    ensures { OnOk result (out.new.items ≡ out.old.items ++ flat_map behind_space (cause_words cause.now)) }
{
    match cause {
        EvacCause::Unmovable { frame, page } => put_found(out, b"unmovable", *frame, *page),
        EvacCause::Pinned { frame, page, word } => {
            put_found(out, b"pinned", *frame, *page)?;
            put_number(out, *word)
        }
        EvacCause::NoTarget { frame, page, at } => {
            put_found(out, b"no-target", *frame, *page)?;
            put_number(out, *at)
        }
        EvacCause::Busy { frame, page, words } => {
            put_found(out, b"busy", *frame, *page)?;
            put_numbers(out, words)
        }
    }
}

/// Adds the first word of a line, and a block.
fn put_block(out: &mut Vec<u8>, name: &[u8], block: BlockNo) -> Result<(), AllocError>
    ensures { OnOk result (out.new.items ≡ out.old.items ++ (name.now ++ behind_space (decimal block.0))) }
{
    out.extend_from_slice(name)?;
    put_number(out, block.0 as u64)
}

/// Adds the line of a block but for its end.
fn put_outcome(out: &mut Vec<u8>, block: BlockNo, outcome: &TriedResult) -> Result<(), AllocError>
    ensures { OnOk result (out.new.items ++ 10 ∷ [] ≡ out.old.items ++ block_text block.0 outcome.now) }
{
    match outcome {
        TriedResult::Unplugged => {
            put_block(out, b"tried", block)?;
            put_word(out, b"unplugged")
        }
        TriedResult::Emptied => {
            put_block(out, b"tried", block)?;
            put_word(out, b"emptied")
        }
        TriedResult::Answered(response) => {
            put_block(out, b"tried", block)?;
            put_word(out, b"answered")?;
            put_answer(out, *response)
        }
        TriedResult::Failed(cause) => {
            put_block(out, b"tried", block)?;
            put_cause(out, cause)
        }
        TriedResult::Plugged(response) => {
            put_block(out, b"plug", block)?;
            put_answer(out, *response)
        }
    }
}

/// Adds the line of a block.
fn put_tried(out: &mut Vec<u8>, tried: &Tried) -> Result<(), AllocError>
    ensures { OnOk result (out.new.items ≡ out.old.items ++ tried_text tried.now) }
{
    put_outcome(out, tried.block, &tried.result)?;
    Ok(out.push(b'\n')?)
}

/// Adds a line for each block that was tried.
pub fn put_blocks(out: &mut Vec<u8>, blocks: &[Tried]) -> Result<(), AllocError>
    ensures { OnOk result (out.new.items ≡ out.old.items ++ flat_map tried_text blocks.now) }
{
    for tried in blocks {
        put_tried(out, tried)?;
    }
    Ok(())
}
