//! The report's text: lines of words, each word but the first behind a space.

ghost use Rattle.std.specs.Prelude.{◌≡◌, [], ◌∷◌, ◌++◌, OnOk, IfOk};
ghost use Rattle.std.specs.List.{flat_map};
ghost use Rattle.std.specs.Fmt.{decimal};
ghost use Rattle.evac_model.specs.Spelling.{call_words};
ghost use Rattle.report.specs.ReportText.{behind_space, HaveStates, reply_words, entry_text, plugged_text, cell_words, page_text, report_text};
ghost use Rattle.report.specs.Sections.{sections_text};

use crate::host_text::put_runs;
use crate::report::{FinalPage, Report};
use crate::words::{put_kind, put_number, put_numbers, put_word};
use crate::{device_text, space_text};
use evac_model::{BlockNo, ByteList, Call, Entry, EntryList, OutOfMemory, PageNo, Reply};
use itoa::Buffer;
use std::alloc::{AllocError, Global};

/// Adds the name of a call and its page.
fn put_name(out: &mut Vec<u8>, name: &[u8], page: PageNo) -> Result<(), AllocError>
    ensures { OnOk result (out.new.items ≡ out.old.items ++ flat_map behind_space (name.now ∷ decimal page.0 ∷ [])) }
{
    put_word(out, name)?;
    put_number(out, page.0 as u64)
}

/// Adds a call as a scenario spells it.
fn put_call(out: &mut Vec<u8>, page: PageNo, call: &Call) -> Result<(), AllocError>
    ensures { OnOk result (out.new.items ≡ out.old.items ++ flat_map behind_space (call_words page.0 call.now)) }
{
    match call {
        Call::Alloc { kind } => {
            put_name(out, b"alloc", page)?;
            put_kind(out, *kind)
        }
        Call::Free => put_name(out, b"free", page),
        Call::Read { first, count } => {
            put_name(out, b"read", page)?;
            put_numbers(out, &[*first as u64, *count as u64])
        }
        Call::Write { first, values } => {
            put_name(out, b"write", page)?;
            put_number(out, *first as u64)?;
            put_numbers(out, values.as_slice())
        }
        Call::Add { cell, value } => {
            put_name(out, b"add", page)?;
            put_numbers(out, &[*cell as u64, *value])
        }
        Call::Pin => put_name(out, b"pin", page),
        Call::Unpin => put_name(out, b"unpin", page),
    }
}

fn put_reply(out: &mut Vec<u8>, reply: &Reply) -> Result<(), AllocError>
    ensures { OnOk result (out.new.items ≡ out.old.items ++ flat_map behind_space (reply_words reply.now)) }
{
    match reply {
        Reply::Done => put_word(out, b"ok"),
        Reply::Values(values) => put_numbers(out, values.as_slice()),
        Reply::Old(value) => put_number(out, *value),
        Reply::Mapped => put_word(out, b"mapped"),
        Reply::NotMapped => put_word(out, b"notmapped"),
        Reply::Pinned => put_word(out, b"pinned"),
        Reply::PinLimit => put_word(out, b"pinlimit"),
        Reply::NotPinned => put_word(out, b"notpinned"),
        Reply::NoFrame { at } => {
            put_word(out, b"noframe")?;
            put_number(out, *at)
        }
    }
}

/// Adds the line of a call.
fn put_entry(out: &mut Vec<u8>, e: &Entry) -> Result<(), AllocError>
    ensures { OnOk result (out.new.items ≡ out.old.items ++ entry_text e.now) }
{
    out.extend_from_slice(b"call")?;
    put_numbers(out, &[e.ticket, e.caller as u64, e.call_no])?;
    put_call(out, e.page, &e.call)?;
    put_word(out, b"=")?;
    put_reply(out, &e.reply)?;
    Ok(out.push(b'\n')?)
}

/// Adds the line of the plugged blocks.
fn put_plugged(out: &mut Vec<u8>, blocks: &[BlockNo]) -> Result<(), AllocError>
    ensures { OnOk result (out.new.items ≡ out.old.items ++ plugged_text blocks.now) }
{
    out.extend_from_slice(b"plugged")?;
    for b in blocks {
        put_number(out, b.0 as u64)?;
    }
    Ok(out.push(b'\n')?)
}

/// Adds the number and the value of one cell.
fn put_cell(out: &mut Vec<u8>, cell: u64, value: u64) -> Result<(), AllocError>
    ensures { OnOk result (out.new.items ≡ out.old.items ++ behind_space (decimal cell ++ 58 ∷ decimal value)) }
{
    put_number(out, cell)?;
    out.push(b':')?;
    let mut buffer = Buffer::new();
    out.extend_from_slice(buffer.format(value).as_bytes())
}

/// Adds the cells other than 0, by their numbers.
fn put_cells(out: &mut Vec<u8>, cells: &[u64]) -> Result<(), AllocError>
    ensures { OnOk result (out.new.items ≡ out.old.items ++ flat_map behind_space (cell_words 0 cells.now)) }
{
    let mut cell = 0u64;
    for value in cells {
        if *value != 0 {
            put_cell(out, cell, *value)?;
        }
        cell += 1;
    }
    Ok(())
}

/// Adds the line of a mapped page.
fn put_page(out: &mut Vec<u8>, p: &FinalPage) -> Result<(), AllocError>
    ensures { OnOk result (out.new.items ≡ out.old.items ++ page_text p.now) }
{
    out.extend_from_slice(b"page")?;
    put_number(out, p.page.0 as u64)?;
    put_kind(out, p.kind)?;
    put_number(out, p.pins as u64)?;
    put_cells(out, p.cells.as_slice())?;
    Ok(out.push(b'\n')?)
}

fn put_entries(out: &mut Vec<u8>, entries: &EntryList) -> Result<(), AllocError>
    ensures { OnOk result (out.new.items ≡ out.old.items ++ flat_map entry_text entries.now) }
{
    for e in entries.iter() {
        put_entry(out, e)?;
    }
    Ok(())
}

fn put_pages(out: &mut Vec<u8>, pages: &[FinalPage]) -> Result<(), AllocError>
    ensures { OnOk result (out.new.items ≡ out.old.items ++ flat_map page_text pages.now) }
{
    for p in pages {
        put_page(out, p)?;
    }
    Ok(())
}

/// Adds the sections of a report.
fn put_report(out: &mut Vec<u8>, report: &Report) -> Result<(), AllocError>
    requires { HaveStates report.now }
    ensures { OnOk result (out.new.items ≡ out.old.items ++ sections_text report.now) }
{
    put_entries(out, &report.history)?;
    put_runs(out, report.host.as_slice())?;
    space_text::put_actions(out, report.space_journal.as_slice())?;
    device_text::put_actions(out, report.device_journal.as_slice())?;
    put_plugged(out, report.plugged.as_slice())?;
    put_pages(out, report.pages.as_slice())?;
    out.extend_from_slice(b"end\n")
}

/// The text of a report: a line for each call in ticket order, for each command of the host and behind it for each
/// block that it tried, for each action of the frame space, and for each action of the memory device and each of its
/// notices; the plugged blocks, a line for each page, and `end`. Each line ends with LF. The states of the responses
/// that the host's requests and the device's actions have are at most 2; tried blocks have the answers' names alone.
pub fn write_report(alloc: Global, report: &Report) -> Result<ByteList, OutOfMemory>
    requires { HaveStates report.now }
    ensures { IfOk result (λ text. text ≡ report_text report.now) }
{
    let mut out = Vec::new(alloc);
    put_report(&mut out, report)?;
    Ok(ByteList::from_vec(out))
}
