//! The lines of the memory device's actions and of their notices.

ghost use Rattle.std.specs.Prelude.{◌≡◌, ◌∷◌, [], ◌++◌, codes, OnOk};
ghost use Rattle.std.specs.List.{AllByRecursion, flat_map};
ghost use Rattle.std.specs.Fmt.{decimal};
ghost use Rattle.report.specs.ReportText.{behind_space, act_words, act_text, key_word, told_words, notice_text, HasActState};
ghost use Rattle.report.specs.Sections.{device_text};

use crate::words::{put_hex, put_number, put_numbers, put_response, put_word};
use evac_model::{BlockNo, DeviceAct, DeviceAction, Notice, RequestBytes, Response, Told};
use std::alloc::AllocError;

/// Adds a word and a number.
fn put_named(out: &mut Vec<u8>, name: &[u8], n: u64) -> Result<(), AllocError>
    ensures { OnOk result (out.new.items ≡ out.old.items ++ flat_map behind_space (name.now ∷ decimal n ∷ [])) }
{
    put_word(out, name)?;
    put_number(out, n)
}

/// Adds the words of a request that was answered.
fn put_request(
    out: &mut Vec<u8>,
    bytes: &RequestBytes,
    response: Response,
) -> Result<(), AllocError>
    requires { HasActState (DeviceAct.Request bytes.now response) }
    ensures { OnOk result (out.new.items ≡ out.old.items ++ flat_map behind_space (act_words (DeviceAct.Request bytes.now response))) }
{
    put_word(out, b"request")?;
    put_hex(out, bytes.as_slice())?;
    put_response(out, response)
}

/// Adds the words of an action.
fn put_act(out: &mut Vec<u8>, act: &DeviceAct) -> Result<(), AllocError>
    requires { HasActState act.now }
    ensures { OnOk result (out.new.items ≡ out.old.items ++ flat_map behind_space (act_words act.now)) }
{
    match act {
        DeviceAct::Requested { size } => put_named(out, b"requested", *size),
        DeviceAct::Request { bytes, response } => put_request(out, bytes, *response),
        DeviceAct::Join { key } => put_named(out, b"join", *key as u64),
        DeviceAct::JoinRefused => {
            put_word(out, b"join")?;
            put_word(out, b"refused")
        }
        DeviceAct::Leave { key } => put_named(out, b"leave", *key as u64),
        DeviceAct::Begin => put_word(out, b"begin"),
        DeviceAct::Cancel => put_word(out, b"cancel"),
        DeviceAct::Finish => put_word(out, b"finish"),
    }
}

/// Adds a listener's key.
fn put_key(out: &mut Vec<u8>, key: Option<usize>) -> Result<(), AllocError>
    ensures { OnOk result (out.new.items ≡ out.old.items ++ behind_space (key_word key)) }
{
    match key {
        None => put_word(out, b"new"),
        Some(key) => put_number(out, key as u64),
    }
}

/// Adds that a listener was told to map a range of blocks, and how it took it.
fn put_populate(out: &mut Vec<u8>, first: BlockNo, n: u32, outcome: &[u8]) -> Result<(), AllocError>
    ensures { OnOk result (out.new.items ≡ out.old.items ++ flat_map behind_space (codes "populate" ∷ decimal first.0 ∷ decimal n ∷ outcome.now ∷ [])) }
{
    put_word(out, b"populate")?;
    put_numbers(out, &[first.0 as u64, n as u64])?;
    put_word(out, outcome)
}

/// Adds that a listener was told to unmap a range of blocks.
fn put_discard(out: &mut Vec<u8>, first: BlockNo, n: u32) -> Result<(), AllocError>
    ensures { OnOk result (out.new.items ≡ out.old.items ++ flat_map behind_space (codes "discard" ∷ decimal first.0 ∷ decimal n ∷ [])) }
{
    put_word(out, b"discard")?;
    put_numbers(out, &[first.0 as u64, n as u64])
}

/// Adds what a listener was told of a range of blocks.
fn put_told(out: &mut Vec<u8>, first: BlockNo, n: u32, told: Told) -> Result<(), AllocError>
    ensures { OnOk result (out.new.items ≡ out.old.items ++ flat_map behind_space (told_words (decimal first.0 ∷ decimal n ∷ []) told)) }
{
    match told {
        Told::PopulateOk => put_populate(out, first, n, b"ok"),
        Told::PopulateRefused => put_populate(out, first, n, b"refused"),
        Told::Discard => put_discard(out, first, n),
    }
}

/// Adds the line of a notice of the action with this number.
fn put_notice(out: &mut Vec<u8>, number: u64, notice: &Notice) -> Result<(), AllocError>
    ensures { OnOk result (out.new.items ≡ out.old.items ++ notice_text number notice.now) }
{
    out.extend_from_slice(b"notice")?;
    put_number(out, number)?;
    put_key(out, notice.key)?;
    put_told(out, notice.first, notice.n, notice.told)?;
    Ok(out.push(b'\n')?)
}

/// Adds a line for each notice of the action with this number.
fn put_notices(out: &mut Vec<u8>, number: u64, notices: &[Notice]) -> Result<(), AllocError>
    ensures { OnOk result (out.new.items ≡ out.old.items ++ flat_map (notice_text number) notices.now) }
{
    for notice in notices {
        put_notice(out, number, notice)?;
    }
    Ok(())
}

/// Adds the line of the action with this number, and those of its notices.
fn put_action(out: &mut Vec<u8>, number: u64, action: &DeviceAction) -> Result<(), AllocError>
    requires { HasActState action.now.act }
    ensures { OnOk result (out.new.items ≡ out.old.items ++ (act_text number action.now.act ++ flat_map (notice_text number) action.now.notices)) }
{
    out.extend_from_slice(b"device")?;
    put_number(out, number)?;
    put_act(out, &action.act)?;
    out.push(b'\n')?;
    put_notices(out, number, action.notices.as_slice())
}

/// Adds a line for each action, numbered from 0, and behind it one for each of its notices.
pub fn put_actions(out: &mut Vec<u8>, actions: &[DeviceAction]) -> Result<(), AllocError>
    requires { AllByRecursion (λ a. HasActState a.act) actions.now }
    ensures { OnOk result (out.new.items ≡ out.old.items ++ device_text 0 actions.now) }
{
    for (number, action) in actions.iter().enumerate() {
        put_action(out, number as u64, action)?;
    }
    Ok(())
}
