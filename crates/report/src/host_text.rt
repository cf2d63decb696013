//! The lines of the host's commands, and of the blocks that they tried.

ghost use Rattle.std.specs.Prelude.{◌≡◌, ◌++◌, OnOk};
ghost use Rattle.std.specs.List.{AllByRecursion, flat_map};
ghost use Rattle.hex.specs.Hex.{encode_lower};
ghost use Rattle.mem_codec.specs.ConfigBytes.{config_bytes};
ghost use Rattle.evac_model.specs.Spelling.{command_words};
ghost use Rattle.report.specs.ReportText.{behind_space, result_words, host_text, HasResultState};
ghost use Rattle.report.specs.Sections.{run_text};

use crate::tried_text::put_blocks;
use crate::words::{put_hex, put_number, put_response, put_word};
use evac_model::{Config, HostCommand, HostResult, HostRun};
use mem_codec::write_config;
use std::alloc::AllocError;

/// Adds a command as a scenario spells it.
fn put_command(out: &mut Vec<u8>, command: &HostCommand) -> Result<(), AllocError>
    ensures { OnOk result (out.new.items ≡ out.old.items ++ flat_map behind_space (command_words command.now)) }
{
    match command {
        HostCommand::Request { bytes } => {
            put_word(out, b"request")?;
            put_hex(out, bytes.as_slice())
        }
        HostCommand::Config => put_word(out, b"config"),
    }
}

/// Adds the bytes of a configuration in hexadecimal.
fn put_config(out: &mut Vec<u8>, config: &Config) -> Result<(), AllocError>
    ensures { OnOk result (out.new.items ≡ out.old.items ++ behind_space (encode_lower (config_bytes config.now))) }
{
    let mut bytes = [0; 56];
    write_config(config, &mut bytes);
    put_hex(out, &bytes)
}

/// Adds what a command gave.
fn put_result(out: &mut Vec<u8>, given: &HostResult) -> Result<(), AllocError>
    requires { HasResultState given.now }
    ensures { OnOk result (out.new.items ≡ out.old.items ++ flat_map behind_space (result_words given.now)) }
{
    match given {
        HostResult::Answered(response) => put_response(out, *response),
        HostResult::Unsent => put_word(out, b"unsent"),
        HostResult::Config(config) => put_config(out, config),
    }
}

/// Adds the line of a command.
fn put_line(out: &mut Vec<u8>, run: &HostRun) -> Result<(), AllocError>
    requires { HasResultState run.now.line.result }
    ensures { OnOk result (out.new.items ≡ out.old.items ++ host_text run.now.line.no run.now.command run.now.line.result) }
{
    out.extend_from_slice(b"host")?;
    put_number(out, run.line.no)?;
    put_command(out, &run.command)?;
    put_word(out, b"=")?;
    put_result(out, &run.line.result)?;
    Ok(out.push(b'\n')?)
}

/// Adds the line of a command, and those of the blocks that it tried.
fn put_run(out: &mut Vec<u8>, run: &HostRun) -> Result<(), AllocError>
    requires { HasResultState run.now.line.result }
    ensures { OnOk result (out.new.items ≡ out.old.items ++ run_text run.now) }
{
    put_line(out, run)?;
    put_blocks(out, run.line.tried.as_slice())
}

/// Adds a line for each command, and behind it one for each block that it tried.
pub fn put_runs(out: &mut Vec<u8>, runs: &[HostRun]) -> Result<(), AllocError>
    requires { AllByRecursion (λ x. HasResultState x.line.result) runs.now }
    ensures { OnOk result (out.new.items ≡ out.old.items ++ flat_map run_text runs.now) }
{
    for run in runs {
        put_run(out, run)?;
    }
    Ok(())
}
