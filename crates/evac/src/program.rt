//! What the program does with its arguments.

ghost use Rattle.std.specs.Prelude.{◌≡◌, ◌≢◌, ◌≤◌, ◌⊎◌, ◌↔◌, ◌∷◌, [], drop, map, Contains, IfOk, IfErr, IfSome, IsSome, Err};
ghost use Rattle.std.specs.String.{string_bytes};
ghost use Rattle.std.specs.Vec.Iter.{into_iter_items};
ghost use Rattle.std.specs.IoError.{error_kind};
ghost use Rattle.std.specs.declared.io.ErrorKind.TheVariants.{InvalidData};
ghost use Rattle.evac_io.specs.Told.{Takes, IsAtEnd};
ghost use Rattle.evac_model.specs.Counts.{Rose};
ghost use Rattle.evac_model.specs.declared.scenario.Scenario.{Scenario};
ghost use Rattle.evac_model.specs.Scenarios.{IsRunnable};
ghost use Rattle.evac.specs.Commands.{IsCommandLine};
ghost use Rattle.evac.specs.Input.{IsAccepted, IsRefusedInput};
ghost use Rattle.evac.specs.Stops.{usage_line, read_fault_line, memory_line, TakesLine, IsCut, TellsRefusal};
ghost use Rattle.evac.specs.declared.program.NoWords.TheVariants.{NotText, OutOfMemory};
ghost use Rattle.replay.specs.Runs.{IsReportOfRun};
ghost use Rattle.report.specs.ReportOf.{IsReportOf};
ghost use Rattle.report.specs.ReportText.{report_text};

use crate::commands::{finish_with_line, replay_main};
use crate::finish::Finish;
use evac_io::{Sink, Source};
use std::alloc::{AllocError, Global};
use std::env::Args;
use std::io;

/// Why a program has no words.
#[derive(Clone, Copy, Debug, PartialEq, Eq)]
enum NoWords {
    /// An argument isn't text.
    NotText,
    /// There was not enough memory for the arguments.
    OutOfMemory,
}

impl From<AllocError> for NoWords {
    ghost use Rattle.evac.specs.declared.program.NoWords.TheVariants.{OutOfMemory};

    ghost from_gives = { λ _ fault. fault ≡ OutOfMemory };

    fn from(_e: AllocError) -> NoWords {
        NoWords::OutOfMemory
    }
}

/// The texts of arguments that are text.
fn collected(alloc: Global, arguments: Args) -> Result<Vec<String>, AllocError>
    ensures { IfOk result (λ texts. texts.items ≡ into_iter_items arguments) }
{
    let mut texts = Vec::new(alloc);
    for text in arguments {
        texts.push(text)?;
    }
    Ok(texts)
}

/// The arguments as texts.
fn texts(alloc: Global, arguments: io::Result<Args>) -> Result<Vec<String>, NoWords>
    ensures texts { IfOk result (λ texts. IfOk arguments (λ args. texts.items ≡ into_iter_items args)) }
    ensures text { IfOk arguments (λ _. result ≢ Err NotText) }
    ensures not_text { IfErr arguments (λ e. error_kind e ≡ InvalidData → result ≡ Err NotText) }
    ensures memory { IfErr arguments (λ e. error_kind e ≢ InvalidData → result ≡ Err OutOfMemory) }
{
    match arguments {
        Ok(args) => Ok(collected(alloc, args)?),
        Err(error) => Err(if error.kind() == io::ErrorKind::InvalidData {
            NoWords::NotText
        } else {
            NoWords::OutOfMemory
        }),
    }
}

/// These texts as words.
fn as_words<'a>(alloc: Global, texts: &'a [String]) -> Result<Vec<&'a str>, AllocError>
    ensures { IfOk result (λ words. map (λ w. w.now) words.items ≡ map (λ t. string_bytes t) texts.now) }
{
    let mut words = Vec::with_capacity(alloc, texts.len())?;
    for text in texts {
        words.push(text.as_str())?;
    }
    Ok(words)
}

/// The arguments behind the first, which is the program's name, as words.
fn words<'a>(alloc: Global, arguments: &'a [String]) -> Result<Vec<&'a str>, AllocError>
    ensures { IfOk result (λ words. map (λ w. w.now) words.items ≡ map (λ t. string_bytes t) (drop 1 arguments.now)) }
{
    match arguments {
        [_, rest @ ..] => as_words(alloc, rest),
        [] => Ok(Vec::new(alloc)),
    }
}

/// Runs the command of a program's arguments, of which the first is the program's name. Arguments that aren't
/// text are words of no command. The finish is that of `replay_main` for the words behind the name; where there
/// is no memory for them, it has status 6, nothing was read, and the line says so.
pub fn program_main<S: Source, K: Sink>(
    alloc: Global,
    arguments: io::Result<Args>,
    source: &mut S,
    sink: &mut K,
) -> Finish
    ensures theorem { IfSome result.report (λ report. (s : Scenario) × IsRunnable s × IsReportOf s report × IsReportOfRun s report
        × IfSome (S.left source.old) (λ bytes. IsAccepted bytes s)) }
    ensures reported { IsSome result.report ↔ ((result.status ≡ 0) ⊎ (result.status ≡ 5)) }
    ensures read_whole { IsSome result.report → IsAtEnd (S.left source.new) }
    ensures written { result.status ≡ 0 → IfSome result.report (λ report.
        Takes (K.taken sink.old) (K.taken sink.new) (report_text report)) }
    ensures write_fault { result.status ≡ 5 → IfSome result.report (λ report.
        IsCut (K.taken sink.old) (K.taken sink.new) (K.faults sink.old) (K.faults sink.new) (report_text report)) }

    // Status 2 comes exactly for arguments that are no command, unless there is no memory for them.
    ensures command { IfOk arguments (λ texts. IsCommandLine (map (λ t. string_bytes t) (into_iter_items texts)) → result.status ≢ 2) }
    ensures no_command { IfOk arguments (λ texts. (¬ IsCommandLine (map (λ t. string_bytes t) (into_iter_items texts))) →
        (result.status ≡ 2) ⊎ (result.status ≡ 6)) }
    ensures no_text { IfErr arguments (λ e. error_kind e ≡ InvalidData → result.status ≡ 2) }
    ensures no_arguments { IfErr arguments (λ e. error_kind e ≢ InvalidData →
        (result.status ≡ 6) × (S.left source.new ≡ S.left source.old) × (S.faults source.new ≡ S.faults source.old)) }
    ensures unread { result.status ≡ 2 → (S.left source.new ≡ S.left source.old) × (S.faults source.new ≡ S.faults source.old) }
    ensures usage_line { result.status ≡ 2 → TakesLine (K.taken sink.old) (K.taken sink.new) (K.faults sink.old) (K.faults sink.new) usage_line }

    // A read failed, or the input is refused.
    ensures read_fault { result.status ≡ 4 → Rose (S.faults source.old) (S.faults source.new)
        × TakesLine (K.taken sink.old) (K.taken sink.new) (K.faults sink.old) (K.faults sink.new) read_fault_line }
    ensures refused { result.status ≡ 3 → TellsRefusal (S.left source.old) (K.taken sink.old) (K.taken sink.new) (K.faults sink.old) (K.faults sink.new) }
    ensures exactly_refused { IfOk arguments (λ texts. IsCommandLine (map (λ t. string_bytes t) (into_iter_items texts)) → result.status ≢ 4 → result.status ≢ 6 →
        IfSome (S.left source.old) (λ bytes. (result.status ≡ 3) ↔ IsRefusedInput bytes)) }
    ensures accepted { IfSome (S.left source.old) (λ bytes. (s : Scenario) → IsAccepted bytes s → result.status ≢ 3) }

    // There was not enough memory.
    ensures memory { result.status ≡ 6 → TakesLine (K.taken sink.old) (K.taken sink.new) (K.faults sink.old) (K.faults sink.new) memory_line }
    ensures statuses { Contains (0 ∷ 2 ∷ 3 ∷ 4 ∷ 5 ∷ 6 ∷ []) result.status }
    ensures counts { (S.faults source.old ≤ S.faults source.new) × (K.faults sink.old ≤ K.faults sink.new) }
{
    let texts = match texts(alloc, arguments) {
        Ok(texts) => texts,
        Err(NoWords::NotText) => return replay_main(alloc, &[], source, sink),
        Err(NoWords::OutOfMemory) => return finish_with_line(sink, 6, b"memory\n"),
    };
    match words(alloc, texts.as_slice()) {
        Ok(words) => replay_main(alloc, words.as_slice(), source, sink),
        Err(_) => finish_with_line(sink, 6, b"memory\n"),
    }
}
