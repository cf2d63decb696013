//! The top call.

ghost use Rattle.std.specs.Prelude.{◌≡◌, ◌≢◌, ◌≤◌, ◌↔◌, ◌⊎◌, ℕ, List, [], ◌∷◌, Some, None, IsSome, IfSome, IfOk, IfErr, IsErr, OnOk, IsTrue, Contains};
ghost use Rattle.evac_model.specs.Counts.{Rose};
ghost use Rattle.evac_io.specs.Told.{Takes, IsAtEnd};
ghost use Rattle.evac_model.specs.declared.scenario.Scenario.{Scenario};
ghost use Rattle.evac_model.specs.Scenarios.{IsRunnable};
ghost use Rattle.evac.specs.Commands.{IsCommand};
ghost use Rattle.evac.specs.Input.{IsAccepted, IsRefusedInput};
ghost use Rattle.replay.specs.Runs.{IsReportOfRun};
ghost use Rattle.report.specs.ReportOf.{IsReportOf};
ghost use Rattle.report.specs.ReportText.{report_text};
ghost use Rattle.evac.specs.Stops.{usage_line, read_fault_line, memory_line, status_of, Stops, TakesLine, IsCut, EndsBy, TellsRefusal};

use crate::finish::Finish;
use crate::input::read_input;
use crate::stop::Stop;
use evac_io::{Sink, Source, write_all};
use evac_model::ByteList;
use replay::Replay;
use report::{Report, write_report};
use std::alloc::Global;

/// Whether the words are a command: exactly `replay`.
fn is_command(words: &[&str]) -> bool
    ensures { IsTrue result ↔ IsCommand words.now }
{
    match words {
        [word] => *word == "replay",
        _ => false,
    }
}

/// The report of the scenario that the source gives, and its text.
fn report_and_text<S: Source>(alloc: Global, source: &mut S) -> Result<(Report, ByteList), Stop>
    ensures theorem { IfOk result (λ x. (s : Scenario) × IsRunnable s × IsReportOf s x.0 × IsReportOfRun s x.0 × IfSome (S.left source.old) (λ bytes. IsAccepted bytes s)) }
    ensures end { OnOk result (IsAtEnd (S.left source.new)) }
    ensures text { IfOk result (λ x. x.1 ≡ report_text x.0) }
    ensures stops { IfErr result (λ stop. Stops (S.left source.old) (S.faults source.old) (S.faults source.new) stop) }
    ensures accepted { IfSome (S.left source.old) (λ bytes. (s : Scenario) → IsAccepted bytes s → IfErr result (λ stop. status_of stop ≢ 3)) }
    ensures refused { IfSome (S.left source.old) (λ bytes. IsRefusedInput bytes → IsErr result) }
    ensures counts { S.faults source.old ≤ S.faults source.new }
{
    let s = read_input(alloc, source)?;
    let report = Replay::from_scenario(alloc, s)?.run(alloc)?;
    let text = write_report(alloc, &report)?;
    Ok((report, text))
}

/// Writes the text of a report.
fn finish_with_report<K: Sink>(sink: &mut K, report: Report, text: &[u8]) -> Finish
    ensures report { result.report ≡ Some report }
    ensures status { (result.status ≡ 0) ⊎ (result.status ≡ 5) }
    ensures whole { result.status ≡ 0 → Takes (K.taken sink.old) (K.taken sink.new) text.now }
    ensures cut { result.status ≡ 5 → IsCut (K.taken sink.old) (K.taken sink.new) (K.faults sink.old) (K.faults sink.new) text.now }
    ensures counts { K.faults sink.old ≤ K.faults sink.new }
{
    let status = match write_all(sink, text) {
        Ok(()) => 0,
        Err(_) => 5,
    };
    Finish {
        status,
        report: Some(report),
    }
}

/// Writes a line, and gives a finish without a report.
pub(crate) fn finish_with_line<K: Sink>(sink: &mut K, status: u8, line: &[u8]) -> Finish
    ensures status { result.status ≡ status }
    ensures report { result.report ≡ None }
    ensures line { TakesLine (K.taken sink.old) (K.taken sink.new) (K.faults sink.old) (K.faults sink.new) line.now }
    ensures counts { K.faults sink.old ≤ K.faults sink.new }
{
    let _ = write_all(sink, line);
    Finish {
        status,
        report: None,
    }
}

/// Writes the line of a stop, or that there is no memory for it.
fn finish_with_stop<K: Sink>(alloc: Global, sink: &mut K, stop: Stop) -> Finish
    ensures report { result.report ≡ None }
    ensures line { EndsBy result.status (K.taken sink.old) (K.taken sink.new) (K.faults sink.old) (K.faults sink.new) stop
        ⊎ EndsBy result.status (K.taken sink.old) (K.taken sink.new) (K.faults sink.old) (K.faults sink.new) Stop.OutOfMemory }
    ensures counts { K.faults sink.old ≤ K.faults sink.new }
{
    match stop.line(alloc) {
        Ok(line) => finish_with_line(sink, stop.status(), line.as_slice()),
        Err(_) => finish_with_line(sink, Stop::OutOfMemory.status(), b"memory\n"),
    }
}

/// The line for words that are no command.
const USAGE: &[u8] = b"usage: evac replay|run [--quiet|--image], check, show, gen N\n";

/// Runs a command of this program: `replay` reads a scenario from the source, replays it, and
/// writes its report's text to the sink.
///
/// The statuses are those of `Finish`. With status 0 the sink took the text, with status 5 a prefix
/// of it; else it took one line that says what happened, or a prefix of it where a write failed.
pub fn replay_main<S: Source, K: Sink>(
    alloc: Global,
    words: &[&str],
    source: &mut S,
    sink: &mut K,
) -> Finish
    // The report is one of a scenario that the source's bytes are a text of, and that of its scheduled
    // run. The calls reported are one legal history of pages that never move, each script call once, in
    // its caller's order, and the pages reported are the state after it. The frame space's journal goes
    // with that history, the frames out at the end are those of the mapped pages, and none of them, so
    // no mapped page, lies in a block that isn't plugged. The host's commands did what their lines say:
    // a request that unplugs empties its blocks first, and isn't sent where one can't be emptied, for a
    // cause that is true of the frame space's journal and of the history. Each response is the device's
    // answer by the actions before it, where the listed calls of its backing fail, and the plugged
    // blocks are what its journal leaves.
    ensures theorem { IfSome result.report (λ report. (s : Scenario) × IsRunnable s × IsReportOf s report × IsReportOfRun s report
        × IfSome (S.left source.old) (λ bytes. IsAccepted bytes s)) }
    ensures reported { IsSome result.report ↔ ((result.status ≡ 0) ⊎ (result.status ≡ 5)) }
    ensures read_whole { IsSome result.report → IsAtEnd (S.left source.new) }

    // The sink took the whole text, or a prefix of it where a write failed.
    ensures written { result.status ≡ 0 → IfSome result.report (λ report.
        Takes (K.taken sink.old) (K.taken sink.new) (report_text report)) }
    ensures write_fault { result.status ≡ 5 → IfSome result.report (λ report.
        IsCut (K.taken sink.old) (K.taken sink.new) (K.faults sink.old) (K.faults sink.new) (report_text report)) }

    // The words are no command.
    ensures usage { (result.status ≡ 2) ↔ (¬ IsCommand words.now) }
    ensures usage_line { result.status ≡ 2 → TakesLine (K.taken sink.old) (K.taken sink.new) (K.faults sink.old) (K.faults sink.new) usage_line }

    ensures unread { (¬ IsCommand words.now) → (S.left source.new ≡ S.left source.old) × (S.faults source.new ≡ S.faults source.old) }

    // A read failed.
    ensures read_fault { result.status ≡ 4 → Rose (S.faults source.old) (S.faults source.new)
        × TakesLine (K.taken sink.old) (K.taken sink.new) (K.faults sink.old) (K.faults sink.new) read_fault_line }

    // The input is too long, or is no scenario: the first line that isn't accepted, and its cause.
    ensures refused { result.status ≡ 3 → TellsRefusal (S.left source.old) (K.taken sink.old) (K.taken sink.new) (K.faults sink.old) (K.faults sink.new) }
    ensures exactly_refused { IsCommand words.now → result.status ≢ 4 → result.status ≢ 6 →
        IfSome (S.left source.old) (λ bytes. (result.status ≡ 3) ↔ IsRefusedInput bytes) }
    ensures accepted { IfSome (S.left source.old) (λ bytes. (s : Scenario) → IsAccepted bytes s → result.status ≢ 3) }

    // There was not enough memory.
    ensures memory { result.status ≡ 6 → TakesLine (K.taken sink.old) (K.taken sink.new) (K.faults sink.old) (K.faults sink.new) memory_line }
    ensures statuses { Contains (0 ∷ 2 ∷ 3 ∷ 4 ∷ 5 ∷ 6 ∷ []) result.status }

    // No count of faults falls.
    ensures counts { (S.faults source.old ≤ S.faults source.new) × (K.faults sink.old ≤ K.faults sink.new) }
{
    if !is_command(words) {
        return finish_with_line(sink, 2, USAGE);
    }
    match report_and_text(alloc, source) {
        Ok((report, text)) => finish_with_report(sink, report, text.as_slice()),
        Err(stop) => finish_with_stop(alloc, sink, stop),
    }
}
