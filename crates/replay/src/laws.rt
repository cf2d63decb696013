//! Laws of the scheduled run. Each function has an empty body: its contract is the law.

ghost use Rattle.std.specs.Prelude.{◌≡◌, ◌<◌, ℕ, false, List, length};
ghost use Rattle.evac_model.specs.declared.scenario.Actor.{Actor};
ghost use Rattle.evac_model.specs.declared.scenario.Scenario.{Scenario};
ghost use Rattle.evac_model.specs.Scenarios.{IsRunnable};
ghost use Rattle.evac_model.specs.SpaceJournal.{is_frame_in};
ghost use Rattle.evac_words.specs.Word.{mapped_bit, frame_of};
ghost use Rattle.core_state.specs.Words.{entry_word_of};
ghost use Rattle.core_actors.specs.HostFound.{HasTakes};
ghost use Rattle.machine.specs.World.{World, unplugged_now};
ghost use Rattle.report.specs.declared.report.Report.{Report};
ghost use Rattle.replay.specs.Running.{Running, after_turn, after_turns};
ghost use Rattle.replay.specs.Schedule.{schedule, round_count, turn_bound};
ghost use Rattle.replay.specs.Keeping.{IsKept};
ghost use Rattle.replay.specs.Runs.{setting, running_at_start, HaveEnded, IsReportAfter};
ghost use Rattle.report.specs.ReportOf.{IsReportOf};

/// The world at the start is consistent, each owner's seat is at the start of its script, the frames are where the
/// space and the device have them, and the host is at the start of its commands.
pub fn starts_are_kept()
    ensures { (s : Scenario) → IsRunnable s → IsKept s (running_at_start s) }
{}

/// Each turn of each actor keeps the world consistent, each owner's seat as its script has it, the frames where
/// the journals of the space and of the device have them, each owner's leases and returns those of its calls, the driver's
/// seat as the place of its command has it, and what the driver and the device did what the lines of the commands say.
pub fn turns_are_kept()
    ensures { (s : Scenario) (m : Running) (actor : Actor) → IsRunnable s → IsKept s m → IsKept s (after_turn (setting s) m actor) }
{}

/// At every moment of a run, whatever turns were made, no mapped page lies in an unplugged block.
pub fn no_mapped_page_is_unplugged()
    ensures { (s : Scenario) (turns : List Actor) (page : ℕ) → IsRunnable s → page < s.geometry.pages
        → (let w : World = (after_turns (setting s) (running_at_start s) turns).world in
        mapped_bit (entry_word_of w.snapshot.words page) ≡ 1 → is_frame_in s.geometry (unplugged_now (setting s) w) (frame_of (entry_word_of w.snapshot.words page)) ≡ false) }
{}

/// At every moment of a run, whatever turns were made, the driver has made as many takes as it leased targets, less the one that is
/// still to be made. So the take for a target is numbered by the leases of targets before it (`by_truth`).
pub fn takes_go_with_leases()
    ensures { (s : Scenario) (turns : List Actor) → IsRunnable s
        → (let m : Running = after_turns (setting s) (running_at_start s) turns in
        HasTakes m.world m.host) }
{}

/// After the named and the drawn turns and so many rounds as the calls and the commands could have steps, and one
/// more, every actor has ended.
pub fn runs_end_within_their_bound()
    ensures { (s : Scenario) → IsRunnable s → HaveEnded (after_turns (setting s) (running_at_start s) (schedule s (round_count s))) }
{}

/// So many turns are those of the bound.
pub fn bounds_count_turns()
    ensures { (s : Scenario) → length (schedule s (round_count s)) ≡ turn_bound s }
{}

/// What a machine leaves whose actors have ended is a legal history of pages that never move, each script
/// call once, and the state after it; its space journal is that of the history and of the host's commands, each of these has
/// its line, and they did what these say to the frame space and to the device, each cause true of that journal and that history; the
/// frames out at the end are those of the mapped pages, and the plugged blocks what the device's journal leaves.
pub fn reports_tell_legal_histories()
    ensures { (s : Scenario) (m : Running) (r : Report) → IsRunnable s → IsKept s m → HaveEnded m → IsReportAfter s m r → IsReportOf s r }
{}
