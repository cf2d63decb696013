//! Laws of the definitions. Each function has an empty body: its contract is the law.

ghost use Rattle.std.specs.Prelude.{◌≡◌, ◌≢◌, ◌++◌, ℕ, false, List, [], ◌∷◌, length, map, Option, Some};
ghost use Rattle.std.specs.List.{range_with_len, AllByRecursion};
ghost use Rattle.evac_model.specs.declared.device.Response.{Response};
ghost use Rattle.evac_model.specs.declared.device_journal.DeviceAct.{DeviceAct};
ghost use Rattle.evac_model.specs.declared.device_journal.DeviceAction.{DeviceAction};
ghost use Rattle.evac_model.specs.declared.entry.Entry.{Entry};
ghost use Rattle.evac_model.specs.declared.evacuation.EvacCause.{EvacCause};
ghost use Rattle.evac_model.specs.declared.host.HostCommand.{HostCommand};
ghost use Rattle.evac_model.specs.declared.host.HostResult.{HostResult};
ghost use Rattle.evac_model.specs.declared.host.HostRun.{HostRun};
ghost use Rattle.evac_model.specs.declared.names.BlockNo.{BlockNo};
ghost use Rattle.evac_model.specs.declared.names.FrameNo.{FrameNo};
ghost use Rattle.evac_model.specs.declared.names.PageNo.{PageNo};
ghost use Rattle.evac_model.specs.declared.space.SpaceAction.{SpaceAction};
ghost use Rattle.evac_model.specs.Counts.{Calls};
ghost use Rattle.evac_model.specs.DeviceAnswer.{DeviceState, request_in};
ghost use Rattle.evac_model.specs.DeviceJournal.{AreAnswered};
ghost use Rattle.evac_model.specs.Geometry.{Sizes};
ghost use Rattle.evac_model.specs.HostCommands.{unplugs, plugged_by, host_runs};
ghost use Rattle.evac_model.specs.State.{PlainState};
ghost use Rattle.evac_model.specs.declared.tried.Tried.{Tried};
ghost use Rattle.host_work.specs.Commands.{IsDoneBy, AreDoneBy};
ghost use Rattle.host_work.specs.Evacuated.{WasEvacuated, by_tale};
ghost use Rattle.host_work.specs.Examples.{CommandsOfSmall};
ghost use Rattle.host_work.specs.FoundWords.{AreWordsOf};
ghost use Rattle.host_work.specs.PlainCommands.{IsPlain, onlines_of, host_actions, host_lines, host_onlines};
ghost use Rattle.host_work.specs.Truth.{SpaceRun, targets_in, tried_in, by_truth};
ghost use Rattle.host_work.specs.TruthExamples.{EvacuationsOfSmall};

/// A request that unplugs nothing is one answer of the device, and then the blocks that it plugged are put online: no
/// evacuation is made.
pub fn requests_that_unplug_nothing_are_one_answer()
    ensures actions { (before : List SpaceAction) (s : Sizes) (d : DeviceState) (bytes : List ℕ) (response : Response) (lines : List Tried) (actions : List SpaceAction) (device : List DeviceAction) → unplugs (request_in bytes) ≡ false → IsDoneBy (by_tale s) before s d (HostCommand.Request bytes) (HostResult.Answered response) lines actions device → actions ≡ onlines_of (plugged_by s (request_in bytes) response) }
    ensures sent { (before : List SpaceAction) (s : Sizes) (d : DeviceState) (bytes : List ℕ) (response : Response) (lines : List Tried) (actions : List SpaceAction) (device : List DeviceAction) → unplugs (request_in bytes) ≡ false → IsDoneBy (by_tale s) before s d (HostCommand.Request bytes) (HostResult.Answered response) lines actions device → map (λ a. a.act) device ≡ DeviceAct.Request bytes response ∷ [] }
    ensures lines { (before : List SpaceAction) (s : Sizes) (d : DeviceState) (bytes : List ℕ) (response : Response) (lines : List Tried) (actions : List SpaceAction) (device : List DeviceAction) → unplugs (request_in bytes) ≡ false → IsDoneBy (by_tale s) before s d (HostCommand.Request bytes) (HostResult.Answered response) lines actions device → lines ≡ [] }
    ensures done { (before : List SpaceAction) (s : Sizes) (d : DeviceState) (bytes : List ℕ) (response : Response) (device : List DeviceAction) → unplugs (request_in bytes) ≡ false → map (λ a. a.act) device ≡ DeviceAct.Request bytes response ∷ [] → IsDoneBy (by_tale s) before s d (HostCommand.Request bytes) (HostResult.Answered response) [] (onlines_of (plugged_by s (request_in bytes) response)) device }
    ensures always_sent { (before : List SpaceAction) (s : Sizes) (d : DeviceState) (bytes : List ℕ) (lines : List Tried) (actions : List SpaceAction) (device : List DeviceAction) → unplugs (request_in bytes) ≡ false → ¬ IsDoneBy (by_tale s) before s d (HostCommand.Request bytes) HostResult.Unsent lines actions device }
{}

/// Commands that unplug nothing did, one after another, what the functions of the commands and the device alone say.
pub fn commands_that_unplug_nothing_do_as_told()
    ensures { (before : List SpaceAction) (s : Sizes) (d : DeviceState) (number : ℕ) (commands : List HostCommand) → AllByRecursion IsPlain commands → AreDoneBy (by_tale s) before s d (host_runs commands (host_lines s d number commands)) (host_onlines s d commands) (host_actions s d commands) }
{}

/// They did nothing else: where such commands, numbered from a number on, did this, each response is the device's answer by the
/// actions before it, and no listener was told of any, then what is reported of them, what the driver did to the frame space and what
/// the device did are what these functions say.
pub fn plain_commands_did_as_told()
    ensures runs { (before : List SpaceAction) (s : Sizes) (d : DeviceState) (calls : Calls) (number : ℕ) (commands : List HostCommand) (runs : List HostRun) (actions : List SpaceAction) (device : List DeviceAction) → AllByRecursion IsPlain commands → AreDoneBy (by_tale s) before s d runs actions device → AreAnswered s d calls device → AllByRecursion (λ a. a.notices ≡ []) device → map (λ x. x.command) runs ≡ commands → map (λ x. x.line.no) runs ≡ range_with_len number (length commands) → runs ≡ host_runs commands (host_lines s d number commands) }
    ensures actions { (before : List SpaceAction) (s : Sizes) (d : DeviceState) (calls : Calls) (number : ℕ) (commands : List HostCommand) (runs : List HostRun) (actions : List SpaceAction) (device : List DeviceAction) → AllByRecursion IsPlain commands → AreDoneBy (by_tale s) before s d runs actions device → AreAnswered s d calls device → AllByRecursion (λ a. a.notices ≡ []) device → map (λ x. x.command) runs ≡ commands → map (λ x. x.line.no) runs ≡ range_with_len number (length commands) → actions ≡ host_onlines s d commands }
    ensures device { (before : List SpaceAction) (s : Sizes) (d : DeviceState) (calls : Calls) (number : ℕ) (commands : List HostCommand) (runs : List HostRun) (actions : List SpaceAction) (device : List DeviceAction) → AllByRecursion IsPlain commands → AreDoneBy (by_tale s) before s d runs actions device → AreAnswered s d calls device → AllByRecursion (λ a. a.notices ≡ []) device → map (λ x. x.command) runs ≡ commands → map (λ x. x.line.no) runs ≡ range_with_len number (length commands) → device ≡ host_actions s d commands }
{}

/// An evacuation that fails undoes its isolation last, but for one whose isolation was refused, which does nothing.
pub fn failed_evacuations_are_undone()
    ensures undone { (s : Sizes) (b : BlockNo) (cause : EvacCause) (actions : List SpaceAction) → ((frame : FrameNo) (page : PageNo) → cause ≢ EvacCause.Unmovable frame page) → WasEvacuated s b (Some cause) actions → (before : List SpaceAction) × (actions ≡ before ++ SpaceAction.Undo b ∷ []) }
    ensures refused { (s : Sizes) (b : BlockNo) (frame : FrameNo) (page : PageNo) (actions : List SpaceAction) → WasEvacuated s b (Some (EvacCause.Unmovable frame page)) actions → actions ≡ [] }
{}

/// An evacuation that is true leased as many targets as its tale has attempts: since each attempt was made at a lease of its own,
/// it leased none for anything else.
pub fn evacuations_lease_a_target_for_each_attempt()
    ensures { (r : SpaceRun) (s : Sizes) (start : PlainState) (entries : List Entry) (before : List SpaceAction) (b : BlockNo) (cause : Option EvacCause) (own : List SpaceAction) (h : by_truth r (AreWordsOf s start entries) before b cause own) → targets_in own ≡ tried_in (h.told.tale.attempts ∷ h.told.tale.rounds) }
{}

/// Commands of a small machine, worked out by hand: what is reported of each, and what was done.
pub fn commands_of_a_small_machine()
    ensures { CommandsOfSmall }
{}

/// What commands did whose evacuations are true they did by tales of what they were told.
pub fn what_is_done_by_truth_is_done_by_tale()
    ensures { (r : SpaceRun) (s : Sizes) (start : PlainState) (entries : List Entry) (before : List SpaceAction) (d : DeviceState) (runs : List HostRun) (actions : List SpaceAction) (device : List DeviceAction) → AreDoneBy (by_truth r (AreWordsOf s start entries)) before s d runs actions device → AreDoneBy (by_tale r.sizes) before s d runs actions device }
{}

/// An evacuation that is true of a frame space's journal is true of each longer one.
pub fn true_evacuations_stay_true()
    ensures { (r : SpaceRun) (more : List SpaceAction) (s : Sizes) (start : PlainState) (entries : List Entry) (before : List SpaceAction) (b : BlockNo) (cause : Option EvacCause) (own : List SpaceAction) → by_truth r (AreWordsOf s start entries) before b cause own → by_truth (record r { journal = r.journal ++ more }) (AreWordsOf s start entries) before b cause own }
{}

/// Evacuations of a small machine, worked out by hand: attempts and causes that are true, and some that aren't.
pub fn evacuations_of_a_small_machine()
    ensures { EvacuationsOfSmall }
{}
