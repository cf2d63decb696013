//! Laws of the actions of owners and hosts. Each function has an empty body: its contract is the law.

ghost use Rattle.std.specs.Prelude.{◌≡◌, ℕ, ◌+◌, ◌*◌, ◌<◌, ◌≤◌, ◌↔◌, List, [], ◌∷◌, ◌++◌, map, length, true, false, None, Some, IsSome};
ghost use Rattle.std.specs.List.{AllByRecursion, enumerate_from};
ghost use Rattle.evac_model.specs.declared.call.Call.{Call};
ghost use Rattle.evac_model.specs.declared.host.HostCommand.{HostCommand};
ghost use Rattle.evac_model.specs.declared.host.HostRun.{HostRun};
ghost use Rattle.evac_model.specs.declared.names.FrameNo.{FrameNo};
ghost use Rattle.evac_model.specs.declared.names.Kind.{Kind};
ghost use Rattle.evac_model.specs.declared.names.PageNo.{PageNo};
ghost use Rattle.evac_model.specs.declared.scenario.StartPage.{StartPage};
ghost use Rattle.evac_model.specs.DeviceAnswer.{device_at_start};
ghost use Rattle.evac_model.specs.Geometry.{Sizes, frame_count};
ghost use Rattle.evac_model.specs.Numbers.{IsRisingBelow};
ghost use Rattle.evac_model.specs.Pairing.{actions_of};
ghost use Rattle.evac_model.specs.Scripts.{numbered_call};
ghost use Rattle.core_state.specs.declared.hand.HandFrame.{HandFrame};
ghost use Rattle.core_state.specs.declared.keeper.Keeper.{Keeper};
ghost use Rattle.core_state.specs.declared.keeper.Keeper.TheVariants.{OneOwner};
ghost use Rattle.core_state.specs.declared.opening.Opening.{Opening};
ghost use Rattle.core_state.specs.declared.step.MoveStep.{MoveStep};
ghost use Rattle.core_state.specs.declared.step.Step.{Step};
ghost use Rattle.core_state.specs.declared.view.View.{View};
ghost use Rattle.core_state.specs.Views.{Has, IsSeated, view_of, hand_frame};
ghost use Rattle.core_state.specs.Pages.{Pages};
ghost use Rattle.core_state.specs.Sound.{Sound};
ghost use Rattle.core_state.specs.Opens.{IsNew};
ghost use Rattle.core_state.specs.Steps.{Allowed, view_after};
ghost use Rattle.core_state.specs.MoveSteps.{AllowedMove, view_after_move};
ghost use Rattle.core_state.specs.HandOvers.{IsAtRest, MayHandOver, hand_without, hand_with};
ghost use Rattle.machine.specs.declared.action.Action.{Action};
ghost use Rattle.machine.specs.declared.action.Heard.{Heard};
ghost use Rattle.machine.specs.declared.action.SpaceCall.{SpaceCall};
ghost use Rattle.host_work.specs.Commands.{AreDoneBy};
ghost use Rattle.machine.specs.Consistent.{IsSetting, IsConsistent};
ghost use Rattle.machine.specs.Made.{Made, made, heard_by};
ghost use Rattle.machine.specs.MayMake.{MayMake};
ghost use Rattle.machine.specs.Start.{MayStart, setting_at_start, world_at_start};
ghost use Rattle.machine.specs.World.{Setting, World, IsOwnerSeat, HasFrame, space_now, device_now};
ghost use Rattle.core_actors.specs.declared.action.LeaseSeen.{LeaseSeen};
ghost use Rattle.core_actors.specs.CallRuns.{made_hearing, after_hearing, before_release, calls_heard, script_actions};
ghost use Rattle.core_actors.specs.CallSteps.{IsCallOf, call_actions};
ghost use Rattle.core_actors.specs.Owners.{OwnerState, owner_at_start, owner_ended, next_action, owner_after};
ghost use Rattle.core_actors.specs.Actions.{ends_with_next, IsStorable, IsStorableAction};
ghost use Rattle.core_actors.specs.Counts.{actions_left, IsUnderWay, FindsTaken};
ghost use Rattle.core_actors.specs.Fits.{Fits};
ghost use Rattle.core_actors.specs.FramesOut.{IsOutForCall};
ghost use Rattle.core_actors.specs.Hosts.{HostState, host_at_start, host_ended, host_action};
ghost use Rattle.core_actors.specs.HostHears.{host_after, line_after};
ghost use Rattle.core_actors.specs.HostSpace.{IsShort};
ghost use Rattle.core_actors.specs.HostDid.{run_list};
ghost use Rattle.core_actors.specs.HostFound.{truth};
ghost use Rattle.core_actors.specs.HostKept.{HostKept};
ghost use Rattle.core_actors.specs.HostCounts.{command_most, host_actions_left};
ghost use Rattle.core_actors.specs.Places.{frame_owed};

/// From the start of a call an owner makes exactly the actions of the call's list, one after another, whatever it
/// hears; a take that finds its page taken is made again. Where the release comes next, what its lease gave, the
/// word that its take found and the values that its loads gave are those of the list.
pub fn owners_make_the_actions_of_their_calls()
    ensures { (owner : ℕ) (s : Sizes) (c : PageNo × Call) (cs : List (PageNo × Call)) (heards : List Heard) (lease : LeaseSeen) (found : ℕ) (loads : List ℕ) → IsCallOf s c → after_hearing (owner_at_start owner s.cells (c ∷ cs)) heards ≡ before_release owner s.cells (c ∷ cs) lease found loads → made_hearing (owner_at_start owner s.cells (c ∷ cs)) heards ++ next_action (before_release owner s.cells (c ∷ cs) lease found loads) ∷ [] ≡ call_actions s.cells c.0 c.1 lease found loads }
{}

/// An owner that goes on from its start until its script has ended makes exactly the actions of its calls, in order:
/// those of each call's list, by what that call heard, and behind them the return of the frame that it leaves, if any.
/// Each of its calls is ended once.
pub fn owners_make_the_actions_of_their_scripts()
    ensures actions { (owner : ℕ) (s : Sizes) (script : List (PageNo × Call)) (heards : List Heard) → AllByRecursion (λ c. IsCallOf s c) script → owner_ended (after_hearing (owner_at_start owner s.cells script) heards) ≡ true → made_hearing (owner_at_start owner s.cells script) heards ≡ script_actions s.cells script (calls_heard (owner_at_start owner s.cells script) heards) }
    ensures calls { (owner : ℕ) (s : Sizes) (script : List (PageNo × Call)) (heards : List Heard) → AllByRecursion (λ c. IsCallOf s c) script → owner_ended (after_hearing (owner_at_start owner s.cells script) heards) ≡ true → length (calls_heard (owner_at_start owner s.cells script) heards) ≡ length script }
{}

/// The next action of an owner that hasn't ended is allowed, where its seat's view fits its place in the
/// script, and each page is what its calls answer. Where it asks the frame space, its seat is at rest; a
/// frame that it gives back is in its hand. In a consistent world, where each frame in its hand is out for its
/// call, or to be given back, its seat may make that action.
pub fn owners_make_allowed_actions()
    ensures steps { (s : Sizes) (o : Opening) (words : List ℕ) (views : List View) (seat : ℕ) (v : View) (script : List (PageNo × Call)) (a : OwnerState) (step : Step) → Has views seat v → Pages o words views → Fits s o script v a → owner_ended a ≡ false → next_action a ≡ Action.Step step → IsStorable step → Allowed o v step }
    ensures moves { (s : Sizes) (o : Opening) (words : List ℕ) (views : List View) (seat : ℕ) (v : View) (script : List (PageNo × Call)) (a : OwnerState) (step : MoveStep) → Has views seat v → Pages o words views → Fits s o script v a → owner_ended a ≡ false → next_action a ≡ Action.Move step → AllowedMove OneOwner o v step }
    ensures leases { (s : Sizes) (o : Opening) (v : View) (script : List (PageNo × Call)) (a : OwnerState) (page : PageNo) (kind : Kind) → Fits s o script v a → owner_ended a ≡ false → next_action a ≡ Action.Space (SpaceCall.Lease page kind) → IsAtRest o v × (page.0 < s.pages) }
    ensures returns { (s : Sizes) (o : Opening) (v : View) (script : List (PageNo × Call)) (a : OwnerState) (frame : FrameNo) → Fits s o script v a → owner_ended a ≡ false → next_action a ≡ Action.Space (SpaceCall.Return frame) → IsAtRest o v × IsSome (hand_frame v frame.0) }
    ensures made { (c : Setting) (seat : ℕ) (w : World) (v : View) (script : List (PageNo × Call)) (a : OwnerState) → IsConsistent c w → IsOwnerSeat c seat → Has w.snapshot.views seat v → Fits c.sizes c.opening script v a → IsStorableAction (next_action a) → ((frame : ℕ) → HasFrame w seat frame → IsOutForCall (space_now c w) a.left (frame_owed a.place) frame) → owner_ended a ≡ false → MayMake c seat w (next_action a) }
{}

/// The view still fits after the owner's next action, whatever it gives: after a step that found a word, a
/// step on the mapping, a lease that handed a frame over or was refused, and a return.
pub fn owners_fit_after_their_actions()
    ensures steps { (k : Keeper) (s : Sizes) (o : Opening) (v : View) (script : List (PageNo × Call)) (a : OwnerState) (step : Step) (found : ℕ) → Fits s o script v a → owner_ended a ≡ false → next_action a ≡ Action.Step step → Fits s o script (view_after k v step found) (owner_after a (heard_by step found)) }
    ensures moves { (s : Sizes) (o : Opening) (words : List ℕ) (views : List View) (seat : ℕ) (v : View) (script : List (PageNo × Call)) (a : OwnerState) (step : MoveStep) → Has views seat v → Sound o words views → Fits s o script v a → owner_ended a ≡ false → next_action a ≡ Action.Move step → AllowedMove OneOwner o v step → Fits s o script (view_after_move OneOwner v step) (owner_after a Heard.Nothing) }
    ensures leased { (s : Sizes) (o : Opening) (v giver : View) (script : List (PageNo × Call)) (a : OwnerState) (page : PageNo) (kind : Kind) (frame : FrameNo) (x : HandFrame) → Fits s o script v a → owner_ended a ≡ false → next_action a ≡ Action.Space (SpaceCall.Lease page kind) → MayHandOver o giver v frame.0 1 → hand_frame giver frame.0 ≡ Some x → length x.stores ≡ o.cells → Fits s o script (record v { hand = hand_with v.hand giver.hand frame.0 1 }) (owner_after a (Heard.Leased frame)) }
    ensures refused { (s : Sizes) (o : Opening) (v : View) (script : List (PageNo × Call)) (a : OwnerState) (page : PageNo) (kind : Kind) (at : ℕ) → Fits s o script v a → owner_ended a ≡ false → next_action a ≡ Action.Space (SpaceCall.Lease page kind) → Fits s o script v (owner_after a (Heard.NoFrame at)) }
    ensures returned { (s : Sizes) (o : Opening) (v : View) (script : List (PageNo × Call)) (a : OwnerState) (frame : FrameNo) → Fits s o script v a → owner_ended a ≡ false → next_action a ≡ Action.Space (SpaceCall.Return frame) → Fits s o script (record v { hand = hand_without v.hand frame.0 1 }) (owner_after a Heard.Nothing) }
{}

/// A new view with a ticket for each call and an empty hand fits the owner at the start of its script.
pub fn owners_fit_at_the_opening()
    ensures { (s : Sizes) (o : Opening) (v : View) (script : List (PageNo × Call)) (owner : ℕ) → o.cells ≡ s.cells → o.pages ≡ s.pages → AllByRecursion (λ c. IsCallOf s c) script → IsSeated o v → IsNew o v → v.caller ≡ Some owner → v.left ≡ length script → ((frame : ℕ) → hand_frame v frame ≡ None) → Fits s o script v (owner_at_start owner s.cells script) }
{}

/// An owner is under way at the start, and after each of its actions, whatever that gives.
pub fn owners_stay_under_way()
    ensures start { (owner cells : ℕ) (script : List (PageNo × Call)) → IsUnderWay (owner_at_start owner cells script) }
    ensures action { (a : OwnerState) (heard : Heard) → IsUnderWay a → IsUnderWay (owner_after a heard) }
{}

/// An owner has at most so many actions left as its calls, times the cells of a page and 6. Each action
/// leaves fewer, but a take that finds its page taken, which changes nothing. None are left exactly where
/// the owner has ended, and just there it makes none.
pub fn owners_end_after_their_actions()
    ensures most { (s : Sizes) (owner : ℕ) (script : List (PageNo × Call)) → AllByRecursion (λ c. IsCallOf s c) script → actions_left (owner_at_start owner s.cells script) ≤ length script * (s.cells + 6) }
    ensures fewer { (s : Sizes) (a : OwnerState) (heard : Heard) → a.cells ≡ s.cells → AllByRecursion (λ c. IsCallOf s c) a.left → IsUnderWay a → owner_ended a ≡ false → ((found : ℕ) → heard ≡ Heard.Word found → ¬ FindsTaken (next_action a) found) → actions_left (owner_after a heard) < actions_left a }
    ensures again { (a : OwnerState) (found : ℕ) → FindsTaken (next_action a) found → owner_after a (Heard.Word found) ≡ a }
    ensures ended { (s : Sizes) (a : OwnerState) → a.cells ≡ s.cells → AllByRecursion (λ c. IsCallOf s c) a.left → IsUnderWay a → (actions_left a ≡ 0) ↔ (owner_ended a ≡ true) }
    ensures told { (a : OwnerState) → (next_action a ≡ Action.Ended) ↔ (owner_ended a ≡ true) }
{}

/// The view of an owner that has ended has an entry for each call of its script, in order and numbered
/// from 0, and no other. It has no ticket left, holds no page, has no frame unmarked and none in hand.
pub fn ended_owners_have_their_entries()
    ensures entries { (s : Sizes) (o : Opening) (v : View) (script : List (PageNo × Call)) (a : OwnerState) → Fits s o script v a → owner_ended a ≡ true → map numbered_call v.entries ≡ enumerate_from 0 script }
    ensures left { (s : Sizes) (o : Opening) (v : View) (script : List (PageNo × Call)) (a : OwnerState) → Fits s o script v a → owner_ended a ≡ true → v.left ≡ 0 }
    ensures held { (s : Sizes) (o : Opening) (v : View) (script : List (PageNo × Call)) (a : OwnerState) → Fits s o script v a → owner_ended a ≡ true → v.held ≡ None }
    ensures unmarked { (s : Sizes) (o : Opening) (v : View) (script : List (PageNo × Call)) (a : OwnerState) → Fits s o script v a → owner_ended a ≡ true → v.unmarked ≡ [] }
    ensures hand { (s : Sizes) (o : Opening) (v : View) (script : List (PageNo × Call)) (a : OwnerState) → Fits s o script v a → owner_ended a ≡ true → (frame : ℕ) → hand_frame v frame ≡ None }
{}

/// Whether an owner ends with its next action doesn't depend on what that gives: the last one of a script is a
/// release or a return. At the start it ends with the next one only where it has no calls, and so has ended.
pub fn ends_are_known_before_the_last_action()
    ensures start { (owner cells : ℕ) (script : List (PageNo × Call)) → ends_with_next (owner_at_start owner cells script) ≡ owner_ended (owner_at_start owner cells script) }
    ensures action { (a : OwnerState) (heard : Heard) → owner_ended (owner_after a heard) ≡ ends_with_next a }
{}

/// A host is as the start of its commands has it in a machine that may start so, where each request has at most 64 bytes.
pub fn hosts_are_kept_at_the_start()
    ensures { (s : Sizes) (online : Kind) (start : List StartPage) (budgets fails : List ℕ) (commands : List HostCommand) → MayStart s online start budgets → AllByRecursion IsShort commands → HostKept (setting_at_start s online start budgets fails) (world_at_start s start budgets) [] (host_at_start s (device_at_start s).plugged commands) }
{}

/// The driver's seat may make the next action of a host that hasn't ended.
pub fn hosts_make_allowed_actions()
    ensures { (c : Setting) (w : World) (runs : List HostRun) (h : HostState) → IsSetting c → IsConsistent c w → HostKept c w runs h → host_ended h ≡ false → MayMake c 0 w (host_action h) }
{}

/// Behind its next action, whatever that gives, a host has done what the lines of its ended commands say, and a part of the command
/// under way; its seat, the frame space and the device are as its place has them.
pub fn hosts_do_their_commands()
    ensures { (c : Setting) (w : World) (runs : List HostRun) (h : HostState) → IsSetting c → IsConsistent c w → HostKept c w runs h → host_ended h ≡ false
        → (let x : Made = made c 0 w (host_action h) in let plugged : List ℕ = (device_now c x.world).plugged in
        HostKept c x.world (runs ++ run_list h.left (line_after plugged h x.heard)) (host_after plugged h x.heard)) }
{}

/// Whatever an owner does, a host stays as it is.
pub fn owners_leave_hosts_alone()
    ensures { (c : Setting) (w : World) (runs : List HostRun) (h : HostState) (seat : ℕ) (action : Action) → IsSetting c → IsConsistent c w → IsOwnerSeat c seat → MayMake c seat w action → HostKept c w runs h → HostKept c (made c seat w action).world runs h }
{}

/// A host that has ended did all that the lines of its commands say, to the frame space and to the device, and the driver has no
/// frame in hand. The cause of a block that stayed is true of that frame space's whole journal, and of the words that the driver's
/// takes found.
pub fn ended_hosts_did_their_commands()
    ensures did { (c : Setting) (w : World) (runs : List HostRun) (h : HostState) → HostKept c w runs h → host_ended h ≡ true → AreDoneBy (truth c w) [] c.sizes (device_at_start c.sizes) runs (actions_of 0 w.space) w.device }
    ensures hands { (c : Setting) (w : World) (runs : List HostRun) (h : HostState) (frame : ℕ) → HostKept c w runs h → host_ended h ≡ true → ¬ HasFrame w 0 frame }
{}

/// A host makes at most so many actions as each of its commands needs where it empties all blocks, each in five rounds that find all
/// frames out. Each action leaves fewer. None are left exactly where the host has ended.
pub fn hosts_end_after_their_actions()
    ensures most { (s : Sizes) (plugged : List ℕ) (commands : List HostCommand) → IsRisingBelow s.managed plugged → host_actions_left (host_at_start s plugged commands) ≤ length commands * command_most s }
    ensures command { (s : Sizes) → command_most s ≤ frame_count s * (11 * s.cells + 36) + 9 * s.managed + 4 }
    ensures fewer { (c : Setting) (w : World) (runs : List HostRun) (h : HostState) → IsSetting c → IsConsistent c w → HostKept c w runs h → host_ended h ≡ false
        → (let x : Made = made c 0 w (host_action h) in host_actions_left (host_after (device_now c x.world).plugged h x.heard) < host_actions_left h) }
    ensures ended { (c : Setting) (w : World) (runs : List HostRun) (h : HostState) → HostKept c w runs h → (host_actions_left h ≡ 0) ↔ (host_ended h ≡ true) }
{}
