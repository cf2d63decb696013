//! The host: the actions of its commands, one after another.

use crate::action::Others;
use crate::heard::{came_of, cell_behind, result_in, seen_in, stays, word_in};
use crate::host_action::{device_call, evac_action, move_action};
use crate::host_blocks::{put_blocks, put_range};
use crate::host_place::{HostPlace, MovePlace};
use block_map::BlockMap;
use core_state::Step;
use evac_model::{
    BlockNo, CommandList, FrameNo, Geometry, HostCommand, HostLine, HostResult, MoveLease,
    OutOfMemory, Response, Tried, TriedList, TriedResult,
};
use evac_words::is_taken;
use evacuate::{EvacAction, EvacSeen, Evacuation};
use machine::{Action, BlockCall, Heard};
use mem_device::plugged_by;
use std::alloc::Global;
use std::marker::Model;
use std::mem;

/// The host and its commands, with the driver of the guest, after Linux's virtio_mem driver. A command that unplugs
/// blocks first empties each of them, from the highest down, takes it away and zeroes it; where one can't be emptied, the
/// request isn't sent. Behind the device's answer, blocks that were plugged or stay plugged are put online, from the lowest
/// up. `docs/ACTORS.md` has the steps. Contracts see how it stands by what it has heard: before the action that it gives,
/// until it hears what that one gave.
#[derive(Drop)]
pub struct Host {
    alloc: Global,
    geometry: Geometry,
    commands: CommandList,
    at: usize,
    place: HostPlace,
    evacuation: Evacuation,
    blocks: Vec<u32>,
    waiting: usize,
    tried: Vec<Tried>,
    line: Option<HostLine>,
}

impl Model for Host {
    ghost use Rattle.core_actors.specs.HostInside.{HostView, host_view, IsHostInside};

    ghost Value = { HostView };

    ghost view = { host_view };

    ghost invariant = { IsHostInside };
}

impl Host {
    ghost use Rattle.std.specs.Prelude.{◌≡◌, ◌<◌, ◌++◌, ◌∷◌, [], List, true, false, None, IfOk, OnOk, OnErr};
    ghost use Rattle.evac_model.specs.declared.host.HostCommand.{HostCommand};
    ghost use Rattle.evac_model.specs.Geometry.{frame_count};
    ghost use Rattle.core_actors.specs.declared.host_place.HostPlace.{HostPlace};
    ghost use Rattle.core_actors.specs.HostInside.{IsMoveInside};
    ghost use Rattle.core_actors.specs.Hosts.{host_at_start, host_ended, host_action, next_block, command_begun};
    ghost use Rattle.core_actors.specs.HostHears.{answered, with_result, command_ended, told, moves_on, moved, found, taken_on, marked_on, zeroed_on, host_after, line_after, host_told};

    /// The host of a machine, at the start of its commands, where these blocks are plugged. It takes the memory of a list
    /// of all managed blocks; it fails where there is none.
    pub fn new(
        alloc: Global,
        g: Geometry,
        commands: CommandList,
        plugged: &BlockMap,
    ) -> Result<Host, OutOfMemory>
        requires { plugged.now.sizes ≡ g }
        ensures state { IfOk result (λ h. h.state ≡ host_at_start g plugged.now.plugged commands) }
        ensures sizes { IfOk result (λ h. h.state.sizes ≡ g) }
        ensures line { IfOk result (λ h. h.line ≡ None) }
    {
        let blocks = Vec::with_capacity(alloc, g.managed() as usize)?;
        let mut host = Host {
            alloc,
            geometry: g,
            commands,
            at: 0,
            place: HostPlace::Asking,
            evacuation: Evacuation::new(g, BlockNo(0)),
            blocks,
            waiting: 0,
            tried: Vec::new(alloc),
            line: None,
        };
        host.begin(plugged);
        Ok(host)
    }

    /// The next block is emptied, the highest that waits; without one, the device is asked.
    fn begin_block(&mut self)
        ensures state { self.new.state ≡ next_block self.old.state }
        ensures line { self.new.line ≡ self.old.line }
        ensures room { self.new.has_room ≡ self.old.has_room }
    {
        if self.waiting == 0 {
            self.place = HostPlace::Asking;
            return;
        }
        let block = BlockNo(self.blocks[self.waiting - 1]);
        self.evacuation = Evacuation::new(self.geometry, block);
        self.place = HostPlace::Evacuating;
    }

    /// The first of the commands that haven't ended begins, where these blocks are plugged.
    fn begin(&mut self, plugged: &BlockMap)
        requires { plugged.now.sizes ≡ self.old.state.sizes }
        ensures state { self.new.state ≡ command_begun plugged.now.plugged self.old.state }
        ensures sizes { self.new.state.sizes ≡ self.old.state.sizes }
        ensures line { self.new.line ≡ self.old.line }
    {
        self.place = HostPlace::Asking;
        self.waiting = 0;
        self.tried.clear();
        self.blocks.clear();
        put_blocks(&mut self.blocks, plugged, self.commands.as_slice(), self.at);
        self.waiting = self.blocks.len();
        self.begin_block();
    }

    /// The command under way has ended with this result, and the next one begins.
    fn end_command(&mut self, given: HostResult, plugged: &BlockMap)
        requires going { host_ended self.old.state ≡ false }
        requires sizes { plugged.now.sizes ≡ self.old.state.sizes }
        ensures state { self.new.state ≡ (command_ended plugged.now.plugged self.old.state given).state }
        ensures line { self.new.line ≡ (command_ended plugged.now.plugged self.old.state given).line }
    {
        let tried = mem::replace(&mut self.tried, Vec::new(self.alloc));
        self.line = Some(HostLine {
            no: self.at as u64,
            result: given,
            tried: TriedList::from_vec(tried),
        });
        // The length of the commands bounds the place in them.
        let _commands = self.commands.len();
        self.place = HostPlace::Asking;
        self.at += 1;
        self.begin(plugged);
    }

    /// The command under way has this result: it ends once the blocks that the driver holds are put online.
    fn take_result(&mut self, given: HostResult, plugged: &BlockMap)
        requires going { host_ended self.old.state ≡ false }
        requires sizes { plugged.now.sizes ≡ self.old.state.sizes }
        requires none { self.old.line ≡ None }
        ensures state { self.new.state ≡ (with_result plugged.now.plugged self.old.state given).state }
        ensures line { self.new.line ≡ (with_result plugged.now.plugged self.old.state given).line }
    {
        if self.waiting < self.blocks.len() {
            self.place = HostPlace::PuttingOnline { result: given };
            return;
        }
        self.end_command(given, plugged);
    }

    /// The blocks that the driver holds behind what the device gave to a command.
    fn hear_answer(&mut self, given: &HostResult)
        requires going { host_ended self.old.state ≡ false }
        requires asking { self.old.state.place ≡ HostPlace.Asking }
        ensures state { (c : HostCommand) (cs : List HostCommand) → self.old.state.left ≡ c ∷ cs → self.new.state ≡ answered self.old.state c given.now }
        ensures sizes { self.new.state.sizes ≡ self.old.state.sizes }
        ensures left { self.new.state.left ≡ self.old.state.left }
        ensures line { self.new.line ≡ self.old.line }
    {
        let HostResult::Answered(response) = given else {
            return;
        };
        let HostCommand::Request { bytes } = &self.commands.as_slice()[self.at] else {
            return;
        };
        if let Response::Ack { .. } = response {
            let (first, count) = plugged_by(&self.geometry, bytes.as_slice(), response);
            self.waiting = 0;
            self.blocks.clear();
            put_range(&mut self.blocks, first.0, count);
        }
    }

    /// Adds what came of the block that is being tried.
    fn note(&mut self, came: TriedResult)
        requires room { self.old.has_room ≡ true }
        ensures state { self.new.state ≡ record (self.old.state) { tried = self.old.state.tried ++ record { block = self.old.state.evacuation.block; result = came } ∷ [] } }
        ensures line { self.new.line ≡ self.old.line }
    {
        let block = self.evacuation.block();
        self.tried.push_reserved(Tried {
            block,
            result: came,
        });
    }

    /// The evacuation is told what its action gave.
    fn tell(&mut self, what: EvacSeen, plugged: &BlockMap)
        requires going { host_ended self.old.state ≡ false }
        requires sizes { plugged.now.sizes ≡ self.old.state.sizes }
        requires none { self.old.line ≡ None }
        requires room { self.old.has_room ≡ true }
        ensures state { self.new.state ≡ (told plugged.now.plugged self.old.state what).state }
        ensures line { self.new.line ≡ (told plugged.now.plugged self.old.state what).line }
    {
        match self.evacuation.next(what) {
            EvacAction::Move(lease) => {
                self.place = HostPlace::Moving {
                    lease,
                    at: MovePlace::Taking,
                }
            }
            EvacAction::Emptied => self.place = HostPlace::TakingAway,
            EvacAction::Failed(cause) => {
                self.note(TriedResult::Failed(cause));
                self.take_result(HostResult::Unsent, plugged);
            }
            _ => self.place = HostPlace::Evacuating,
        }
    }

    /// The page was taken, and this word found.
    fn hear_word(&mut self, lease: MoveLease, word: u64, plugged: &BlockMap)
        requires going { host_ended self.old.state ≡ false }
        requires sizes { plugged.now.sizes ≡ self.old.state.sizes }
        requires none { self.old.line ≡ None }
        requires room { self.old.has_room ≡ true }
        ensures state { self.new.state ≡ (found plugged.now.plugged self.old.state lease word).state }
        ensures line { self.new.line ≡ (found plugged.now.plugged self.old.state lease word).line }
    {
        if is_taken(word) {
            self.tell(EvacSeen::Found { word }, plugged);
            return;
        }
        let at = if stays(word, lease.from) {
            MovePlace::Releasing { found: Some(word) }
        } else {
            MovePlace::Beginning
        };
        self.place = HostPlace::Moving { lease, at };
    }

    /// The move goes on there.
    fn move_on(&mut self, lease: MoveLease, at: MovePlace)
        requires inside { IsMoveInside self.old.state.sizes at }
        ensures state { self.new.state ≡ (moves_on self.old.state lease at).state }
        ensures line { self.new.line ≡ self.old.line }
    {
        self.place = HostPlace::Moving { lease, at };
    }

    /// Hears what a step of a move gave.
    fn hear_step(&mut self, lease: MoveLease, at: &MovePlace, heard: &Heard, plugged: &BlockMap)
        requires going { host_ended self.old.state ≡ false }
        requires sizes { plugged.now.sizes ≡ self.old.state.sizes }
        requires none { self.old.line ≡ None }
        requires room { self.old.has_room ≡ true }
        requires inside { IsMoveInside self.old.state.sizes at.now }
        ensures state { self.new.state ≡ (moved plugged.now.plugged self.old.state lease at.now heard.now).state }
        ensures line { self.new.line ≡ (moved plugged.now.plugged self.old.state lease at.now heard.now).line }
    {
        let cells = self.geometry.cells();
        match at {
            MovePlace::Taking => self.hear_word(lease, word_in(heard), plugged),
            MovePlace::Beginning => self.move_on(lease, MovePlace::Loading { cell: 0 }),
            MovePlace::Loading { cell } => self.move_on(
                lease,
                MovePlace::Storing {
                    cell: *cell,
                    value: word_in(heard),
                },
            ),
            MovePlace::Storing { cell, value: _ } => {
                self.move_on(lease, cell_behind(cells, *cell))
            }
            MovePlace::Marking => self.move_on(lease, MovePlace::Remapping),
            MovePlace::Remapping => self.move_on(lease, MovePlace::Releasing { found: None }),
            MovePlace::Releasing { found } => self.tell(came_of(found), plugged),
        }
    }

    /// The emptied block was taken away: its cells are zeroed.
    fn begin_zeros(&mut self)
        ensures state { self.new.state ≡ taken_on self.old.state }
        ensures line { self.new.line ≡ self.old.line }
    {
        // The limits of the geometry bound the cells of a page.
        let _cells = self.geometry.cells();
        let (frame, _) = self.geometry.frames_of(self.evacuation.block());
        self.waiting = self.waiting.saturating_sub(1);
        self.place = HostPlace::Zeroing { frame, cell: 0 };
    }

    /// A zero was stored.
    fn hear_zero(&mut self, frame: FrameNo, cell: u32)
        requires inside { (frame.0 < frame_count self.old.state.sizes) × (cell < self.old.state.sizes.cells) }
        ensures state { self.new.state ≡ record (self.old.state) { place = zeroed_on self.old.state frame cell } }
        ensures line { self.new.line ≡ self.old.line }
    {
        let cells = self.geometry.cells();
        self.place = if cell + 1 < cells {
            HostPlace::Zeroing {
                frame,
                cell: cell + 1,
            }
        } else {
            HostPlace::MarkingZeros { frame }
        };
    }

    /// A zeroed frame was marked.
    fn hear_mark(&mut self, frame: FrameNo)
        requires inside { frame.0 < frame_count self.old.state.sizes }
        requires room { self.old.has_room ≡ true }
        ensures state { self.new.state ≡ marked_on self.old.state frame }
        ensures line { self.new.line ≡ self.old.line }
    {
        let (_, last) = self.geometry.frames_of(self.evacuation.block());
        if frame.0 < last.0 {
            self.place = HostPlace::Zeroing {
                frame: FrameNo(frame.0 + 1),
                cell: 0,
            };
            return;
        }
        self.note(TriedResult::Emptied);
        self.begin_block();
    }

    /// Hears what the action gave that it was to make next, where these blocks are plugged behind it. What doesn't fit is read as
    /// an ERROR of the device, or as no answer to an evacuation. One that has ended stays as it is. Room for what comes of a
    /// block was made before by `make_room`.
    pub fn hear(&mut self, heard: &Heard, plugged: &BlockMap)
        requires sizes { plugged.now.sizes ≡ self.old.state.sizes }
        requires room { self.old.has_room ≡ true }
        ensures state { self.new.state ≡ host_after plugged.now.plugged self.old.state heard.now }
        ensures sizes { self.new.state.sizes ≡ self.old.state.sizes }
        ensures line { self.new.line ≡ line_after plugged.now.plugged self.old.state heard.now }
    {
        self.line = None;
        if self.at == self.commands.len() {
            return;
        }
        let place = self.place;
        match &place {
            HostPlace::Asking => {
                let given = result_in(heard);
                self.hear_answer(&given);
                self.take_result(given, plugged);
            }
            HostPlace::Evacuating => {
                let what = seen_in(&self.evacuation.action(), heard);
                self.tell(what, plugged);
            }
            HostPlace::Moving { lease, at } => self.hear_step(*lease, at, heard, plugged),
            HostPlace::TakingAway => self.begin_zeros(),
            HostPlace::Zeroing { frame, cell } => self.hear_zero(*frame, *cell),
            HostPlace::MarkingZeros { frame } => self.hear_mark(*frame),
            HostPlace::PuttingOnline { result } => {
                self.place = HostPlace::Asking;
                self.waiting += 1;
                self.take_result(*result, plugged);
            }
        }
    }

    /// Makes room for what comes of one block more, as long as a list for it has none. Where there is no memory, nothing
    /// changes.
    pub fn make_room(&mut self) -> Result<(), OutOfMemory>
        ensures room { OnOk result (self.new.has_room ≡ true) }
        ensures state { self.new.state ≡ self.old.state }
        ensures sizes { self.new.state.sizes ≡ self.old.state.sizes }
        ensures line { self.new.line ≡ self.old.line }
    {
        Ok(self.tried.reserve(1)?)
    }

    /// What the host does next.
    pub fn action(&self) -> Action
        ensures { result ≡ host_action self.now.state }
    {
        if self.at == self.commands.len() {
            return Action::Ended;
        }
        match &self.place {
            HostPlace::Asking => { Action::Device(device_call(&self.commands.as_slice()[self.at])) }
            HostPlace::Evacuating => evac_action(&self.evacuation.action()),
            HostPlace::Moving { lease, at } => move_action(lease, at),
            HostPlace::TakingAway => Action::Block(BlockCall::Offline {
                block: self.evacuation.block(),
            }),
            HostPlace::Zeroing { frame, cell } => Action::Step(Step::Store {
                frame: *frame,
                cell: *cell,
                value: 0,
            }),
            HostPlace::MarkingZeros { frame } => Action::Step(Step::Mark { frame: *frame }),
            HostPlace::PuttingOnline { .. } => Action::Block(BlockCall::Online {
                block: BlockNo(self.blocks[self.waiting]),
            }),
        }
    }

    /// Whether no command is left.
    pub fn has_ended(&self) -> bool
        ensures { result ≡ host_ended self.now.state }
    {
        self.at == self.commands.len()
    }

    /// The line of the command that ended with the action of which was heard last. It is given once; None
    /// where no command ended there, or its line was given already.
    pub fn line(&mut self) -> Option<HostLine>
        ensures line { result ≡ self.old.line }
        ensures given { self.new.line ≡ None }
        ensures state { self.new.state ≡ self.old.state }
        ensures sizes { self.new.state.sizes ≡ self.old.state.sizes }
        ensures room { self.new.has_room ≡ self.old.has_room }
    {
        self.line.take()
    }

    /// What the host does next, after `last` was heard of the action before, as `hear` hears it, and `Start` at the
    /// first turn. `plugged` is the device's map at that moment. `others` counts for later commands alone: none of these waits for
    /// another actor. It takes memory for what comes of a block; where there is none, nothing was heard.
    pub fn next(
        &mut self,
        last: Heard,
        _others: Others,
        plugged: &BlockMap,
    ) -> Result<Action, OutOfMemory>
        requires sizes { plugged.now.sizes ≡ self.old.state.sizes }
        ensures state { OnOk result (self.new.state ≡ host_told plugged.now.plugged self.old.state last) }
        ensures sizes { self.new.state.sizes ≡ self.old.state.sizes }
        ensures action { IfOk result (λ action. action ≡ host_action self.new.state) }
        ensures err { OnErr result ((self.new.state ≡ self.old.state) × (self.new.line ≡ self.old.line)) }
    {
        self.make_room()?;
        match &last {
            Heard::Start => self.line = None,
            _ => self.hear(&last, plugged),
        }
        Ok(self.action())
    }
}
