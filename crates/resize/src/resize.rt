//! A resize of the plugged memory.

ghost use Rattle.std.specs.Prelude.{◌≡◌, slice_get};
ghost use Rattle.resize.specs.Trying.{stage_for};

use crate::action::ResizeAction;
use crate::goal::blocks_to_try;
use crate::seen::ResizeSeen;
use crate::stage::Stage;
use block_map::BlockMap;
use evac_model::{BlockNo, Geometry, OutOfMemory, Response, Tried, TriedList, TriedResult};
use std::alloc::Global;
use std::marker::Model;
use std::mem;

/// A resize to a size, which is rounded down to blocks: that is its goal. Below the goal it plugs
/// blocks, from the lowest unplugged one up, and stops at the first answer other than ACK. Above the
/// goal it tries each plugged block once, from the highest down: the block is evacuated, taken offline,
/// zeroed and unplugged. Nothing is tried once the goal is reached. Its list has room from the start.
#[derive(Debug, Drop)]
pub struct Resize {
    geometry: Geometry,
    goal: u32,
    blocks: Vec<u32>,
    plugged: u32,
    tried: Vec<Tried>,
    stage: Stage,
    alloc: Global,
}

impl Model for Resize {
    ghost use Rattle.resize.specs.Trying.{Resizing};
    ghost use Rattle.resize.specs.ResizeInside.{IsResizeInside};

    ghost Value = { Resizing };

    ghost view = { λ r. record { sizes = r.geometry; goal = r.goal; blocks = r.blocks.items; plugged = r.plugged; tried = r.tried.items; stage = r.stage } };

    ghost invariant = { IsResizeInside };
}

/// What is done of a block that is the next one, where there is one.
fn stage_for(goal: u32, plugged: u32, next: Option<u32>) -> Stage
    ensures { result ≡ stage_for goal plugged next }
{
    if plugged == goal {
        return Stage::Settled;
    }
    match next {
        None => Stage::Short,
        Some(b) => {
            let block = BlockNo(b);
            if plugged < goal {
                Stage::Plugging { block }
            } else {
                Stage::Evacuating { block }
            }
        }
    }
}

/// The block at a place in the list, where there is one.
fn block_at(blocks: &[u32], place: usize) -> Option<u32>
    ensures { result ≡ slice_get blocks.now place }
{
    blocks.get(place).copied()
}

impl Resize {
    ghost use Rattle.std.specs.Prelude.{◌≡◌, ◌*◌, ◌/◌, ◌≤◌, ◌++◌, [], ◌∷◌, List, ℕ, true, false, length, IfOk};
    ghost use Rattle.evac_model.specs.Geometry.{block_bytes};
    ghost use Rattle.resize.specs.declared.stage.Stage.{Stage};
    ghost use Rattle.resize.specs.declared.action.ResizeAction.{ResizeAction};
    ghost use Rattle.evac_model.specs.declared.tried.Tried.{Tried};
    ghost use Rattle.resize.specs.Tries.{Exchange, gave};
    ghost use Rattle.resize.specs.ResizeInside.{is_over};
    ghost use Rattle.resize.specs.Trying as spec;
    ghost use Rattle.resize.specs.UnderWay.{GoesBy, IsTrue, HasSettled, HasShort};

    /// A resize to `size` bytes, before its first action, on a machine with these plugged blocks. The
    /// size is at most that of the managed region. It fails where there is no memory for its list.
    pub fn new(
        alloc: Global,
        g: Geometry,
        plugged: &BlockMap,
        size: u64,
    ) -> Result<Resize, OutOfMemory>
        requires same { plugged.now.sizes ≡ g }
        requires fits { size ≤ g.managed * block_bytes g }
        ensures state { IfOk result (λ r. r ≡ spec.at_start g plugged.now.plugged (size / block_bytes g)) }
        ensures goes_by { IfOk result (λ r. GoesBy r plugged.now.plugged []) }
    {
        // The limits of the geometry bound the goal, and the map keeps its blocks rising.
        let _managed = g.managed();
        let _geometry = plugged.geometry();
        let goal = (size / g.block_bytes()) as u32;
        let (blocks, count) = blocks_to_try(alloc, plugged, goal)?;
        let tried = Vec::with_capacity(alloc, blocks.len())?;
        let stage = stage_for(goal, count, block_at(&blocks, 0));
        Ok(Resize {
            geometry: g,
            goal,
            blocks,
            plugged: count,
            tried,
            stage,
            alloc,
        })
    }

    /// The bytes of so many blocks.
    fn bytes(&self, count: u32) -> u64
        requires { count ≤ self.now.sizes.managed }
        ensures { result ≡ count * block_bytes self.now.sizes }
    {
        // The limits of the geometry bound the product.
        let _managed = self.geometry.managed();
        count as u64 * self.geometry.block_bytes()
    }

    /// The action that the resize waits for. At its end it gives its list away.
    fn action(&mut self) -> ResizeAction
        ensures action { result ≡ spec.action_of self.old }
        ensures state { self.new ≡ spec.list_given self.old }
    {
        match self.stage {
            Stage::Plugging { block } => ResizeAction::Plug { first: block, n: 1 },
            Stage::Joining { block, .. } => ResizeAction::Online { block },
            Stage::Evacuating { block } => ResizeAction::Evacuate { block },
            Stage::Leaving { block } => ResizeAction::Offline { block },
            Stage::Zeroing { block } => ResizeAction::Zero { block },
            Stage::Unplugging { block } => ResizeAction::Unplug { first: block, n: 1 },
            Stage::Returning { block, .. } => ResizeAction::Online { block },
            Stage::Settled => ResizeAction::Settled {
                plugged: self.bytes(self.plugged),
                tried: self.give_list(),
            },
            Stage::Short => ResizeAction::Short {
                plugged: self.bytes(self.plugged),
                goal: self.bytes(self.goal),
                tried: self.give_list(),
            },
        }
    }

    /// Gives the list away.
    fn give_list(&mut self) -> TriedList
        requires { is_over self.old.stage ≡ true }
        ensures list { result ≡ self.old.tried }
        ensures state { self.new ≡ record self.old { tried = [] } }
    {
        let tried = mem::replace(&mut self.tried, Vec::new(self.alloc));
        TriedList::from_vec(tried)
    }

    /// This came of the block under way, and so many blocks are plugged now; then the next block is tried,
    /// if the goal isn't reached.
    fn end_try(&mut self, block: BlockNo, given: TriedResult, plugged: u32)
        requires going { is_over self.old.stage ≡ false }
        requires few { plugged ≤ self.old.sizes.managed }
        ensures { self.new ≡ spec.try_over self.old block given plugged }
    {
        self.tried.push_reserved(Tried {
            block,
            result: given,
        });
        self.plugged = plugged;
        let next = block_at(&self.blocks, self.tried.len());
        self.stage = stage_for(self.goal, plugged, next);
    }

    /// The device answered a PLUG.
    fn plug_answered(&mut self, block: BlockNo, response: Response)
        requires { self.old.stage ≡ Stage.Plugging block }
        ensures { self.new ≡ spec.plug_answered self.old block response }
    {
        match response {
            Response::Ack { state } => self.stage = Stage::Joining { block, state },
            _ => {
                let result = TriedResult::Plugged(response);
                self.tried.push_reserved(Tried { block, result });
                self.stage = Stage::Short;
            }
        }
    }

    /// The device answered an UNPLUG.
    fn unplug_answered(&mut self, block: BlockNo, response: Response)
        requires { self.old.stage ≡ Stage.Unplugging block }
        ensures { self.new ≡ spec.unplug_answered self.old block response }
    {
        match response {
            Response::Ack { .. } => {
                self.end_try(block, TriedResult::Unplugged, self.plugged - 1)
            }
            _ => self.stage = Stage::Returning { block, response },
        }
    }

    /// Takes in what the last action gave.
    fn hear(&mut self, seen: &ResizeSeen)
        ensures { self.new ≡ spec.resize_after self.old seen.now }
    {
        let stage = self.stage;
        match (&stage, seen) {
            (Stage::Plugging { block }, ResizeSeen::Answered(response)) => {
                self.plug_answered(*block, *response)
            }
            (Stage::Joining { block, state }, ResizeSeen::Done) => {
                let response = Response::Ack { state: *state };
                self.end_try(*block, TriedResult::Plugged(response), self.plugged + 1)
            }
            (Stage::Evacuating { block }, ResizeSeen::Emptied) => {
                self.stage = Stage::Leaving { block: *block }
            }
            (Stage::Evacuating { block }, ResizeSeen::Failed(cause)) => {
                self.end_try(*block, TriedResult::Failed(*cause), self.plugged)
            }
            (Stage::Leaving { block }, ResizeSeen::Done) => {
                self.stage = Stage::Zeroing { block: *block }
            }
            (Stage::Zeroing { block }, ResizeSeen::Done) => {
                self.stage = Stage::Unplugging { block: *block }
            }
            (Stage::Unplugging { block }, ResizeSeen::Answered(response)) => {
                self.unplug_answered(*block, *response)
            }
            (Stage::Returning { block, response }, ResizeSeen::Done) => {
                self.end_try(*block, TriedResult::Answered(*response), self.plugged)
            }
            _ => {}
        }
    }

    /// What the resize does next, after `seen` was told of its last action. What doesn't answer that
    /// action changes nothing, and the action is given again: so `Start` gives the first one. It takes no
    /// memory. The end that it gives first has the list of the blocks that were tried; when it is asked
    /// again, it gives that end with an empty list.
    pub fn next(&mut self, seen: ResizeSeen) -> ResizeAction
        ensures state { self.new ≡ spec.list_given (spec.resize_after self.old seen) }
        ensures action { result ≡ spec.action_of (spec.resize_after self.old seen) }
        ensures again { spec.answers self.old.stage seen ≡ false → spec.resize_after self.old seen ≡ self.old }
        ensures goes_on { (plugged : List ℕ) (log : List Exchange) → GoesBy self.old plugged log → spec.answers self.old.stage seen ≡ true → IsTrue self.old seen → GoesBy (spec.resize_after self.old seen) plugged (log ++ gave (spec.action_of self.old) seen ∷ []) }
        ensures settled { (plugged : List ℕ) (log : List Exchange) (bytes : ℕ) (tried : List Tried) → result ≡ ResizeAction.Settled bytes tried → GoesBy (spec.resize_after self.old seen) plugged log → HasSettled self.old.sizes self.old.goal plugged log bytes tried }
        ensures short { (plugged : List ℕ) (log : List Exchange) (bytes goal : ℕ) (tried : List Tried) → result ≡ ResizeAction.Short bytes goal tried → GoesBy (spec.resize_after self.old seen) plugged log → HasShort self.old.sizes self.old.goal plugged log bytes goal tried }
        ensures few { (plugged : List ℕ) (log : List Exchange) → GoesBy (spec.resize_after self.old seen) plugged log → length log ≤ 5 * self.old.sizes.managed }
    {
        self.hear(&seen);
        self.action()
    }
}
