//! Frames that are kept aside: one flag for each frame of the machine.

ghost use Rattle.std.specs.Prelude.{◌≡◌, ◌+◌, ◌%◌, ◌^◌, ◌≤◌, true, false, take, drop, length, replicate};
ghost use Rattle.buddy.specs.Parts.{replaced};

use crate::tree::Tree;

/// Keeps the frames of a run aside: 2^order frames from `first` on.
pub(crate) fn keep(aside: &mut [bool], first: u32, order: u32)
    requires small { order ≤ 9 }
    requires inside { first + 2 ^ order ≤ length aside.old }
    ensures { aside.new ≡ replaced first (2 ^ order) (replicate (2 ^ order) true) aside.old }
{
    let first = first as usize;
    aside[first..first + (1 << order)].fill(true);
}

/// Takes the free frames of a run out of a tree, where the run begins at `place`, and keeps them
/// aside, from `first` on.
pub(crate) fn put_aside(tree: &mut Tree, place: u32, order: u32, aside: &mut [bool], first: u32)
    requires small { order ≤ 9 }
    requires runs { order ≤ tree.old.top }
    requires place { place % 2 ^ order ≡ 0 }
    requires in_tree { place + 2 ^ order ≤ 2 ^ tree.old.order }
    requires inside { first + 2 ^ order ≤ length aside.old }
    ensures taken { tree.new ≡ record tree.old { free = replaced place (2 ^ order) (replicate (2 ^ order) false) tree.old.free } }
    ensures kept { aside.new ≡ replaced first (2 ^ order) (take (2 ^ order) (drop place tree.old.free)) aside.old }
{
    let first = first as usize;
    tree.copy_run(place, order, &mut aside[first..first + (1 << order)]);
    tree.set_run(place, order, false);
}

/// Makes the frames of a run free in a tree that are kept aside, from `first` on, where the run
/// begins at `place`, and keeps none of them any longer.
pub(crate) fn put_back(tree: &mut Tree, place: u32, order: u32, aside: &mut [bool], first: u32)
    requires small { order ≤ 9 }
    requires place { place % 2 ^ order ≡ 0 }
    requires in_tree { place + 2 ^ order ≤ 2 ^ tree.old.order }
    requires inside { first + 2 ^ order ≤ length aside.old }
    ensures given { tree.new ≡ record tree.old { free = replaced place (2 ^ order) (take (2 ^ order) (drop first aside.old)) tree.old.free } }
    ensures kept { aside.new ≡ replaced first (2 ^ order) (replicate (2 ^ order) false) aside.old }
{
    let first = first as usize;
    let run = &mut aside[first..first + (1 << order)];
    tree.fill_run(place, order, run);
    run.fill(false);
}
