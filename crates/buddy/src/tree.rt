//! A binary tree over frames, which knows of each part the orders of its free runs.

ghost use Rattle.std.specs.Prelude.{◌≡◌, ◌≤◌, ◌++◌};
ghost use Rattle.buddy.specs.TreeInside.{alike, orders_of};
ghost use Rattle.buddy.specs.TreeNode.{IsHalf};

use evac_model::OutOfMemory;
use std::alloc::Global;
use std::marker::Model;

/// A part of 2^order frames, each of them free or not, as a node of the textbook's buddy tree. It has
/// a bit of `orders` set for each order of which it has a free run. Where all its frames are alike,
/// `orders` says so, and what its halves say doesn't count.
#[cycle(tree)]
#[derive(Debug, Drop)]
pub(crate) struct Tree {
    order: u32,
    top: u32,
    orders: u32,
    halves: Halves,
}

/// The halves of a part; a part of one frame has none.
#[cycle(tree)]
#[derive(Debug, Drop)]
enum Halves {
    Frame,
    Two(Box<Tree>, Box<Tree>),
}

impl Model for Tree {
    ghost use Rattle.std.specs.Prelude.{ℕ};
    ghost use Rattle.buddy.specs.Parts.{Part};

    ghost Value = { Part };

    ghost use Rattle.buddy.specs.TreeNode.{part_of, IsNode};

    ghost view = { λ a. part_of a.top a.order a.orders a.halves };

    ghost invariant = { λ a. IsNode a.top a.order a.orders a.halves };

    ghost size = { λ p. p.order };

    ghost use Rattle.buddy.specs.TreeFalls.{depth_le-order};

    ghost size_decreases = { λ a h. depth_le-order a.top a.order a.orders a.halves h };
}

/// Whether all frames of a part are free, or none is, where the bits of its free runs say so.
fn all_alike(top: u32, order: u32, orders: u32) -> Option<bool>
    requires { order ≤ 16 }
    ensures { result ≡ alike top order orders }
{
    if orders == 0 {
        Some(false)
    } else if order <= top && orders == 1 << order {
        Some(true)
    } else {
        None
    }
}

impl Tree {
    ghost use Rattle.std.specs.Prelude.{◌≡◌, ◌+◌, ◌*◌, ◌^◌, ◌<◌, ◌≤◌, ◌%◌, true, false, take, drop, length, replicate, IfOk};
    ghost use Rattle.buddy.specs.Parts.{Part, lowest_run, replaced};
    ghost use Rattle.buddy.specs.TreeInside.{handed, orders_of};

    /// A part of 2^order frames, none of them free, whose runs are of order `top` at most. It fails
    /// where there is no memory for its nodes.
    pub(crate) fn new(alloc: Global, top: u32, order: u32) -> Result<Tree, OutOfMemory>
        requires { order ≤ 16 }
        ensures { IfOk result (λ t. t ≡ record { top = top; order = order; free = replicate (2 ^ order) false }) }
    {
        if order == 0 {
            return Ok(Tree {
                order,
                top,
                orders: 0,
                halves: Halves::Frame,
            });
        }
        let low = Box::new(alloc, Tree::new(alloc, top, order - 1)?)?;
        let high = Box::new(alloc, Tree::new(alloc, top, order - 1)?)?;
        Ok(Tree {
            order,
            top,
            orders: 0,
            halves: Halves::Two(low, high),
        })
    }

    // The orders of the part's free runs, a bit for each.
    fn orders(&self) -> u32
        ensures { result ≡ orders_of self.now.top self.now.order self.now.free }
    {
        self.orders
    }

    // Makes all frames free, or takes all of them.
    fn set_all(&mut self, free: bool)
        requires { free ≡ true → self.old.order ≤ self.old.top }
        ensures { self.new ≡ record self.old { free = replicate (2 ^ self.old.order) free } }
    {
        self.orders = if free { 1 << self.order } else { 0 };
    }

    // Makes all frames free or takes all of them, if that is said.
    fn hand(&mut self, all: Option<bool>)
        requires { all ≡ Some true → self.old.order ≤ self.old.top }
        ensures { self.new ≡ handed all self.old }
    {
        if let Some(free) = all {
            self.set_all(free);
        }
    }

    /// The place of the lowest free run of that order, if there is one. It costs the part's order.
    pub(crate) fn lowest(&self, wanted: u32) -> Option<u32>
        requires { wanted ≤ 16 }
        ensures { result ≡ lowest_run self.now.top self.now.order self.now.free wanted }
    {
        if (self.orders >> wanted) & 1 == 0 {
            return None;
        }
        if wanted == self.order {
            return Some(0);
        }
        match &self.halves {
            Halves::Frame => None,
            Halves::Two(low, high) => {
                if let Some(place) = low.lowest(wanted) {
                    return Some(place);
                }
                let place = high.lowest(wanted)?;
                Some((1 << (self.order - 1)) + place)
            }
        }
    }

    /// Makes the frames of a run free, or takes them. It costs the part's order.
    pub(crate) fn set_run(&mut self, first: u32, order: u32, free: bool)
        requires runs { order ≤ self.old.top }
        requires place { first % 2 ^ order ≡ 0 }
        requires inside { first + 2 ^ order ≤ 2 ^ self.old.order }
        ensures { self.new ≡ record self.old { free = replaced first (2 ^ order) (replicate (2 ^ order) free) self.old.free } }
    {
        if order == self.order {
            self.set_all(free);
            return;
        }
        let all = all_alike(self.top, self.order, self.orders);
        if let Halves::Two(low, high) = &mut self.halves {
            low.hand(all);
            high.hand(all);
            let half = 1 << (self.order - 1);
            if first < half {
                low.set_run(first, order, free);
            } else {
                high.set_run(first - half, order, free);
            }
            self.orders = joined(self.top, self.order, low, high);
        }
    }

    // Writes the flags of all frames.
    fn copy_all(&self, into: &mut [bool])
        requires { length into.old ≡ 2 ^ self.now.order }
        ensures { into.new ≡ self.now.free }
    {
        if let Some(free) = all_alike(self.top, self.order, self.orders) {
            into.fill(free);
            return;
        }
        if let Halves::Two(low, high) = &self.halves {
            let (front, back) = into.split_at_mut(1 << (self.order - 1));
            low.copy_all(front);
            high.copy_all(back);
        }
    }

    /// Writes the flags of a run's frames: whether each is free. It costs the part's order and the
    /// run's frames.
    pub(crate) fn copy_run(&self, first: u32, order: u32, into: &mut [bool])
        requires place { first % 2 ^ order ≡ 0 }
        requires inside { first + 2 ^ order ≤ 2 ^ self.now.order }
        requires room { length into.old ≡ 2 ^ order }
        ensures { into.new ≡ take (2 ^ order) (drop first self.now.free) }
    {
        if order == self.order {
            self.copy_all(into);
            return;
        }
        if let Some(free) = all_alike(self.top, self.order, self.orders) {
            into.fill(free);
            return;
        }
        if let Halves::Two(low, high) = &self.halves {
            let half = 1 << (self.order - 1);
            if first < half {
                low.copy_run(first, order, into);
            } else {
                high.copy_run(first - half, order, into);
            }
        }
    }

    // Makes the frames free that the flags say, and takes the others.
    fn fill_all(&mut self, flags: &[bool])
        requires { length flags.now ≡ 2 ^ self.old.order }
        ensures { self.new ≡ record self.old { free = flags.now } }
    {
        match &mut self.halves {
            Halves::Frame => self.orders = flags[0] as u32,
            Halves::Two(low, high) => {
                let half = 1 << (self.order - 1);
                low.fill_all(&flags[..half]);
                high.fill_all(&flags[half..]);
                self.orders = joined(self.top, self.order, low, high);
            }
        }
    }

    /// Makes the frames of a run free that the flags say, and takes its others. It costs the part's
    /// order and the run's frames.
    pub(crate) fn fill_run(&mut self, first: u32, order: u32, flags: &[bool])
        requires place { first % 2 ^ order ≡ 0 }
        requires inside { first + 2 ^ order ≤ 2 ^ self.old.order }
        requires room { length flags.now ≡ 2 ^ order }
        ensures { self.new ≡ record self.old { free = replaced first (2 ^ order) flags.now self.old.free } }
    {
        if order == self.order {
            self.fill_all(flags);
            return;
        }
        let all = all_alike(self.top, self.order, self.orders);
        if let Halves::Two(low, high) = &mut self.halves {
            low.hand(all);
            high.hand(all);
            let half = 1 << (self.order - 1);
            if first < half {
                low.fill_run(first, order, flags);
            } else {
                high.fill_run(first - half, order, flags);
            }
            self.orders = joined(self.top, self.order, low, high);
        }
    }
}

// The orders of the free runs of a part with these halves.
fn joined(top: u32, order: u32, low: &Tree, high: &Tree) -> u32
    requires small { order ≤ 16 }
    requires low { IsHalf top order low.now }
    requires high { IsHalf top order high.now }
    ensures { result ≡ orders_of top order (low.now.free ++ high.now.free) }
{
    let half = 1 << (order - 1);
    let (low, high) = (low.orders(), high.orders());
    if order <= top && low == half && high == half {
        1 << order
    } else {
        low | high
    }
}
