//! Small lists that contracts see as plain lists.

ghost use Rattle.std.specs.Prelude.{◌≡◌, ◌<◌, take, drop, length};

use crate::names::BlockNo;
use std::alloc::Global;
use std::collections::LinkedList;
use std::marker::Model;
use std::mem;

/// A list, made from a `Vec` and giving it back without taking memory. Contracts see its items
/// alone, so that a value that holds one can be compared with a value of a definition.
#[derive(Debug, Drop)]
pub struct Listed<T> {
    items: Vec<T>,
}

impl<T> Model for Listed<T> {
    ghost use Rattle.std.specs.Prelude.{List};

    ghost Value = { List T };

    ghost view = { λ a. a.items.items };
}

impl<T> Listed<T> {
    ghost use Rattle.std.specs.Prelude.{◌≡◌, ◌==◌, ◌<◌, length, slice_set, slice_index_or};
    ghost use Rattle.std.specs.Borrow.{Lends, sem};
    ghost use Rattle.evac_model.specs.contracts.list.Listed.{the_row};

    /// The items of a vector, as a list.
    pub fn from_vec(items: Vec<T>) -> Listed<T>
        ensures { result ≡ items.items }
    {
        Listed { items }
    }

    /// The vector that the list keeps.
    pub fn into_vec(self) -> Vec<T>
        ensures { result.items ≡ self }
    {
        let Listed { items } = self;
        items
    }

    /// The items, in order.
    pub fn as_slice(&self) -> &[T]
        ensures { result.now ≡ self.now }
    {
        self.items.as_slice()
    }

    /// How many items there are.
    pub fn len(&self) -> usize
        ensures { result ≡ length self.now }
    {
        self.items.len()
    }

    /// An item, to be changed in its place.
    pub fn item_mut(&mut self, i: usize) -> &mut T
        requires { i < length self.old }
        ensures* writes_back { sem 𝓛 (Lends (the_row T.row) T.row self.entry result (slice_set self.old i)) }
        ensures value { result.now ≡ slice_index_or self.old i result.now }
    {
        &mut self.items[i]
    }

    /// Whether there are none.
    pub fn is_empty(&self) -> bool
        ensures { result ≡ (length self.now == 0) }
    {
        self.items.is_empty()
    }
}

/// Bytes.
pub type ByteList = Listed<u8>;

/// Numbers of 64 bits.
pub type NumberList = Listed<u64>;

/// Managed blocks, rising.
pub type BlockList = Listed<BlockNo>;

/// Takes the first node off a list. It takes no memory, and constant time.
pub fn first_node<T: Drop>(list: &mut LinkedList<T, Global>) -> LinkedList<T, Global>
    requires { 0 < length list.old }
    ensures node { result ≡ take 1 list.old }
    ensures rest { list.new ≡ drop 1 list.old }
{
    match list.split_off(1) {
        Ok(rest) => mem::replace(list, rest),
        Err(_) => unreachable!(),
    }
}
