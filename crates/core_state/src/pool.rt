//! Nodes of lists that are kept ready, so that a step takes no memory.

ghost use Rattle.std.specs.Prelude.{◌≡◌, ◌+◌, ◌^◌, ◌<◌, ◌++◌, ◌∷◌, ◌==◌, [], not, take, drop, filter, length, IfOk};
ghost use Rattle.std.specs.List.{count_by};

use evac_model::{FrameNo, first_node};
use std::alloc::{AllocError, Global};
use std::collections::LinkedList;

/// A pool of so many nodes. What they hold doesn't matter.
pub(crate) fn nodes<T: Copy + Drop>(
    alloc: Global,
    count: u64,
    item: T,
) -> Result<LinkedList<T, Global>, AllocError>
    ensures { IfOk result (λ pool. length pool ≡ count) }
{
    let mut pool = LinkedList::new(alloc);
    for _node in 0..count {
        pool.push_back(item)?;
    }
    Ok(pool)
}

/// Puts an item behind a list, in a node of the pool.
pub(crate) fn push_from<T: Drop>(
    pool: &mut LinkedList<T, Global>,
    list: &mut LinkedList<T, Global>,
    item: T,
)
    requires some { 0 < length pool.old }
    requires short { length list.old + 1 < 2 ^ 63 }
    ensures pushed { list.new ≡ list.old ++ item ∷ [] }
    ensures pool { length pool.new + 1 ≡ length pool.old }
{
    let mut node = first_node(pool);
    if let Some(place) = node.front_mut() {
        *place = item;
    }
    let _ = list.append(&mut node);
}

/// Moves the first node of a list: to the pool where it has the frame, else to the list's end.
fn pass_first(
    pool: &mut LinkedList<FrameNo, Global>,
    list: &mut LinkedList<FrameNo, Global>,
    frame: FrameNo,
)
    requires some { 0 < length list.old }
    requires short { length pool.old + length list.old < 2 ^ 63 }
    ensures rest { list.new ≡ drop 1 list.old ++ filter (λ x. not (x.0 == frame.0)) (take 1 list.old) }
    ensures pool { length pool.new ≡ length pool.old + count_by (λ x. x.0 == frame.0) (take 1 list.old) }
    ensures nodes { length pool.new + length list.new ≡ length pool.old + length list.old }
{
    let mut node = first_node(list);
    let is_it = match node.front() {
        Some(first) => first.0 == frame.0,
        None => false,
    };
    if is_it {
        let _ = pool.append(&mut node);
    } else {
        let _ = list.append(&mut node);
    }
}

/// Takes a frame out of a list, and gives its nodes to the pool.
pub(crate) fn remove_into(
    pool: &mut LinkedList<FrameNo, Global>,
    list: &mut LinkedList<FrameNo, Global>,
    frame: FrameNo,
)
    requires short { length pool.old + length list.old < 2 ^ 63 }
    ensures rest { list.new ≡ filter (λ x. not (x.0 == frame.0)) list.old }
    ensures pool { length pool.new ≡ length pool.old + count_by (λ x. x.0 == frame.0) list.old }
    ensures nodes { length pool.new + length list.new ≡ length pool.old + length list.old }
{
    let count = list.len();
    for _node in 0..count {
        pass_first(pool, list, frame);
    }
}
