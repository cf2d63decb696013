//! The entry words that a seat has noticed.

use evac_model::PageNo;
use std::alloc::Global;
use std::collections::LinkedList;

/// The word that a take found.
#[derive(Clone, Copy, Debug, PartialEq, Eq)]
pub struct Notice {
    /// The page that was to be taken.
    pub page: PageNo,
    /// Its entry word before the take.
    pub word: u64,
    /// The length of the longest space journal that the seat knew then, over shared words; 0 in a core.
    pub known: u64,
}

/// The words that a seat's takes found.
#[derive(Drop)]
pub struct Noticed {
    /// Those of takes by the right to move the page, in order.
    pub by_right: LinkedList<Notice, Global>,
    /// That of the last take that a ticket left allowed.
    pub last: Option<Notice>,
    /// The number of takes that a ticket left allowed, over shared words; 0 in a core.
    pub by_ticket: u64,
}
