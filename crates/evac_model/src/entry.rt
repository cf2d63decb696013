//! The history: one entry for each call, refused or not.

use crate::call::Call;
use crate::names::PageNo;
use crate::reply::Reply;
use std::alloc::Global;
use std::collections::LinkedList;

/// One call as it is reported.
#[derive(Clone, Copy, Debug, PartialEq, Eq)]
pub struct Entry {
    /// The place of the call in the history, from 0.
    pub ticket: u64,
    /// The owner that made the call, 1 to 16.
    pub caller: u32,
    /// The number of the call in its owner's script, from 0.
    pub call_no: u64,
    /// The page that the call names.
    pub page: PageNo,
    /// The call.
    pub call: Call,
    /// What it answered.
    pub reply: Reply,
}

/// Entries, each in a node of its own, which goes from one list to another without a copy.
pub type EntryList = LinkedList<Entry, Global>;
