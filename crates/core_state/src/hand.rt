//! The frames that a seat has in hand.

use crate::known_cells::KnownCells;
use evac_model::{Kind, Listed, PageNo};

/// What a frame in hand is for.
#[derive(Clone, Copy, Debug, PartialEq, Eq)]
pub struct Aim {
    /// The page that it is to be mapped for, or was.
    pub page: PageNo,
    /// The kind that the page has there.
    pub kind: Kind,
}

/// A frame in hand.
#[derive(Drop)]
pub struct HandFrame {
    /// What was stored last in each cell, while the frame was in a hand: by the seat, or by one that
    /// handed it over.
    pub stores: KnownCells,
    /// What it is for, over shared words; none in a core.
    pub aim: Option<Aim>,
}

/// The frames in hand: a place for each frame number, which is empty where the frame isn't in hand.
pub type Hand = Listed<Option<HandFrame>>;
