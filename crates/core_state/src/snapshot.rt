//! The whole between two steps.

use crate::view::View;
use evac_model::{Listed, NumberList};

/// The words of the table: the next ticket, an entry word for each page, a dirty word for each frame,
/// and the cells of each frame.
pub type WordList = NumberList;

/// The views, in the order of the seats.
pub type ViewList = Listed<View>;

/// The words and the views at one moment.
#[derive(Drop)]
pub struct Snapshot {
    /// The words of the table.
    pub words: WordList,
    /// The view of each seat.
    pub views: ViewList,
}
