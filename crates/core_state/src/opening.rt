//! What a run begins with.

use evac_model::{Kind, Listed, NumberList};
use std::marker::Model;

/// A page that is mapped at the opening. Contracts see it as a plain page.
#[derive(Drop)]
pub struct OpenPage {
    pub(crate) cells: NumberList,
    pub(crate) kind: Kind,
    pub(crate) pins: u8,
}

impl Model for OpenPage {
    ghost use Rattle.evac_model.specs.Page.{PlainPage, page_code};

    ghost Value = { PlainPage };

    ghost coded = { page_code };

    ghost view = { λ a. record { cells = a.cells; kind = a.kind; pins = a.pins } };
}

/// The pages of an opening, by page number; one that is unmapped is none.
pub type OpenPageList = Listed<Option<OpenPage>>;

/// What a run begins with. The laws hold for each opening: any pages, any first ticket, any bounds
/// that aren't above it, and any budget.
#[derive(Drop)]
pub struct Opening {
    /// The number of cells of a frame.
    pub cells: u32,
    /// The number of frames.
    pub frames: u32,
    /// The number of page numbers.
    pub pages: u32,
    /// The first ticket.
    pub first: u64,
    /// The tickets of all seats together.
    pub budget: u64,
    /// The bound of each page.
    pub bounds: NumberList,
    /// Each page.
    pub start: OpenPageList,
}
