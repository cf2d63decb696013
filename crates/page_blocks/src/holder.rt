//! What a frame is out for.

ghost use Rattle.std.specs.Prelude.{◌≡◌, not};
ghost use Rattle.evac_model.specs.Page.{is_movable};

use evac_model::{Kind, PageNo};
use std::marker::Model;

/// The page and the kind that a frame is out for.
#[derive(Clone, Copy, Debug)]
pub struct Holder {
    page: PageNo,
    kind: Kind,
}

impl Model for Holder {
    ghost use Rattle.evac_model.specs.SpaceJournal.{Out};

    ghost Value = { Out };

    ghost view = { λ h. record { page = h.page.0; kind = h.kind } };

    ghost inverse = { λ o. record { page = record { 0 = o.page }; kind = o.kind } };
}

impl Holder {
    /// A page and its kind.
    pub fn new(page: PageNo, kind: Kind) -> Holder
        ensures { result ≡ record { page = page.0; kind = kind } }
    {
        Holder { page, kind }
    }

    /// The page.
    pub fn page(&self) -> PageNo
        ensures { result.0 ≡ self.now.page }
    {
        self.page
    }

    /// The page's kind.
    pub fn kind(&self) -> Kind
        ensures { result ≡ self.now.kind }
    {
        self.kind
    }

    /// Whether the page is an unmovable one.
    pub fn is_unmovable(&self) -> bool
        ensures { result ≡ not (is_movable self.now.kind) }
    {
        match self.kind {
            Kind::Movable => false,
            Kind::Unmovable => true,
        }
    }
}
