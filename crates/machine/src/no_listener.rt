//! The listener type of a device that no listener joins.

ghost use Rattle.std.specs.Prelude.{[], None};

use dma_listeners::{Listener, Refused};
use evac_model::BlockNo;

/// A listener that maps nothing, and can be told of no block. None is ever made: no listener joins a device yet.
#[derive(Debug, Drop)]
pub struct NoListener;

impl Listener for NoListener {
    ghost mapped = { λ _. [] };

    ghost refusals = { λ _. 0 };

    ghost limit = { λ _. None };

    ghost room = { λ _. 0 };

    fn populate(&mut self, _first: BlockNo, _n: u32) -> Result<(), Refused> {
        Ok(())
    }

    fn discard(&mut self, _first: BlockNo, _n: u32) {}
}
