//! The frames that each caller of the frame space keeps at hand, after Linux's per-CPU page lists.
#![tactic(auto)]

mod cache;
mod caches;
mod drain;
mod drained;

pub use buddy::Runs;
pub use caches::Caches;
pub use evac_model::{BlockNo, FrameNo, Geometry, Kind};

#[cfg(test)]
mod tests;
