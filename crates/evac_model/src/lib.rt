//! The vocabulary of the machine: pages, frames and blocks, calls and replies, the geometry,
//! the plain slow machine, and the definitions that every other crate cites.
#![tactic(auto)]

mod call;
mod cells;
mod device;
mod device_journal;
mod entry;
mod evacuation;
mod fault;
mod geometry;
mod host;
mod laws;
mod list;
mod names;
mod plain;
mod reply;
mod request_bytes;
mod scenario;
mod slot;
mod space;
mod tried;

pub use call::Call;
pub use cells::Cells;
pub use device::{Config, Request, Response, STATE_MIXED, STATE_PLUGGED, STATE_UNPLUGGED};
pub use device_journal::{DeviceAct, DeviceAction, Notice, Notices, Told};
pub use entry::{Entry, EntryList};
pub use evacuation::{EvacCause, MoveLease};
pub use fault::{CallCount, Failed, count_up};
pub use geometry::{Geometry, GeometryFault};
pub use host::{CommandList, HostCommand, HostLine, HostResult, HostRun, HostRunList};
pub use laws::{
    answers_of_a_small_machine, is_in_contains, lease_counts_for_alloc_alone,
    leases_of_a_small_machine, legal_push, legal_tickets, numbers_that_pass, pages_stay_in_size,
    pairings_of_a_small_machine, refusal_changes_nothing, rising_contains, runs_of_a_small_machine,
};
pub use list::{BlockList, ByteList, Listed, NumberList, first_node};
pub use names::{BlockNo, FrameNo, Kind, OutOfMemory, PageNo};
pub use plain::Plain;
pub use reply::Reply;
pub use request_bytes::RequestBytes;
pub use scenario::{
    Actor, CallList, Drawn, LineCause, Scenario, ScenarioFault, ScriptList, StartPage,
    StartPageList, Turn, TurnList,
};
pub use space::{IsolateFault, LeaseFault, MoveLeaseFault, NotEmpty, SpaceAction, Unmovable};
pub use tried::{Tried, TriedList, TriedResult};
