//! What a run leaves.

use evac_model::{
    BlockList, DeviceAction, EntryList, HostRunList, Kind, Listed, NumberList, PageNo, SpaceAction,
};

/// A page that is mapped at the end of the run.
#[derive(Debug, Drop)]
pub struct FinalPage {
    /// The page.
    pub page: PageNo,
    /// Whether the page may be moved.
    pub kind: Kind,
    /// The pins, 0 to 63.
    pub pins: u8,
    /// The number in each cell.
    pub cells: NumberList,
}

/// Final pages, by rising page number.
pub type FinalPageList = Listed<FinalPage>;

/// The actions of the frame space, in order.
pub type SpaceActionList = Listed<SpaceAction>;

/// The actions of the memory device, in order, each with what it told its listeners.
pub type DeviceActionList = Listed<DeviceAction>;

/// What a run leaves: the history of the calls, the host's commands, the journals of the frame space and
/// of the memory device, the blocks that are plugged, and the pages.
#[derive(Debug, Drop)]
pub struct Report {
    /// Every call with its reply, in ticket order.
    pub history: EntryList,
    /// Every command of the host with its line, in order.
    pub host: HostRunList,
    /// Every action of the frame space, in order.
    pub space_journal: SpaceActionList,
    /// Every action of the memory device, in order.
    pub device_journal: DeviceActionList,
    /// The plugged blocks, rising.
    pub plugged: BlockList,
    /// The mapped pages, by rising page number.
    pub pages: FinalPageList,
}
