//! A scenario as plain data, and why an input is none.

use crate::call::Call;
use crate::geometry::Geometry;
use crate::host::CommandList;
use crate::list::{Listed, NumberList};
use crate::names::{FrameNo, Kind, PageNo};

/// A page that is mapped at the start, with zeros in its cells and no pins.
#[derive(Clone, Copy, Debug, PartialEq, Eq)]
pub struct StartPage {
    /// The page, below the machine's page numbers.
    pub page: PageNo,
    /// Whether the page may be moved.
    pub kind: Kind,
    /// The frame that it lies in, of a boot block or of a block that is plugged at the start.
    pub frame: FrameNo,
}

/// Start pages, in the order of their lines.
pub type StartPageList = Listed<StartPage>;

/// Who makes a step at a turn.
#[derive(Clone, Copy, Debug, PartialEq, Eq)]
pub enum Actor {
    /// The owner with this number, 1 to 16.
    Owner(u32),
    /// The host, which runs the commands.
    Host,
    /// The scanner, which copies frames while a migration runs.
    Scanner,
}

/// Turns of one actor, one after another.
#[derive(Clone, Copy, Debug, PartialEq, Eq)]
pub struct Turn {
    /// Whose turns they are.
    pub actor: Actor,
    /// How many they are, 1 to 2^24.
    pub count: u32,
}

/// Named turns, in the order in which they are taken; at most 2^24 of them in sum.
pub type TurnList = Listed<Turn>;

/// Turns that a generator of random numbers draws.
#[derive(Clone, Copy, Debug, PartialEq, Eq)]
pub struct Drawn {
    /// The number that the generator starts from.
    pub number: u64,
    /// How many turns are drawn, at most 2^24.
    pub count: u32,
}

/// An owner's script: the page and the call of each of its calls, in order.
pub type CallList = Listed<(PageNo, Call)>;

/// The scripts of the owners, that of owner 1 first; at most 16.
pub type ScriptList = Listed<CallList>;

/// What a run is made from.
#[derive(Debug, Drop)]
pub struct Scenario {
    /// The sizes of the machine.
    pub geometry: Geometry,
    /// What managed blocks are online for, after Linux's `online_movable` and `online_kernel`, where a
    /// line says it: movable pages alone, which is so too where no line says it, or pages of both kinds.
    pub online: Option<Kind>,
    /// The pages that are mapped at the start.
    pub start: StartPageList,
    /// The calls of the memory device's backing that fail, counted from 1, in the order of their lines; one that
    /// is listed more than once fails once.
    pub fails: NumberList,
    /// The turns that are named, before all others.
    pub named: TurnList,
    /// The turns that are drawn, behind the named ones.
    pub drawn: Option<Drawn>,
    /// The owners' scripts.
    pub owners: ScriptList,
    /// The host's commands.
    pub host: CommandList,
}

/// Why a line isn't accepted: the first of these that it meets, in this order.
#[derive(Clone, Copy, Debug, PartialEq, Eq)]
pub enum LineCause {
    /// There is no line but ignored ones.
    Empty,
    /// The word that says what the line asks for is none that scenarios have.
    Word,
    /// The line asks for what scenarios have and this program doesn't do yet, by the word of a command of the host.
    Later,
    /// The line isn't spelled as one of its kind.
    Form,
    /// A line of this kind doesn't come here.
    Order,
    /// A number is out of its range.
    Range,
    /// The page or the frame can't be a start page's.
    Page,
    /// There are too many lines of this kind.
    Count,
}

/// The first line that isn't accepted.
#[derive(Clone, Copy, Debug, PartialEq, Eq)]
pub struct ScenarioFault {
    /// The number of the line, from 1; 0 where there is no line.
    pub line: u64,
    /// The first cause that the line meets.
    pub cause: LineCause,
}
