//! Reads scenarios: the machine, what its managed blocks are online for, the pages of its start, the
//! calls of the backing that fail, the turns that are named or drawn, a script for each owner, and the
//! host's commands.
#![tactic(auto)]

mod ask;
mod bounds;
mod bytes;
mod call_line;
mod command_line;
mod draft;
mod error;
mod fields;
mod laws;
mod line;
mod lines;
mod number;
mod plain_call;
mod reader;
mod table;
mod turn_line;
mod turns;
mod words;

pub use error::ScenarioError;
pub use evac_model::{
    Actor, Call, CallList, Cells, CommandList, Drawn, FrameNo, Geometry, HostCommand, Kind,
    LineCause, Listed, NumberList, PageNo, RequestBytes, Scenario, ScenarioFault, ScriptList,
    StartPage, StartPageList, Turn, TurnList,
};
pub use laws::texts_are_judged_once;
pub use reader::read_scenario;
