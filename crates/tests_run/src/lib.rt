//! Tests of whole runs: reports of scheduled runs by values counted by hand, and what the top call writes.
#![tactic(auto)]

mod scenarios;

pub use scenarios::scenario_of;

#[cfg(test)]
mod arguments;
#[cfg(test)]
mod evacuations;
#[cfg(test)]
mod faults;
#[cfg(test)]
mod plain;
#[cfg(test)]
mod replays;
#[cfg(test)]
mod reports;
#[cfg(test)]
mod texts;
