//! The program: a command's words from its arguments, its input from standard input, its text to
//! standard output, and the exit status of the top call.
#![tactic(auto)]

use evac::program_main;
use evac_io::{StdSink, StdSource};
use std::process::ExitCode;
use std::{env, io};

fn main(rt: HostRuntime) -> ExitCode {
    let (mut source, mut sink) = (StdSource::new(rt.reader()), StdSink::new(io::writer(&rt)));
    ExitCode::from(program_main(rt.alloc(), env::args(&rt), &mut source, &mut sink).status)
}
