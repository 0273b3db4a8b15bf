//! `rlscript` drives clients and a service step by step from a script on standard input, and prints a report of
//! what each client got.
#![tactic(auto)]

mod input;
mod stages;
mod start;
#[cfg(test)]
mod tests;
mod top;

use rl_outside::{ReaderSource, WriterSink};
use start::program;
use std::process::ExitCode;
use std::{env, io};

fn main(rt: HostRuntime) -> ExitCode {
    let mut source = ReaderSource::new(rt.reader());
    let mut sink = WriterSink::new(io::writer(&rt));
    program(rt.alloc(), env::args(&rt), &mut source, &mut sink)
}
