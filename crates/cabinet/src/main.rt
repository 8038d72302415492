// The program: pictures from readings, readings from pictures, and the sequencer's question.
#![tactic(auto)]

mod commands;
mod failure;
mod hex;
mod input;

use crate::commands::{ask, decode, encode, help};
use crate::failure::Failure;
use std::env;
use std::process::ExitCode;

fn run(rt: &HostRuntime) -> Result<(), Failure> {
    let heap = rt.alloc();
    let args: Vec<String> = env::args(rt)?.skip(1).collect(heap)?;
    let words: Vec<&str> = args.iter().map(String::as_str).collect(heap)?;
    match words.as_slice() {
        [] => help(rt),
        ["encode"] => encode(rt),
        ["decode"] => decode(rt),
        ["ask", point] => ask(rt, point),
        _ => Err(Failure::Usage),
    }
}

fn main(rt: HostRuntime) -> ExitCode {
    match run(&rt) {
        Ok(()) => ExitCode::SUCCESS,
        Err(e) => {
            // Where standard error takes no line, the status alone says it.
            let _ = eprintln!(rt; "cabinet: {e}");
            ExitCode::FAILURE
        }
    }
}
