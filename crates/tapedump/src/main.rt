// Prints the listing of the tape on standard input.
#![tactic(auto)]

use listing::list_tape;
use std::env::{self, Env, FillError};
use std::io::Read;
use std::process::ExitCode;

const USAGE: &str = "usage: tapedump < TAPE";

const HELP: &str = "
Prints a line for each record of the tape on standard input, the line of its fault, and how much of it was read.";

fn print_listing(rt: &HostRuntime) -> anyhow::Result<ExitCode> {
    let mut tape = Vec::new(rt.alloc());
    rt.stdin().read_to_end(&mut tape)?;
    let text = list_tape(rt.alloc(), tape.as_slice())?;
    rt.print(text.as_str())?;
    Ok(ExitCode::SUCCESS)
}

fn main(rt: HostRuntime) -> anyhow::Result<ExitCode> {
    // Asked for alone, since the list of them is an error where the program's own path is not UTF-8.
    if let Err(FillError::NotPresent) = rt.arg(1, &mut [0; 1]) {
        return print_listing(&rt);
    }
    let Some(argument) = env::args(&rt)?.nth(1) else {
        return print_listing(&rt);
    };
    if argument.as_str() == "--help" {
        println!(rt; "{USAGE}{HELP}")?;
        return Ok(ExitCode::SUCCESS);
    }
    eprintln!(rt; "tapedump: unknown argument {argument}\n{USAGE}")?;
    Ok(ExitCode::FAILURE)
}
