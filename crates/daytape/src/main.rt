// Runs the tape on standard input as a day, and prints a line for each answer.
#![tactic(auto)]

use anyhow::anyhow;
use std::env::{self, Env, FillError};
use std::io::{Read, Write};
use std::process::ExitCode;
use tape::{ROOM, lines_of_tape};

const USAGE: &str = "usage: daytape < TAPE";

const HELP: &str = "
Runs the tape on standard input as a day on four cells, and prints a line for each answer, and the line of the tape's fault.";

fn print_lines(rt: &HostRuntime) -> anyhow::Result<ExitCode> {
    let mut tape = Vec::new(rt.alloc());
    rt.stdin().read_to_end(&mut tape)?;
    let Ok(mut lines) = vec![in rt.alloc(); 0; ROOM] else {
        return Err(anyhow!("there is not enough memory for the tape"));
    };
    match lines_of_tape(tape.as_slice(), lines.as_mut_slice()) {
        Ok(length) => lines.truncate(length),
        Err(_) => unreachable(),
    }
    rt.stdout().write_all(lines.as_slice())?;
    Ok(ExitCode::SUCCESS)
}

fn main(rt: HostRuntime) -> anyhow::Result<ExitCode> {
    // Asked for alone, since the list of them is an error where the program's own path is not UTF-8.
    if let Err(FillError::NotPresent) = rt.arg(1, &mut [0; 1]) {
        return print_lines(&rt);
    }
    let Some(argument) = env::args(&rt)?.nth(1) else {
        return print_lines(&rt);
    };
    if argument.as_str() == "--help" {
        println!(rt; "{USAGE}{HELP}")?;
        return Ok(ExitCode::SUCCESS);
    }
    eprintln!(rt; "daytape: unknown argument {argument}\n{USAGE}")?;
    Ok(ExitCode::FAILURE)
}
