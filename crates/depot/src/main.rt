// Runs the tape on standard input as a day on the set-up of a file: prints a line for each answer, and then what the stores hold in the evening.
#![tactic(auto)]

use depot_day::run_depot;
use std::fmt::Display;
use std::io::{Read, Write};
use std::process::ExitCode;
use std::{env, fs};

const USAGE: &str = "usage: depot SETUP < TAPE";

const HELP: &str = "
Runs the tape on standard input as a day on the order, the cells, the rights and the policies of the file SETUP.
Prints a line for each answer, the line of the tape's fault, and then what the cells and the rights hold in the evening;
or the line of what is refused of the set-up, and nothing else.";

// One message on standard error, and the exit status that goes with it.
fn fail(rt: &HostRuntime, path: &str, error: impl Display + Drop) -> anyhow::Result<ExitCode> {
    eprintln!(rt; "{path}: {error}")?;
    Ok(ExitCode::FAILURE)
}

fn print_day(rt: &HostRuntime, path: &str) -> anyhow::Result<ExitCode> {
    let setup = match fs::read(rt, path) {
        Ok(setup) => setup,
        Err(error) => return fail(rt, path, error),
    };
    let mut tape = Vec::new(rt.alloc());
    rt.stdin().read_to_end(&mut tape)?;
    match run_depot(rt.alloc(), setup.as_slice(), tape.as_slice()) {
        Ok(printed) => {
            rt.stdout().write_all(printed.as_slice())?;
            Ok(ExitCode::SUCCESS)
        }
        Err(error) => fail(rt, path, error.message().as_str()),
    }
}

fn run(rt: &HostRuntime, argument: &str) -> anyhow::Result<ExitCode> {
    if argument == "--help" {
        println!(rt; "{USAGE}{HELP}")?;
        return Ok(ExitCode::SUCCESS);
    }
    print_day(rt, argument)
}

fn main(rt: HostRuntime) -> anyhow::Result<ExitCode> {
    let mut arguments = env::args(&rt)?.skip(1);
    match (arguments.next(), arguments.next()) {
        (Some(argument), None) => run(&rt, argument.as_str()),
        _ => {
            rt.eprintln(USAGE)?;
            Ok(ExitCode::FAILURE)
        }
    }
}
