//! The checker of line plans: lists the items of a plan, or says which word is wrong and why.
#![tactic(auto)]

mod command;
mod error;
mod files;
mod plans;

use command::{Command, USAGE, command_of};
use std::env;
use std::process::ExitCode;

// Does what the words after the program's name ask for, and answers its status.
fn run(rt: &HostRuntime) -> anyhow::Result<ExitCode> {
    let words: Vec<String> = env::args(rt)?.skip(1).collect(rt.alloc())?;
    match command_of(&words) {
        Some(Command::Plan { names, file }) => plans::list(rt, names, file),
        Some(Command::Judge { names, files }) => plans::judge(rt, names, files),
        Some(Command::Help) => {
            println!(rt; "{USAGE}")?;
            Ok(ExitCode::SUCCESS)
        }
        None => {
            eprintln!(rt; "{USAGE}")?;
            Ok(ExitCode::FAILURE)
        }
    }
}

// An `Err` of `main` itself would be printed by the runtime, in words that are not the program's.
fn main(rt: HostRuntime) -> ExitCode {
    match run(&rt) {
        Ok(status) => status,
        Err(error) => {
            let _ = eprintln!(rt; "checker: {error}");
            ExitCode::FAILURE
        }
    }
}
