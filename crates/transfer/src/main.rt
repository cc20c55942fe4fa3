// Makes, checks and shows lot transfer files; with no argument it follows one lot from start to end.
#![tactic(auto)]

mod command;
mod files;
mod table;
mod walk;
mod words;

use command::{Command, command_of};
use std::process::ExitCode;
use std::{env, io};
use storage::{Bid, Kind, MemoryStorage, Span};

const USAGE: &str = "usage:
  transfer                             follow one lot from a blank storage to a file
  transfer blank N KIND STORES FILE    make the file of N offices (1 to 15) of a kind (1 bid, 2 span)
  transfer check FILE                  say whether it is a lot transfer file
  transfer show FILE                   show its pages";

// Why the program ends with status 1; what is to be said has been said. A type of its own: one program is no
// library for another.
#[derive(Drop)]
pub struct Failure;

impl From<io::Error> for Failure {
    fn from(_error: io::Error) -> Failure {
        Failure
    }
}

fn main(rt: HostRuntime) -> ExitCode {
    match run(&rt) {
        Ok(()) => ExitCode::SUCCESS,
        Err(_) => ExitCode::FAILURE,
    }
}

// Does what the command line asks for.
fn run(rt: &HostRuntime) -> Result<(), Failure> {
    let Ok(words) = words_of(rt) else {
        return show_usage(rt);
    };
    let Some(command) = command_of(&words) else {
        return show_usage(rt);
    };
    match command {
        Command::Walk => start_walk(rt),
        Command::Blank {
            replicas,
            kind,
            stores,
            path,
        } => match kind {
            // A kind chooses a type parameter, so each use has an arm for each.
            Kind::Bid => files::make::<Bid>(rt, replicas, stores, path),
            Kind::Span => files::make::<Span>(rt, replicas, stores, path),
        },
        Command::Check(path) => files::check(rt, path),
        Command::Show(path) => files::show(rt, path),
    }
}

fn show_usage(rt: &HostRuntime) -> Result<(), Failure> {
    println!(rt; "{USAGE}")?;
    Err(Failure)
}

// The words of the command line; the first is the program's own name.
fn words_of(rt: &HostRuntime) -> io::Result<Vec<String>> {
    Ok(env::args(rt)?.collect(rt.alloc())?)
}

// Follows one lot in a storage in memory.
fn start_walk(rt: &HostRuntime) -> Result<(), Failure> {
    match MemoryStorage::blank(rt.alloc(), 3, 5) {
        Ok(memory) => Ok(walk::follow(rt, memory)?),
        Err(refusal) => {
            let number = refusal.number();
            println!(rt; "No storage was made: refused with {number}.")?;
            Err(Failure)
        }
    }
}
