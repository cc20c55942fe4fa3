// Rehearses runs of a register: events from standard input, one a line, and what comes of each to
// standard output.
#![tactic(auto)]

mod command;
mod number;
mod opening;
mod part;
mod rehearsal;
mod reply;
mod session;
mod worked_cases;

use crate::rehearsal::NoMemory;
use crate::reply::Reply;
use crate::session::Session;
use std::io;
use std::io::Read;
use std::process::ExitCode;

// Why the program ends with status 1: standard input or output failed, or there was no memory. `transfer`
// has a type of its own: one program is no library for another.
#[derive(Drop)]
struct Failure;

// `?` needs one for each error.
impl From<io::Error> for Failure {
    fn from(_error: io::Error) -> Failure {
        Failure
    }
}

impl From<NoMemory> for Failure {
    fn from(_error: NoMemory) -> Failure {
        Failure
    }
}

fn main(rt: HostRuntime) -> ExitCode {
    match rehearse(&rt) {
        Ok(()) => ExitCode::SUCCESS,
        Err(_) => ExitCode::FAILURE,
    }
}

// Replies to every line of standard input.
fn rehearse(rt: &HostRuntime) -> Result<(), Failure> {
    let mut session = Session::new(rt.alloc())?;
    // A count that no input reaches: a loop over input has no other bound by which it ends.
    for _ in 0..u64::MAX {
        if read_some(rt, &mut session)? == 0 || session.is_over() {
            break;
        }
    }
    let last = session.end(rt.alloc())?;
    say(rt, last)
}

// Reads what standard input has, and says how many bytes that were, of which `read` fills a part: 0 at its end.
fn read_some(rt: &HostRuntime, session: &mut Session) -> Result<usize, Failure> {
    let mut part = [0u8; 4096];
    let got = rt.stdin().read(&mut part)?;
    feed(rt, session, &part[0..got])?;
    Ok(got)
}

// Replies to each line that ends in these bytes.
fn feed(rt: &HostRuntime, session: &mut Session, bytes: &[u8]) -> Result<(), Failure> {
    for byte in bytes {
        let reply = session.feed(rt.alloc(), *byte)?;
        say(rt, reply)?;
    }
    Ok(())
}

fn say(rt: &HostRuntime, reply: Option<Reply>) -> Result<(), Failure> {
    if let Some(reply) = reply {
        println!(rt; "{reply}")?;
    }
    Ok(())
}
