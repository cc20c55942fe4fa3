// What a line asks for.
ghost use Rattle.std.specs.Prelude.{◌≡◌};
ghost use Rattle.rehearsal.specs.Commands.{event_by, event_of, write_of};

use crate::number::number;
use crate::part::split_at_space;
use cluster::Event;

// A longer line is not understood, whatever it holds.
pub(crate) const LONGEST_LINE: usize = 4096;

// The event that a line asks for, if it asks for one. The length is asked here and in `opening_of`: a
// function for both would be as long as the test.
pub fn event_of(line: &[u8]) -> Option<Event>
    ensures { result ≡ event_of line.now }
{
    if line.len() > LONGEST_LINE {
        return None;
    }
    let [letter, b' ', rest @ ..] = line else {
        return None;
    };
    match *letter {
        b'W' => write_of(rest),
        other => event_by(other, number(rest)? as usize),
    }
}

// The event of a letter with one number.
fn event_by(letter: u8, number: usize) -> Option<Event>
    ensures { result ≡ event_by letter number }
{
    match letter {
        b'R' => Some(Event::Read { replica: number }),
        b'A' => Some(Event::Resend { replica: number }),
        b'D' => Some(Event::Deliver { place: number }),
        b'L' => Some(Event::Lose { place: number }),
        b'F' => Some(Event::Crash { replica: number }),
        b'B' => Some(Event::Recover { replica: number }),
        _ => None,
    }
}

// The write of a code at a replica.
fn write_of(rest: &[u8]) -> Option<Event>
    ensures { result ≡ write_of rest.now }
{
    let (replica, code) = split_at_space(rest);
    Some(Event::Write {
        replica: number(replica)? as usize,
        code: number(code)?,
    })
}
