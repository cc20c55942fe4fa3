// What is printed for a line.
ghost use Rattle.rehearsal.specs.Replies.{outcome_text, reply_text};
ghost use Rattle.std.specs.Prelude.{Some};

use cluster::{Answer, Failure};
use replica::Outcome;
use std::fmt;

// Not an option of an answer: what is not understood is answered too, and no reply is `None` already.
#[derive(Clone, Copy, PartialEq, Eq, Debug)]
pub enum Reply {
    // the line asks for no event
    NotUnderstood,
    // the event's answer, and how many messages are in transit then
    Answered { answer: Answer, in_transit: usize },
}

// An outcome, to be printed.
#[derive(Clone, Copy)]
struct Printed(Result<Option<Outcome>, Failure>);

impl fmt::Display for Printed {
    ghost output = { λ o. Some (outcome_text o.0) };

    fn fmt<W: fmt::Write>(&self, f: &mut fmt::Formatter<W>) -> fmt::Result {
        match self.0 {
            Ok(None) => f.write_str("-"),
            Ok(Some(Outcome::Written(when))) => write!(f, "w{}", when.sequence),
            Ok(Some(Outcome::Read(read))) => write!(f, "r{}", read.code),
            Ok(Some(Outcome::Recovered)) => f.write_str("b"),
            Err(Failure::Fault(fault)) => write!(f, "f{}", fault.replica.number()),
            Err(Failure::Refused(refusal)) => write!(f, "x{}", refusal.number()),
        }
    }
}

impl fmt::Display for Reply {
    ghost output = { λ r. Some (reply_text r) };

    fn fmt<W: fmt::Write>(&self, f: &mut fmt::Formatter<W>) -> fmt::Result {
        match *self {
            Reply::NotUnderstood => f.write_str("?"),
            Reply::Answered { answer, in_transit } => {
                let outcome = Printed(answer.outcome);
                let sent = answer.sent;
                let dropped = answer.dropped;
                let stored = answer.stored;
                write!(f, "{outcome} {sent} {dropped} {stored} {in_transit}")
            }
        }
    }
}
