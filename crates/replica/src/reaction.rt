// What comes of an event at a replica.
ghost use Rattle.std.specs.Prelude.{◌≡◌};
ghost use Rattle.replica.specs.Reactions.{replying, ending, updating};

use crate::message::Message;
use storage::{Stamped, Timestamp};

#[derive(Clone, Copy, PartialEq, Eq, Debug)]
pub enum Sending {
    // to its receiver
    One(Message),
    // to every replica in turn, the sender included
    All(Message),
}

// What was finished.
#[derive(Clone, Copy, PartialEq, Eq, Debug)]
pub enum Outcome {
    // the write is finished: when it was written
    Written(Timestamp),
    // the read is finished: what it read
    Read(Stamped),
    // the replica is idle again after a crash
    Recovered,
}

#[derive(Clone, Copy, PartialEq, Eq, Debug)]
pub struct Reaction {
    pub sending: Option<Sending>,
    pub outcome: Option<Outcome>,
    // whether a page was stored
    pub stored: bool,
}

impl Reaction {
    // Nothing is sent, stored or finished.
    pub(crate) const NOTHING: Reaction = Reaction {
        sending: None,
        outcome: None,
        stored: false,
    };

    // A response, after a store or without one.
    pub(crate) fn reply(message: Message, stored: bool) -> Reaction
        ensures { result ≡ replying message stored }
    {
        Reaction {
            sending: Some(Sending::One(message)),
            outcome: None,
            stored,
        }
    }

    // An Update to all, after a store or without one.
    pub(crate) fn update(message: Message, stored: bool) -> Reaction
        ensures { result ≡ updating message stored }
    {
        Reaction {
            sending: Some(Sending::All(message)),
            outcome: None,
            stored,
        }
    }

    // The end of an operation, after a store or without one.
    pub(crate) fn end(outcome: Outcome, stored: bool) -> Reaction
        ensures { result ≡ ending outcome stored }
    {
        Reaction {
            sending: None,
            outcome: Some(outcome),
            stored,
        }
    }
}
