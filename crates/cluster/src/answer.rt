// What came of an event.
ghost use Rattle.std.specs.Prelude.{◌≡◌};
ghost use Rattle.cluster.specs.Answers.{answered, failed, met, refused};

use crate::refusal::Refusal;
use replica::{Outcome, ReplicaFault};

// A replica's fault, and where in a list of events it came: 0 for a single event, which is a list's first.
#[derive(Clone, Copy, PartialEq, Eq, Debug)]
pub struct ClusterFault {
    pub replica: ReplicaFault,
    pub place: usize,
}

impl From<ReplicaFault> for ClusterFault {
    ghost from_gives = { λ f r. r ≡ met f };

    fn from(replica: ReplicaFault) -> ClusterFault {
        ClusterFault { replica, place: 0 }
    }
}

// Why an event came to nothing.
#[derive(Clone, Copy, PartialEq, Eq, Debug)]
pub enum Failure {
    // it took place, and ended with a fault
    Fault(ClusterFault),
    // it was refused, and nothing has changed
    Refused(Refusal),
}

#[derive(Clone, Copy, PartialEq, Eq, Debug)]
pub struct Answer {
    // what was finished, if anything was
    pub outcome: Result<Option<Outcome>, Failure>,
    // messages that found room in transit, and that did not
    pub sent: usize,
    pub dropped: usize,
    // pages stored, 0 or 1: a count, as those above are, which a law adds to the stores left
    pub stored: usize,
}

impl Answer {
    // Nothing was finished, sent or stored.
    pub(crate) const QUIET: Answer = Answer {
        outcome: Ok(None),
        sent: 0,
        dropped: 0,
        stored: 0,
    };

    // A refused event has sent, dropped and stored nothing.
    pub(crate) fn refused(refusal: Refusal) -> Answer
        ensures { result ≡ refused refusal }
    {
        Answer {
            outcome: Err(Failure::Refused(refusal)),
            ..Answer::QUIET
        }
    }

    // An event at this place of a list ended with a fault.
    pub(crate) fn failed(replica: ReplicaFault, place: usize) -> Answer
        ensures { result ≡ failed place replica }
    {
        Answer {
            outcome: Err(Failure::Fault(ClusterFault { replica, place })),
            ..Answer::QUIET
        }
    }

    // What a replica finished, with the messages counted.
    pub(crate) fn of(finished: Option<Outcome>, sent: usize, dropped: usize, stored: bool) -> Answer
        ensures { result ≡ answered finished sent dropped stored }
    {
        Answer {
            outcome: Ok(finished),
            sent,
            dropped,
            stored: usize::from(stored),
        }
    }
}
