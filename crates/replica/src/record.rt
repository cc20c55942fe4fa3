// What a replica holds while it is up. Its page is in stable storage, and never here.
ghost use Rattle.std.specs.Prelude.{◌≡◌};
ghost use Rattle.replica.specs.Records.{opened};

use storage::{ReplicaSet, Stamped};

#[derive(Clone, Copy, PartialEq, Eq, Debug)]
pub enum Status {
    Down,
    Idle,
    QueryingToWrite,
    QueryingToRead,
    UpdatingWrite,
    UpdatingRead,
    Recovering,
}

// The values stand beside the status and in no variant: a caller may hand in a record of any fields, a narrower
// type would refuse some, and a finished operation leaves round, heard and best.
#[derive(Clone, Copy, PartialEq, Eq, Debug)]
pub struct Replica {
    pub status: Status,
    // the round of the present operation, or of the last one
    pub round: u32,
    // who has responded in this round
    pub heard: ReplicaSet,
    // while querying, what was reported with the greatest timestamp; while updating, what all are updated with
    pub best: Stamped,
    // what is to be written
    pub write_code: u64,
}

impl Replica {
    // A replica of this status in a new round, in which nobody is heard.
    pub(crate) fn opening(status: Status, round: u32, best: Stamped, write_code: u64) -> Replica
        ensures { result ≡ opened status round best write_code }
    {
        Replica {
            status,
            round,
            heard: ReplicaSet::empty(),
            best,
            write_code,
        }
    }
}
