// How an accepted operation of a replica may still fail.
ghost use Rattle.std.specs.Prelude.{◌≡◌};
ghost use Rattle.replica.specs.Faults.{layer_of, met, number_of, replica_of, tasked};

use storage::StorageFault;

// What the replica was doing.
#[derive(Clone, Copy, PartialEq, Eq, Debug)]
pub enum Task {
    KeepingUpdate,
    NotingIntention,
    Recovering,
}

#[derive(Clone, Copy, PartialEq, Eq, Debug)]
pub enum Cause {
    // storage refused, and this is all that it said
    Storage(StorageFault),
    // the last sequence is used up: there is no greater timestamp
    SequenceUsedUp { replica: u32 },
}

#[derive(Clone, Copy, PartialEq, Eq, Debug)]
pub struct ReplicaFault {
    pub cause: Cause,
    // none until the caller of storage names it: no call of a replica returns one without
    pub task: Option<Task>,
}

impl From<StorageFault> for ReplicaFault {
    ghost from_gives = { λ f r. r ≡ met f };

    fn from(fault: StorageFault) -> ReplicaFault {
        ReplicaFault {
            cause: Cause::Storage(fault),
            task: None,
        }
    }
}

impl ReplicaFault {
    // A refusal of storage, met at this task: the caller of storage knows it.
    pub(crate) fn at(task: Task, fault: StorageFault) -> ReplicaFault
        ensures { result ≡ tasked task (met fault) }
    {
        ReplicaFault {
            task: Some(task),
            ..ReplicaFault::from(fault)
        }
    }

    // By a match on the cause: an enum with a variant that holds a value has no numbers of its own.
    pub fn number(&self) -> u8
        ensures { result ≡ number_of self.now }
    {
        match self.cause {
            Cause::Storage(fault) => fault.number(),
            Cause::SequenceUsedUp { replica: _ } => 18,
        }
    }

    // The layer that refused; 0 where no storage was asked. No Option: every fault has had a layer, and one
    // without would promise less.
    pub fn layer(&self) -> u8
        ensures { result ≡ layer_of self.now }
    {
        match self.cause {
            Cause::Storage(fault) => fault.layer,
            Cause::SequenceUsedUp { replica: _ } => 0,
        }
    }

    // The replica that met the fault.
    pub fn replica(&self) -> usize
        ensures { result ≡ replica_of self.now }
    {
        match self.cause {
            Cause::Storage(fault) => fault.replica,
            Cause::SequenceUsedUp { replica } => replica as usize,
        }
    }
}
