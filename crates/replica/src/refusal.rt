// Why a replica did not begin what it was asked to do. Then nothing has changed.
ghost use Rattle.std.specs.Prelude.{◌≡◌};
ghost use Rattle.replica.specs.Refusals.{refusal_number};
ghost use Rattle.replica.specs.declared.refusal.ReplicaRefusal.TheVariants.{Failed};

use crate::fault::ReplicaFault;

#[derive(Clone, Copy, PartialEq, Eq, Debug)]
pub enum ReplicaRefusal {
    // it is down
    Down,
    // it is not down
    NotDown,
    // it is busy with another operation, or recovering
    NotIdle,
    // fewer than two rounds are left to it
    RoundsUsedUp,
    // it has the last incarnation
    IncarnationsUsedUp,
    // it is idle: there is nothing to resend
    NothingToResend,
    // storage refused
    Failed(ReplicaFault),
}

impl From<ReplicaFault> for ReplicaRefusal {
    ghost from_gives = { λ f r. r ≡ Failed f };

    fn from(fault: ReplicaFault) -> ReplicaRefusal {
        ReplicaRefusal::Failed(fault)
    }
}

impl ReplicaRefusal {
    // By a match: an enum with a variant that holds a value has no numbers of its own.
    pub fn number(&self) -> u8
        ensures { result ≡ refusal_number self.now }
    {
        match *self {
            ReplicaRefusal::Down => 11,
            ReplicaRefusal::NotDown => 12,
            ReplicaRefusal::NotIdle => 13,
            ReplicaRefusal::RoundsUsedUp => 15,
            ReplicaRefusal::IncarnationsUsedUp => 16,
            ReplicaRefusal::NothingToResend => 20,
            ReplicaRefusal::Failed(fault) => fault.number(),
        }
    }
}
