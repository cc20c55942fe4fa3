// Why an event or a question was refused. Then nothing has changed.
ghost use Rattle.std.specs.Prelude.{◌≡◌};
ghost use Rattle.cluster.specs.Refusals.{number_of};
ghost use Rattle.cluster.specs.declared.refusal.Refusal.TheVariants.{Replica};

use replica::ReplicaRefusal;

#[derive(Clone, Copy, PartialEq, Eq, Debug)]
pub enum Refusal {
    // the storage's number of replicas is not 1 to 15, or not the quorum's
    ReplicaCount,
    // the page of this replica is unfit, and of no lower one
    Unfit { replica: usize },
    // there are fewer answers than events
    ShortAnswers,
    NoSuchReplica,
    // the code is not of the kind of the register
    NotOfKind,
    // no message is at that place
    NoMessage,
    // the replica refused
    Replica(ReplicaRefusal),
}

impl From<ReplicaRefusal> for Refusal {
    ghost from_gives = { λ f r. r ≡ Replica f };

    fn from(refusal: ReplicaRefusal) -> Refusal {
        Refusal::Replica(refusal)
    }
}

impl Refusal {
    // By a match: an enum with a variant that holds a value has no numbers of its own.
    pub fn number(&self) -> u8
        ensures { result ≡ number_of self.now }
    {
        match *self {
            Refusal::ReplicaCount => 5,
            Refusal::Unfit { replica: _ } => 6,
            Refusal::ShortAnswers => 7,
            Refusal::NoSuchReplica => 8,
            Refusal::NotOfKind => 9,
            Refusal::NoMessage => 14,
            Refusal::Replica(refusal) => refusal.number(),
        }
    }
}
