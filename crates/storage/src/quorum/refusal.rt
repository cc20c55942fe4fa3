// Why no quorum rule was made.
ghost use Rattle.std.specs.Prelude.{◌≡◌, if◌then◌else◌};
ghost use Rattle.storage.specs.Memories.{count_fits};
ghost use Rattle.storage.specs.Quorums.{refusal_number};

#[derive(Clone, Copy, PartialEq, Eq, Debug)]
pub enum QuorumRefusal {
    // there are not 1 to 15 replicas
    ReplicaCount = 5,
    // there are, and all weigh 0
    Weightless = 10,
}

impl QuorumRefusal {
    // A method and no conversion: callers name it, and a `From` beside it would say the same twice.
    pub fn number(self) -> u8
        ensures { result ≡ refusal_number self }
    {
        self as u8
    }
}

// Refuses a number of replicas that is not 1 to 15. Elsewhere the same test has another refusal; a type for the
// number would be made and taken apart at each.
pub(crate) fn check_count(replicas: usize) -> Result<(), QuorumRefusal>
    ensures { result ≡ (if count_fits replicas then Ok tt else Err QuorumRefusal.ReplicaCount) }
{
    if (1..=15).contains(&replicas) {
        Ok(())
    } else {
        Err(QuorumRefusal::ReplicaCount)
    }
}
