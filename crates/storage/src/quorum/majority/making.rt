// Making a majority rule of a number of replicas, and what it answers.
ghost use Rattle.std.specs.Prelude.{◌≡◌};
ghost use Rattle.storage.specs.Quorums.{majority_of, majority_enough};
ghost use Rattle.storage.specs.Meeting.{most_laws};

use super::Majority;
use crate::quorum::Quorum;
use crate::quorum::refusal::{QuorumRefusal, check_count};
use crate::replica_set::ReplicaSet;

impl Majority {
    // The majority rule over this many replicas, if they are 1 to 15.
    pub fn new(replicas: usize) -> Result<Majority, QuorumRefusal>
        ensures { result ≡ majority_of replicas }
    {
        check_count(replicas)?;
        Ok(Majority { replicas })
    }
}

impl Quorum for Majority {
    ghost size = { λ q. q.replicas };

    ghost enough = { majority_enough };

    ghost some = { λ q. q.some };

    ghost few = { λ q. q.few };

    ghost shared = { λ q. (most_laws q.replicas q.some).shared };

    ghost more = { λ q. (most_laws q.replicas q.some).more };

    ghost below = { λ q. (most_laws q.replicas q.some).below };

    ghost full = { λ q. (most_laws q.replicas q.some).full };

    fn replicas(&self) -> usize {
        self.replicas
    }

    fn is_quorum(&self, set: &ReplicaSet) -> bool {
        2 * set.count_below(self.replicas) > self.replicas
    }
}
