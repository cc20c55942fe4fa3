// Making a rule of weights, and what it answers.
ghost use Rattle.std.specs.Prelude.{◌≡◌};
ghost use Rattle.storage.specs.Quorums.{weighted_of, weighted_enough};
ghost use Rattle.storage.specs.Weights.{weigh, all, weight_at, with_weight};
ghost use Rattle.storage.specs.ReplicaSets.{member};
ghost use Rattle.storage.specs.Meeting.{heavy_laws};

use super::Weighted;
use crate::quorum::Quorum;
use crate::quorum::refusal::{QuorumRefusal, check_count};
use crate::replica_set::ReplicaSet;

// The weights of all replicas and of a set so far, with one replica more.
fn with_weight(total: u32, held: u32, weight: u8, member: bool) -> (u32, u32)
    ensures { result ≡ with_weight (total, held) weight member }
{
    let weight = u32::from(weight);
    let added = if member { weight } else { 0 };
    (total.wrapping_add(weight), held.wrapping_add(added))
}

impl Weighted {
    // The rule of these weights, one for each replica: 1 to 15, and not all 0.
    pub fn new(weights: &[u8]) -> Result<Weighted, QuorumRefusal>
        ensures { result ≡ weighted_of weights.now }
    {
        let replicas = weights.len();
        check_count(replicas)?;
        if weights.iter().all(|weight| *weight == 0) {
            return Err(QuorumRefusal::Weightless);
        }
        let mut padded = [0; 15];
        padded[..replicas].copy_from_slice(weights);
        Ok(Weighted {
            weights: padded,
            replicas,
        })
    }

    // What all replicas weigh together, and those of them that a set holds.
    fn weights_of(&self, set: &ReplicaSet) -> (u32, u32)
        ensures { result ≡ (weigh (weight_at self.now.weights) all self.now.replicas, weigh (weight_at self.now.weights) (member set.now) self.now.replicas) }
    {
        let weights = self.weights.as_slice();
        // One fold for both: a chain for each takes longer.
        weights
            .iter()
            .zip(0..self.replicas)
            .fold((0, 0), |(total, held), (weight, replica)| {
                with_weight(total, held, *weight, set.contains(replica))
            })
    }
}

impl Quorum for Weighted {
    ghost size = { λ q. q.replicas };

    ghost enough = { weighted_enough };

    ghost some = { λ q. q.some };

    ghost few = { λ q. q.few };

    ghost shared = { λ q. (heavy_laws (weight_at q.weights) q.replicas q.weighs).shared };

    ghost more = { λ q. (heavy_laws (weight_at q.weights) q.replicas q.weighs).more };

    ghost below = { λ q. (heavy_laws (weight_at q.weights) q.replicas q.weighs).below };

    ghost full = { λ q. (heavy_laws (weight_at q.weights) q.replicas q.weighs).full };

    fn replicas(&self) -> usize {
        self.replicas
    }

    fn is_quorum(&self, set: &ReplicaSet) -> bool {
        let (total, held) = self.weights_of(set);
        let (total, held) = (u64::from(total), u64::from(held));
        2 * held > total
    }
}
