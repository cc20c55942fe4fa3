// A quorum rule: which sets of replicas are enough to speak for all.
ghost use Rattle.std.specs.Prelude.{◌≡◌, ℕ, ◌<◌, ◌≤◌, Bool, true, is_some};
ghost use Rattle.storage.specs.ReplicaSets.{member, lowest_shared};

use crate::replica_set::ReplicaSet;

pub mod majority;
pub mod refusal;
pub mod weighted;

// A set is given as the function that says which replicas it holds.
pub trait Quorum {
    // how many replicas there are: they are numbered from 0
    ghost size: { Self → ℕ };

    // whether a set is a quorum
    ghost enough: { Self → (ℕ → Bool) → Bool };

    // The number of replicas.
    fn replicas(&self) -> usize
        ensures { result ≡ size self.now };

    // Whether the set is a quorum.
    fn is_quorum(&self, set: &ReplicaSet) -> bool
        ensures { result ≡ enough self.now (member set.now) };

    // there is a replica
    ghost some: { (q : Self) → 1 ≤ size q };

    // there are 15 replicas at most
    ghost few: { (q : Self) → size q ≤ 15 };

    // two sets that are enough share a replica
    ghost shared: { (q : Self) (f g : ℕ → Bool) → enough q f ≡ true → enough q g ≡ true → (k : ℕ) × (k < size q) × (f k ≡ true) × (g k ≡ true) };

    // a set that holds what one that is enough holds is enough
    ghost more: { (q : Self) (f g : ℕ → Bool) → ((k : ℕ) → k < size q → f k ≡ true → g k ≡ true) → enough q f ≡ true → enough q g ≡ true };

    // members that are no replicas do not count
    ghost below: { (q : Self) (f g : ℕ → Bool) → ((k : ℕ) → k < size q → f k ≡ g k) → enough q f ≡ enough q g };

    // all replicas together are enough
    ghost full: { (q : Self) → enough q (λ _. true) ≡ true };
}

// The lowest replica that both sets hold: there is one if both are quorums.
pub fn shared_replica<Q: Quorum>(quorum: &Q, one: &ReplicaSet, other: &ReplicaSet) -> Option<usize>
    ensures lowest { result ≡ lowest_shared (member one.now) (member other.now) (Q.size quorum.now) }
    ensures met { Q.enough quorum.now (member one.now) ≡ true → Q.enough quorum.now (member other.now) ≡ true → is_some result ≡ true }
{
    (0..quorum.replicas()).find(|&replica| one.contains(replica) && other.contains(replica))
}
