// A set of replicas, which are numbered 0 to 14.
ghost use Rattle.std.specs.Prelude.{◌≡◌, ℕ, ◌≤◌, false, ◌&&◌, ◌||◌, ◌==◌, nat_lt};
ghost use Rattle.storage.specs.Weights.{counted};
ghost use Rattle.storage.specs.ReplicaSets.{member, no_replicas, with_replica};

#[derive(Clone, Copy, PartialEq, Eq, Debug)]
pub struct ReplicaSet {
    // A row of fixed size: a set is Copy, and one is made without an allocator.
    held: [bool; 15],
}

impl ReplicaSet {
    // The set that holds no replica.
    pub fn empty() -> ReplicaSet
        ensures whole { result ≡ no_replicas }
        ensures members { (k : ℕ) → member result k ≡ false }
    {
        ReplicaSet { held: [false; 15] }
    }

    // Whether the set holds this replica: a number past 14 is in no set.
    pub fn contains(&self, replica: usize) -> bool
        ensures { result ≡ member self.now replica }
    {
        self.held.get(replica) == Some(&true)
    }

    // Adds this replica: a number past 14 changes nothing.
    pub fn insert(&mut self, replica: usize)
        ensures whole { self.new ≡ with_replica self.old replica }
        ensures members { (k : ℕ) → member self.new k ≡ (member self.old k || (k == replica && nat_lt replica 15)) }
    {
        if replica < 15 {
            self.held[replica] = true;
        }
    }

    // How many replicas the set holds.
    pub fn count(&self) -> usize
        ensures { result ≡ counted (member self.now) 15 }
    {
        self.count_below(15)
    }

    // How many replicas below `end` the set holds.
    pub(crate) fn count_below(&self, end: usize) -> usize
        ensures number { result ≡ counted (member self.now) end }
        ensures few { result ≤ end }
    {
        // A sum, and no count of what a filter keeps, which takes some times as long.
        (0..end)
            .map(|replica| usize::from(self.contains(replica)))
            .sum()
    }
}
