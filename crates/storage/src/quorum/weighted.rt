// The rule of weights: a set is enough if twice its weight exceeds the weight of all replicas.
ghost use Rattle.std.specs.Prelude.{◌≤◌};
ghost use Rattle.storage.specs.Weights.{weigh, all, weight_at};

pub mod making;

// Past the replicas the weights are 0. The row is of fixed size, and no Vec: a rule is Copy, and
// `new` takes no allocator.
#[derive(Clone, Copy, PartialEq, Eq, Debug)]
pub struct Weighted {
    weights: [u8; 15],
    replicas: usize,
    ghost some: { 1 ≤ replicas },
    ghost few: { replicas ≤ 15 },
    ghost weighs: { 1 ≤ weigh (weight_at weights) all replicas },
}
