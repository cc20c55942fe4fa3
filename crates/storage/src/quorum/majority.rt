// The rule of the majority: a set is enough if twice its members exceed the number of replicas.
ghost use Rattle.std.specs.Prelude.{◌≤◌};

pub mod making;

#[derive(Clone, Copy, PartialEq, Eq, Debug)]
pub struct Majority {
    replicas: usize,
    ghost some: { 1 ≤ replicas },
    ghost few: { replicas ≤ 15 },
}
