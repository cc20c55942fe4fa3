// A register: one storage, one quorum rule and one kind of entry, beside the records of its replicas and the
// messages in transit.
use crate::transit::Transit;
use replica::Replica;
use storage::{Entry, Quorum, Storage};

pub mod acts;
mod fitness;
pub mod making;
pub mod questions;
pub mod runs;

// No `impl Model`: what it stands for holds functions, such as the page of each replica, and a view's value
// has to be data.
#[derive(Drop)]
pub struct Cluster<S: Storage, Q: Quorum, E: Entry> {
    storage: S,
    quorum: Q,
    // the blank entry, by which the kind is chosen
    blank: E,
    // an array, so that a number below 15 is never out of bounds
    records: [Replica; 15],
    transit: Transit,
}
