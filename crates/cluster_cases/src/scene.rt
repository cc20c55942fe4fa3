// The register of a test.
use cluster::Cluster;
use std::alloc::Global;
use std::test::Fail;
use storage::{Entry, Majority, Storage};

// A cluster over a storage and the majority of n replicas.
pub fn register<S: Storage + Drop, E: Entry>(
    heap: Global,
    storage: S,
    n: usize,
) -> Result<Cluster<S, Majority, E>, Fail> {
    let majority = Majority::new(n)?;
    Cluster::new(heap, storage, majority).map_err(|_| Fail::new("no memory"))
}
