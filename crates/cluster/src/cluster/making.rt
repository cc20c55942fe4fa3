// Making a cluster, and taking it apart.
ghost use Rattle.std.specs.Prelude.{◌≡◌, IfOk, Ok, MatchResult};
ghost use Rattle.cluster.specs.Fitness.{fitness, of_kind};
ghost use Rattle.cluster.specs.Laws.{Fit};
ghost use Rattle.cluster.specs.States.{begins, setup_of, state_of};

use crate::cluster::Cluster;
use crate::transit::Transit;
use replica::Replica;
use std::alloc::Global;
use storage::{Entry, Quorum, Storage};

// There was no memory for a cluster: what it was to be made of.
#[derive(Drop)]
pub struct NoMemory<S, Q> {
    pub storage: S,
    pub quorum: Q,
}

impl<S: Storage, Q: Quorum, E: Entry> Cluster<S, Q, E> {
    // All replicas are down and nothing is in transit. Only want of memory refuses it, and gives
    // storage and quorum back. Over a fit storage and quorum the cluster is fit.
    pub fn new(heap: Global, storage: S, quorum: Q) -> Result<Cluster<S, Q, E>, NoMemory<S, Q>>
        ensures cases { MatchResult result (λ c. (c.storage ≡ storage) × (c.quorum ≡ quorum) × (c.blank ≡ E.blank) × (state_of S.Storage c ≡ begins (S.page storage) (S.left storage))) (λ e. (e.storage ≡ storage) × (e.quorum ≡ quorum)) }
        ensures fit { IfOk result (λ c. (fitness (S.replicas storage) (Q.size quorum) (of_kind E.Entry) (S.page storage) ≡ Ok tt → Fit (setup_of S.Storage Q.Quorum E.Entry c) (state_of S.Storage c))) }
    {
        match Transit::new(heap) {
            Ok(transit) => Ok(Cluster {
                storage,
                quorum,
                blank: E::blank(),
                records: [Replica::new(); 15],
                transit,
            }),
            Err(_) => Err(NoMemory { storage, quorum }),
        }
    }

    // Gives the storage back.
    pub fn into_storage(self) -> S
    where
        Q: Drop,
        ensures { result ≡ self.storage }
    {
        let Cluster {
            storage,
            quorum: _,
            blank: _,
            records: _,
            transit: _,
        } = self;
        storage
    }
}
