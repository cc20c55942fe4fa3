// Whether a storage and a quorum rule are fit for a register of a kind of entry.
ghost use Rattle.std.specs.Prelude.{◌≡◌};
ghost use Rattle.cluster.specs.Fitness.{code_fits, fitness, lowest_unfit, of_kind, page_fits};

use crate::cluster::Cluster;
use crate::refusal::Refusal;
use replica::Replica;
use storage::{Entry, Page, Quorum, Stamped, Storage, Timestamp};

impl<S: Storage, Q: Quorum, E: Entry> Cluster<S, Q, E> {
    // Refused with 5 or 6 where storage and quorum are not fit.
    pub(crate) fn check_fitness(&self) -> Result<(), Refusal>
        ensures { result ≡ fitness (S.replicas self.now.storage) (Q.size self.now.quorum) (of_kind E.Entry) (S.page self.now.storage) }
    {
        let n = self.storage.replicas();
        // asked here too, for another refusal
        if !(1..=15).contains(&n) || n != self.quorum.replicas() {
            return Err(Refusal::ReplicaCount);
        }
        match unfit_replica::<S, E>(&self.storage, n) {
            Some(replica) => Err(Refusal::Unfit { replica }),
            None => Ok(()),
        }
    }
}

// The lowest replica below n whose page is unfit.
fn unfit_replica<S: Storage, E: Entry>(storage: &S, n: usize) -> Option<usize>
    requires { n ≡ S.replicas storage.now }
    ensures { result ≡ lowest_unfit n (of_kind E.Entry) (S.page storage.now) 0 n }
{
    (0..n).find(|i| storage.page(*i).is_ok_and(|page| !page_fits::<E>(n, &page)))
}

// Whether a page of a register of n replicas holds what such a register can have stored.
fn page_fits<E: Entry>(n: usize, page: &Page) -> bool
    ensures { result ≡ page_fits n (of_kind E.Entry) page.now }
{
    let Stamped { timestamp, code } = page.written;
    page.incarnation <= Replica::LAST_INCARNATION
        && (timestamp.replica as usize) < n
        && code_fits::<E>(timestamp.sequence, code)
        && (timestamp.sequence > 0 || timestamp.replica == 0)
        && code_fits::<E>(page.intended_sequence, page.intended_code)
}

// Whether a sequence is in its range and a code of the kind; at sequence 0 the code is 0.
fn code_fits<E: Entry>(sequence: u32, code: u64) -> bool
    ensures { result ≡ code_fits (of_kind E.Entry) sequence code }
{
    sequence <= Timestamp::LAST_SEQUENCE && E::decode(code).is_some() && (sequence > 0 || code == 0)
}
