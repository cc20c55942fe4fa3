// Stable storage over another, with an allowance of stores for each replica.
ghost use Rattle.std.specs.Prelude.{◌≡◌, ◌<◌, length, slice_index};
ghost use Rattle.storage.specs.Quotas.{allowed, layer_under, left_under};
ghost use Rattle.std.proofs.Common.{rules};

use crate::fault::{Reason, StorageFault};
use crate::page::Page;
use crate::stable::Storage;
use std::array;

#[derive(Drop)]
pub struct QuotaStorage<S> {
    below: S,
    // A row of fixed size: `over` takes no allocator, and cannot fail.
    allowances: [u32; 15],
}

// The number at place i, and 0 past the end.
fn number_at(numbers: &[u32], i: usize) -> u32
    ensures value { result ≡ slice_index numbers.now i }
    ensures within { 0 < result → i < length numbers.now }
{
    numbers.get(i).copied().unwrap_or(0)
}

// The allowances of replicas 0 to 14: those given, and 0 where none is.
fn allowances_of(given: &[u32]) -> [u32; 15]
    ensures { result ≡ allowed given.now }
{
    array::from_fn(|i| number_at(given, i))
}

impl<S: Storage> QuotaStorage<S> {
    // A quota over `below`: replica i may store `given[i]` times, and one for which no allowance
    // is given, or that is not below 15, not at all.
    pub fn over(below: S, given: &[u32]) -> QuotaStorage<S>
        ensures below { result.below ≡ below }
        ensures allowances { result.allowances ≡ allowed given.now }
    {
        QuotaStorage {
            below,
            allowances: allowances_of(given),
        }
    }

    // Gives the storage below back.
    pub fn into_below(self) -> S
        ensures { result ≡ self.below }
    {
        self.below
    }
}

impl<S: Storage> Storage for QuotaStorage<S> {
    ghost replicas = { λ q. S.Storage.replicas q.below };

    ghost page = { λ q. S.Storage.page q.below };

    ghost left = { λ q i. left_under (slice_index q.allowances i) (S.Storage.left q.below i) };

    ghost layer = { λ q i. layer_under (slice_index q.allowances i) (S.Storage.left q.below i) (S.Storage.layer q.below i) };

    ghost layers = { Prim.search rules };

    fn replicas(&self) -> usize {
        self.below.replicas()
    }

    fn page(&self, i: usize) -> Result<Page, StorageFault> {
        self.below.page(i)
    }

    fn stores_left(&self, i: usize) -> Result<u32, StorageFault> {
        let allowance = number_at(&self.allowances, i);
        self.below.stores_left(i).map(|left| left.min(allowance))
    }

    fn store(&mut self, i: usize, new: Page) -> Result<(), StorageFault> {
        if i >= self.below.replicas() {
            return Err(StorageFault::new(Reason::NoSuchReplica, i));
        }
        // Not Cell::stored: what is counted here is the allowance, and the page goes below.
        let left = number_at(&self.allowances, i)
            .checked_sub(1)
            .ok_or(StorageFault::new(Reason::NoStoresLeft, i))?;
        self.below
            .store(i, new)
            .map_err(|fault| fault.from_below())?;
        self.allowances[i] = left;
        Ok(())
    }
}
