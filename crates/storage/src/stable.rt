// Stable storage: what survives a crash. A page for each replica, and how often it may still be stored.
ghost use Rattle.std.specs.Prelude.{◌≡◌, ℕ, ◌-◌, ◌≤◌, is_ok, if◌then◌else◌};
ghost use Rattle.storage.specs.Storages.{answered, stored, updated};
ghost use Rattle.storage.specs.declared.page.Page.{Page as PageOf};

use crate::fault::StorageFault;
use crate::page::Page;

pub mod memory;
pub mod quota;

pub trait Storage {
    // how many replicas have a page
    ghost replicas: { Self → ℕ };

    // the page of each replica
    ghost page: { Self → ℕ → PageOf };

    // how many stores each replica's page still takes
    ghost left: { Self → ℕ → ℕ };

    // which layer refuses a replica's store once none is left
    ghost layer: { Self → ℕ → ℕ };

    fn replicas(&self) -> usize
        ensures { result ≡ replicas self.now };

    fn page(&self, i: usize) -> Result<Page, StorageFault>
        ensures { result ≡ answered (replicas self.now) i (page self.now i) };

    fn stores_left(&self, i: usize) -> Result<u32, StorageFault>
        ensures { result ≡ answered (replicas self.now) i (left self.now i) };

    // Makes `new` the page of replica i, which takes one of its stores. A refused store changes nothing.
    fn store(&mut self, i: usize, new: Page) -> Result<(), StorageFault>
        ensures answer { result ≡ stored (replicas self.old) i (left self.old i) (layer self.old i) }
        ensures pages { page self.new ≡ (if is_ok result then updated (page self.old) i new else page self.old) }
        ensures lefts { left self.new ≡ (if is_ok result then updated (left self.old) i (left self.old i - 1) else left self.old) }
        ensures layers { layer self.new ≡ layer self.old }
        ensures size { replicas self.new ≡ replicas self.old };

    ghost layers: { (s : Self) (i : ℕ) → layer s i ≤ 255 };
}
