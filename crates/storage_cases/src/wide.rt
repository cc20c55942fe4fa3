// A storage of 20 replicas, more than a quota has allowances.
ghost use Rattle.std.specs.Prelude.{◌≡◌};
ghost use Rattle.storage.specs.Memories.{cell_at, left_at, page_at};
ghost use Rattle.storage.specs.Storages.{answered};
ghost use Rattle.std.proofs.Common.{rules};

use storage::stable::memory::Cell;
use storage::{Page, Reason, Storage, StorageFault};

#[derive(Drop)]
pub struct WideStorage {
    cells: [Cell; 20],
}

impl WideStorage {
    pub fn blank(left: u32) -> WideStorage {
        WideStorage {
            cells: [Cell::blank(left); 20],
        }
    }

    // The place of a replica, if it has one.
    fn cell(&self, i: usize) -> Result<Cell, StorageFault>
        ensures { result ≡ answered 20 i (cell_at self.now.cells i) }
    {
        self.cells
            .get(i)
            .copied()
            .ok_or(StorageFault::new(Reason::NoSuchReplica, i))
    }
}

// Three of the bodies are alike in each storage of cells: a trait under this one, with its clauses, would be
// longer.
impl Storage for WideStorage {
    ghost replicas = { λ _. 20 };

    ghost page = { λ w i. page_at w.cells i };

    ghost left = { λ w i. left_at w.cells i };

    ghost layer = { λ _ _. 0 };

    ghost layers = { Prim.search rules };

    fn replicas(&self) -> usize {
        20
    }

    fn page(&self, i: usize) -> Result<Page, StorageFault> {
        Ok(self.cell(i)?.page)
    }

    fn stores_left(&self, i: usize) -> Result<u32, StorageFault> {
        Ok(self.cell(i)?.left)
    }

    fn store(&mut self, i: usize, new: Page) -> Result<(), StorageFault> {
        self.cells[i] = self.cell(i)?.stored(i, new)?;
        Ok(())
    }
}
