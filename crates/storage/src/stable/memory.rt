// Stable storage as a table in memory.
ghost use Rattle.std.specs.Prelude.{◌≡◌, true, replicate, vec_len, MatchResult};
ghost use Rattle.storage.specs.Memories.{blank_cell, cell_at, cell_stored, count_fits, left_at, made_number, page_at, unmade};
ghost use Rattle.storage.specs.Storages.{answered};
ghost use Rattle.storage.specs.declared.stable.memory.MakeError.TheVariants.{NoMemory};
ghost use Rattle.std.proofs.Common.{rules};

use crate::fault::{Reason, StorageFault};
use crate::page::Page;
use crate::stable::Storage;
use std::alloc::{AllocError, Global};

// A replica's place in the table.
#[derive(Clone, Copy, PartialEq, Eq, Debug)]
pub struct Cell {
    pub page: Page,
    pub left: u32,
}

impl Cell {
    // The cell of a replica that has stored nothing and may store so often.
    pub fn blank(stores: u32) -> Cell
        ensures { result ≡ blank_cell stores }
    {
        Cell {
            page: Page::BLANK,
            left: stores,
        }
    }

    // The cell of replica i after it stored a page, which takes one of its stores.
    pub fn stored(self, i: usize, new: Page) -> Result<Cell, StorageFault>
        ensures { result ≡ cell_stored i self new }
    {
        let left = self
            .left
            .checked_sub(1)
            .ok_or(StorageFault::new(Reason::NoStoresLeft, i))?;
        Ok(Cell { page: new, left })
    }
}

#[derive(Drop)]
pub struct MemoryStorage {
    cells: Vec<Cell>,
}

// Why no storage was made; the discriminant is the number of the refusal.
#[derive(Clone, Copy, PartialEq, Eq, Debug)]
pub enum MakeError {
    NoMemory = 0,
    ReplicaCount = 5,
}

impl MakeError {
    // A method and no conversion: callers name it, and a `From` beside it would say the same twice.
    pub fn number(self) -> u8
        ensures { result ≡ made_number self }
    {
        self as u8
    }
}

impl From<AllocError> for MakeError {
    ghost from_gives = { λ _ r. r ≡ NoMemory };

    fn from(_error: AllocError) -> MakeError {
        MakeError::NoMemory
    }
}

impl MemoryStorage {
    // Blank pages for n replicas, 1 to 15, with so many stores for each.
    pub fn blank(heap: Global, n: usize, stores: u32) -> Result<MemoryStorage, MakeError>
        ensures { MatchResult result (λ m. (count_fits n ≡ true) × (m.cells.items ≡ replicate n (blank_cell stores))) (λ e. e ≡ unmade n) }
    {
        if !(1..=15).contains(&n) {
            return Err(MakeError::ReplicaCount);
        }
        let cells = vec![in heap; Cell::blank(stores); n]?;
        Ok(MemoryStorage { cells })
    }

    // The place of a replica, if it has one.
    fn cell(&self, i: usize) -> Result<Cell, StorageFault>
        ensures { result ≡ answered (vec_len self.now.cells) i (cell_at self.now.cells.items i) }
    {
        self.cells
            .get(i)
            .copied()
            .ok_or(StorageFault::new(Reason::NoSuchReplica, i))
    }
}

// Three of the bodies are alike in each storage of cells: a trait under this one, with its clauses, would be
// longer.
impl Storage for MemoryStorage {
    ghost replicas = { λ m. vec_len m.cells };

    ghost page = { λ m i. page_at m.cells.items i };

    ghost left = { λ m i. left_at m.cells.items i };

    ghost layer = { λ _ _. 0 };

    ghost layers = { Prim.search rules };

    fn replicas(&self) -> usize {
        self.cells.len()
    }

    fn page(&self, i: usize) -> Result<Page, StorageFault> {
        Ok(self.cell(i)?.page)
    }

    fn stores_left(&self, i: usize) -> Result<u32, StorageFault> {
        Ok(self.cell(i)?.left)
    }

    fn store(&mut self, i: usize, new: Page) -> Result<(), StorageFault> {
        let cell = self.cell(i)?;
        self.cells[i] = cell.stored(i, new)?;
        Ok(())
    }
}
