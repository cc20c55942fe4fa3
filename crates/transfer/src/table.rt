// The pages of a storage as a table, a line for each replica.
ghost use Rattle.std.specs.Prelude.{◌≡◌};
ghost use Rattle.storage.specs.Records.{records_with};
ghost use Rattle.storage.specs.Storages.{answered};

use crate::words::{InWords, Worded};
use std::{fmt, io};
use storage::stable::memory::Cell;
use storage::{Storage, StorageFault};

pub fn show_pages<E: Worded, S: Storage>(rt: &HostRuntime, storage: &S) -> io::Result<()>
where
    InWords<E>: fmt::Display,
{
    println!(rt; "office  stores left  spell        mark  entry")?;
    // A range: the number is printed, and asked of the storage.
    for i in 0..storage.replicas() {
        match page_and_left(storage, i) {
            Ok(cell) => show_page::<E>(rt, i, &cell)?,
            Err(fault) => println!(rt; "refused: {}", InWords(fault))?,
        }
    }
    Ok(())
}

// The line of replica i: what it has kept, and the write that it intends, if any.
fn show_page<E: Worded>(rt: &HostRuntime, i: usize, cell: &Cell) -> io::Result<()>
where
    InWords<E>: fmt::Display,
{
    let Cell { page, left } = *cell;
    let incarnation = page.incarnation;
    let sequence = page.written.timestamp.sequence;
    let replica = page.written.timestamp.replica;
    print!(rt; "{i:>6}  {left:>11}  {incarnation:>5}  {sequence:>7}.{replica:<2}  ")?;
    print_entry::<E>(rt, page.written.code)?;
    if page.intended_sequence > 0 {
        let intended = page.intended_sequence;
        print!(rt; "; intends {intended}.{i} ")?;
        print_entry::<E>(rt, page.intended_code)?;
    }
    println!(rt; "")
}

// The entry of a code in words.
fn print_entry<E: Worded>(rt: &HostRuntime, code: u64) -> io::Result<()>
where
    InWords<E>: fmt::Display,
{
    match E::decode(code) {
        Some(entry) => print!(rt; "{}", InWords(entry)),
        None => print!(rt; "no {} has code {code}", E::NAME),
    }
}

// The page of replica i and the stores that are left to it.
pub fn page_and_left<S: Storage>(storage: &S, i: usize) -> Result<Cell, StorageFault>
    ensures { result ≡ answered (S.replicas storage.now) i (records_with (S.page storage.now) (S.left storage.now) i) }
{
    Ok(Cell {
        page: storage.page(i)?,
        left: storage.stores_left(i)?,
    })
}
