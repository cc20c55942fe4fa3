// Transfer files on disk: making one, checking it, showing its pages.
use crate::Failure;
use crate::table::show_pages;
use crate::words::{InWords, Worded};
use std::fs::File;
use std::io::{Read, Write};
use std::{fmt, io};
use storage::file::opening::open;
use storage::file::writing::write_blank;
use storage::{Bid, Entry, FileStorage, Kind, OpenRefusal, Span};

// The longest transfer file has 15 replicas; one byte more tells that a file is longer.
const MOST: u64 = 665;

// Makes the file of so many replicas that have stored nothing. It replaces no file.
pub fn make<E: Entry>(
    rt: &HostRuntime,
    replicas: usize,
    stores: u32,
    path: &str,
) -> Result<(), Failure> {
    // The layout is the storage's own: a public length would be a new promise for one sum.
    let size = 4 + 44 * replicas.min(15);
    let mut buffer = zeros(rt, size)?;
    if let Err(refusal) = write_blank::<E>(replicas, stores, &mut buffer) {
        println!(rt; "No file was made: {}.", InWords(refusal))?;
        return Err(Failure);
    }
    if let Err(error) = write_new(rt, path, &buffer) {
        println!(rt; "{path} was not made: {error}.")?;
        return Err(Failure);
    }
    println!(rt; "{path} has {size} bytes: {replicas} offices, {stores} stores for each.")?;
    Ok(())
}

fn zeros(rt: &HostRuntime, size: usize) -> io::Result<Vec<u8>> {
    Ok(vec![in rt.alloc(); 0; size]?)
}

// Writes a file where there is none yet.
fn write_new(rt: &HostRuntime, path: &str, bytes: &[u8]) -> io::Result<()> {
    File::create_new(rt, path)?.write_all(bytes)
}

// Says whether a file is a transfer file, and of what.
pub fn check(rt: &HostRuntime, path: &str) -> Result<(), Failure> {
    let bytes = read(rt, path)?;
    match opened(&bytes) {
        Ok((replicas, kind)) => {
            let number = u8::from(kind);
            println!(rt; "{path} is accepted: {replicas} offices, kind {number}.")?;
            Ok(())
        }
        Err(refusal) => refuse(rt, path, refusal),
    }
}

// Shows the pages of a file.
pub fn show(rt: &HostRuntime, path: &str) -> Result<(), Failure> {
    let bytes = read(rt, path)?;
    // A kind chooses a type parameter, so each use has an arm for each.
    match opened(&bytes) {
        Ok((_, Kind::Bid)) => show_as::<Bid>(rt, bytes),
        Ok((_, Kind::Span)) => show_as::<Span>(rt, bytes),
        Err(refusal) => refuse(rt, path, refusal),
    }
}

// Shows the pages of a file for this kind of entry.
fn show_as<E: Worded>(rt: &HostRuntime, bytes: Vec<u8>) -> Result<(), Failure>
where
    InWords<E>: fmt::Display,
{
    Ok(show_pages::<E, _>(rt, &FileStorage::take::<E>(bytes))?)
}

// Says why a file is refused.
fn refuse(rt: &HostRuntime, path: &str, refusal: OpenRefusal) -> Result<(), Failure> {
    println!(rt; "{path} is refused: {}.", InWords(refusal))?;
    Err(Failure)
}

// Opens a file of whichever kind it says it is.
fn opened(bytes: &[u8]) -> Result<(usize, Kind), OpenRefusal> {
    match open::<Bid>(bytes) {
        Ok(replicas) => Ok((replicas, Kind::Bid)),
        Err(OpenRefusal::Kind) => Ok((open::<Span>(bytes)?, Kind::Span)),
        Err(refusal) => Err(refusal),
    }
}

// The bytes of a file, as far as a transfer file may reach. Where it cannot be read, that is said.
fn read(rt: &HostRuntime, path: &str) -> Result<Vec<u8>, Failure> {
    read_start(rt, path).try_map_err(|error| -> Result<Failure, Failure> {
        println!(rt; "{path} cannot be read: {error}.")?;
        Ok(Failure)
    })
}

// Reads a file to its end, or to one byte more than a transfer file may have: each read asks for all that may
// still come. Not `read_to_end`, which asks for less at once, so that a pipe in packets loses what does not fit,
// and which reads on for ever where each read is interrupted.
fn read_start(rt: &HostRuntime, path: &str) -> io::Result<Vec<u8>> {
    let mut file = File::open(rt, path)?.take(MOST);
    let mut bytes = Vec::new(rt.alloc());
    // A count that no file reaches, since each read gives a byte at least.
    for _ in 0..MOST {
        if read_more(&mut file, &mut bytes)? == 0 {
            break;
        }
    }
    Ok(bytes)
}

// Reads some bytes more, and says how many: 0 at the end.
fn read_more<R: Read>(file: &mut R, bytes: &mut Vec<u8>) -> io::Result<usize> {
    let mut part = [0u8; MOST as usize];
    let got = file.read(&mut part)?;
    bytes.extend_from_slice(&part[..got])?;
    Ok(got)
}
