// A rehearsal of runs: one line in, and at most one line out.
ghost use Rattle.std.specs.Prelude.{◌≡◌, IfOk, MatchResult};
ghost use Rattle.cluster.specs.Fitness.{of_kind};
ghost use Rattle.cluster.specs.States.{Does};
ghost use Rattle.rehearsal.specs.Rehearsals.{heard, is_over, is_waiting, opened_by, register_setup, register_state, replied, stage_of, table_setup, table_state};
ghost use Rattle.rehearsal.specs.declared.rehearsal.Rehearsal.TheVariants.{Waiting};
ghost use Rattle.storage.specs.Memories.{made_number};
ghost use Rattle.storage.specs.declared.stable.memory.MakeError.TheVariants.{NoMemory as without_memory};

use crate::command::event_of;
use crate::opening::Opening;
use crate::opening::reading::opening_of;
use crate::reply::Reply;
use cluster::Cluster;
use std::alloc::{AllocError, Global};
use storage::stable::memory::MakeError;
use storage::{Bid, Entry, Kind, Majority, MemoryStorage, Quorum, Span, Storage};

// There was no memory: all that can stand in the way of a line. Not AllocError: a cluster that finds no memory
// hands its parts back in place of one, and none is written by hand.
#[derive(Clone, Copy, PartialEq, Eq, Debug)]
pub struct NoMemory;

impl NoMemory {
    // The number that users know the refusal by: that of a storage for which there is no memory.
    pub fn number(self) -> u8
        ensures { result ≡ made_number without_memory }
    {
        MakeError::NoMemory.number()
    }
}

impl From<AllocError> for NoMemory {
    fn from(_error: AllocError) -> NoMemory {
        NoMemory
    }
}

// What it means, `stage_of`, is a definition beside it and no `impl Model`: it holds the functions of a setup, and
// a view's value has to be data.
#[derive(Drop)]
pub enum Rehearsal {
    // the first line is awaited
    Waiting,
    Bids(Cluster<MemoryStorage, Majority, Bid>),
    Spans(Cluster<MemoryStorage, Majority, Span>),
    // the first line was bad: no line is answered any more
    Over,
}

// What a line does to a register, and the reply.
fn reply_to<S: Storage, Q: Quorum, E: Entry>(register: &mut Cluster<S, Q, E>, line: &[u8]) -> Reply
    ensures { Does S.Storage Q.Quorum E.Entry (λ u s. replied u s line.now) register.old register.new result }
{
    let Some(event) = event_of(line) else {
        return Reply::NotUnderstood;
    };
    let answer = register.act(&event);
    // 0 where the register refuses to say, which that of a first line never does
    let in_transit = register.in_transit().unwrap_or(0);
    Reply::Answered { answer, in_transit }
}

impl Rehearsal {
    // Takes the next line, without its line feed; the reply to it, if there is one. Only the first line
    // can be refused, for want of memory, and then it is still awaited.
    pub fn line(&mut self, heap: Global, line: &[u8]) -> Result<Option<Reply>, NoMemory>
        ensures { MatchResult result (λ said. heard (stage_of self.old) line.now ≡ (stage_of self.new, said)) (λ _. (self.old ≡ Waiting) × (self.new ≡ Waiting)) }
    {
        // The two registers have two types, so each has its own arm.
        match self {
            Rehearsal::Waiting => self.open(heap, line),
            Rehearsal::Bids(register) => Ok(Some(reply_to(register, line))),
            Rehearsal::Spans(register) => Ok(Some(reply_to(register, line))),
            Rehearsal::Over => Ok(None),
        }
    }

    // Whether the first line is still awaited.
    pub(crate) fn is_waiting(&self) -> bool
        ensures { result ≡ is_waiting (stage_of self.now) }
    {
        matches!(self, Rehearsal::Waiting)
    }

    // Whether the first line was bad.
    pub(crate) fn is_over(&self) -> bool
        ensures { result ≡ is_over (stage_of self.now) }
    {
        matches!(self, Rehearsal::Over)
    }

    // Takes the first line.
    fn open(&mut self, heap: Global, line: &[u8]) -> Result<Option<Reply>, NoMemory>
        requires { self.old ≡ Waiting }
        ensures { MatchResult result (λ said. heard (stage_of self.old) line.now ≡ (stage_of self.new, said)) (λ _. self.new ≡ Waiting) }
    {
        let Some(opening) = opening_of(line) else {
            *self = Rehearsal::Over;
            return Ok(Some(Reply::NotUnderstood));
        };
        *self = run_of(heap, &opening)?;
        Ok(None)
    }
}

// The run that a first line opens, with a register of the kind that it asks for. A kind chooses a type parameter,
// so it has an arm for each.
fn run_of(heap: Global, opening: &Opening) -> Result<Rehearsal, NoMemory>
    ensures { IfOk result (λ run. opened_by (Some opening.now) ≡ (stage_of run, None)) }
{
    Ok(match opening.kind {
        Kind::Bid => Rehearsal::Bids(register_of(heap, opening)?),
        Kind::Span => Rehearsal::Spans(register_of(heap, opening)?),
    })
}

// The register of a first line: a table in memory, and the majority.
fn register_of<E: Entry>(
    heap: Global,
    opening: &Opening,
) -> Result<Cluster<MemoryStorage, Majority, E>, NoMemory>
    ensures { IfOk result (λ c. (register_setup E.Entry c ≡ table_setup opening.now.replicas (of_kind E.Entry)) × (register_state c ≡ table_state opening.now.replicas opening.now.stores)) }
{
    let storage = match MemoryStorage::blank(heap, opening.replicas, opening.stores) {
        Ok(storage) => storage,
        Err(MakeError::NoMemory) => return Err(NoMemory),
        Err(MakeError::ReplicaCount) => unreachable(),
    };
    let Ok(majority) = Majority::new(opening.replicas) else {
        unreachable()
    };
    let Ok(register) = Cluster::new(heap, storage, majority) else {
        return Err(NoMemory);
    };
    Ok(register)
}
