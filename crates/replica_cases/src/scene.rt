// A replica of three, number 0, in the middle of an operation, and what can be seen of an event there.
use replica::{
    Message, MessageKind, Outcome, Reaction, Replica, ReplicaFault, Sending, Site, Status, Task,
    Ticket,
};
use std::alloc::Global;
use storage::stable::memory::MakeError;
use storage::{MemoryStorage, Page, ReplicaSet, Stamped, Storage, Timestamp};

pub const INCARNATION: u32 = 4;

pub const ROUND: u32 = 7;

pub fn at(sequence: u32, replica: u32) -> Timestamp {
    Timestamp { sequence, replica }
}

// What replica 0 has stored.
pub fn page() -> Page {
    Page {
        incarnation: INCARNATION,
        written: Stamped {
            timestamp: at(5, 1),
            code: 50,
        },
        intended_sequence: 2,
        intended_code: 20,
    }
}

// Where replica 0 stands.
pub fn site() -> Site {
    Site {
        own: 0,
        page: page(),
    }
}

// Three replicas, of which number 0 holds `page` and has so many stores left.
pub fn storage_with(heap: Global, page: Page, stores: u32) -> Result<MemoryStorage, MakeError> {
    let mut storage = MemoryStorage::blank(heap, 3, stores.saturating_add(1))?;
    let _ = storage.store(0, page);
    Ok(storage)
}

// A replica of this status in round 7 that has heard `heard`; best is 3.2 with code 30, to write is 60.
pub fn replica_in(status: Status, heard: &[usize]) -> Replica {
    let mut set = ReplicaSet::empty();
    for i in heard {
        set.insert(*i);
    }
    Replica {
        status,
        round: ROUND,
        heard: set,
        best: Stamped {
            timestamp: at(3, 2),
            code: 30,
        },
        write_code: 60,
    }
}

// A message to replica 0 under this round's ticket.
pub fn message(kind: MessageKind, sender: u32, timestamp: Timestamp, code: u64) -> Message {
    Message {
        kind,
        sender,
        receiver: 0,
        ticket: Ticket {
            incarnation: INCARNATION,
            round: ROUND,
        },
        content: Stamped { timestamp, code },
    }
}

// What an event at a replica brought about. Only what the tables name, and neither ticket nor receiver.
#[derive(Clone, Copy, PartialEq, Eq, Debug)]
pub enum Seen {
    Nothing,
    // a response: its kind, timestamp and code, and whether a page was stored
    Replied(MessageKind, Timestamp, u64, bool),
    // an Update to all
    Updates(Timestamp, u64, bool),
    Written(Timestamp),
    Read(Timestamp, u64),
    Recovered,
    Fault(u8, Option<Task>),
    // a message to all that is no Update
    Other,
}

pub fn seen_in(answer: Result<Reaction, ReplicaFault>) -> Seen {
    match answer {
        Err(fault) => Seen::Fault(fault.number(), fault.task),
        Ok(reaction) => match reaction.sending {
            None => match reaction.outcome {
                None => Seen::Nothing,
                Some(Outcome::Written(when)) => Seen::Written(when),
                Some(Outcome::Read(read)) => Seen::Read(read.timestamp, read.code),
                Some(Outcome::Recovered) => Seen::Recovered,
            },
            Some(Sending::One(m)) => {
                Seen::Replied(m.kind, m.content.timestamp, m.content.code, reaction.stored)
            }
            Some(Sending::All(m)) => match m.kind {
                MessageKind::Update => {
                    Seen::Updates(m.content.timestamp, m.content.code, reaction.stored)
                }
                _ => Seen::Other,
            },
        },
    }
}
