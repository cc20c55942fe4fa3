// What may happen in a cluster. An enum and no closures: runs are lists of events, and proofs go by cases on them.
#[derive(Clone, Copy, PartialEq, Eq, Debug)]
pub enum Event {
    // a replica begins to write the entry of a code
    Write { replica: usize, code: u64 },
    // a replica begins to read
    Read { replica: usize },
    // a replica sends the present round's message to all again
    Resend { replica: usize },
    // the message at a place reaches its receiver
    Deliver { place: usize },
    // the message at a place is lost
    Lose { place: usize },
    // a replica goes down
    Crash { replica: usize },
    // a replica that is down comes back
    Recover { replica: usize },
}
