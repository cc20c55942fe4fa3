// A whole run, event by event.
use crate::scene::register;
use cluster::{Answer, Event, Failure};
use replica::Outcome;
use std::test::Fail;
use storage::{MemoryStorage, Span};

// The letter of an outcome and its number: the sequence written, the code read, or why. By letter and
// number, as a rehearsal prints them.
pub fn outcome_of(answer: &Answer) -> (u8, u64) {
    match answer.outcome {
        Ok(None) => (b'-', 0),
        Ok(Some(Outcome::Written(when))) => (b'w', u64::from(when.sequence)),
        Ok(Some(Outcome::Read(read))) => (b'r', read.code),
        Ok(Some(Outcome::Recovered)) => (b'b', 0),
        Err(Failure::Fault(fault)) => (b'f', u64::from(fault.replica.number())),
        Err(Failure::Refused(refusal)) => (b'x', u64::from(refusal.number())),
    }
}

const REPLICA: usize = 0;

// A replica comes back, writes 5, reads it, and there is no second replica.
const SCRIPT: [(Event, (u8, u64), usize, usize, usize); 12] = [
    (Event::Recover { replica: REPLICA }, (b'b', 0), 0, 1, 0),
    (
        Event::Write {
            replica: REPLICA,
            code: 5,
        },
        (b'-', 0),
        1,
        0,
        1,
    ),
    (Event::Deliver { place: 0 }, (b'-', 0), 1, 0, 1),
    (Event::Deliver { place: 0 }, (b'-', 0), 1, 1, 1),
    (Event::Deliver { place: 0 }, (b'-', 0), 1, 1, 1),
    (Event::Deliver { place: 0 }, (b'w', 1), 0, 0, 0),
    (Event::Read { replica: REPLICA }, (b'-', 0), 1, 0, 1),
    (Event::Deliver { place: 0 }, (b'-', 0), 1, 0, 1),
    (Event::Deliver { place: 0 }, (b'-', 0), 1, 0, 1),
    (Event::Deliver { place: 0 }, (b'-', 0), 1, 0, 1),
    (Event::Deliver { place: 0 }, (b'r', 5), 0, 0, 0),
    (Event::Read { replica: 1 }, (b'x', 8), 0, 0, 0),
];

#[test]
fn one_replica_writes_and_reads(rt: HostRuntime) -> Result<(), Fail> {
    let storage = MemoryStorage::blank(rt.alloc(), 1, 10)?;
    let mut register = register::<_, Span>(rt.alloc(), storage, 1)?;
    for (event, outcome, sent, stored, transit) in SCRIPT {
        let answer = register.act(&event);
        assert_eq!(rt; outcome_of(&answer), outcome);
        assert_eq!(rt;
            (answer.sent, answer.dropped, answer.stored),
            (sent, 0, stored)
        );
        assert_eq!(rt; register.in_transit(), Ok(transit));
    }
    Ok(())
}
