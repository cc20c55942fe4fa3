// Each status with each kind of message; right and wrong tickets; enough and not enough; no store left.
use crate::scene::{Seen, at, message, page, replica_in, seen_in, storage_with};
use replica::{Message, MessageKind, Status, Task, Ticket};
use std::alloc::Global;
use std::test::Fail;
use storage::{Majority, Storage, Timestamp};

const BLANK: Timestamp = Timestamp::BLANK;

// A replica of this status, with so many stores left, that has heard `heard` takes the message: what is
// seen, and its status then.
fn takes(
    heap: Global,
    status: Status,
    heard: &[usize],
    stores: u32,
    message: &Message,
) -> Result<(Seen, Status), Fail> {
    let mut storage = storage_with(heap, page(), stores)?;
    let quorum = Majority::new(3)?;
    let mut replica = replica_in(status, heard);
    let answer = replica.receive(&mut storage, &quorum, message);
    Ok((seen_in(answer), replica.status))
}

// Queries and updates, from another replica and from itself, and the replies.
fn requests_and_replies() -> [(Message, Seen); 5] {
    [
        (
            message(MessageKind::Query, 1, BLANK, 0),
            Seen::Replied(MessageKind::Report, at(5, 1), 50, false),
        ),
        (
            message(MessageKind::Update, 2, at(5, 2), 70),
            Seen::Replied(MessageKind::Ack, BLANK, 0, true),
        ),
        (
            message(MessageKind::Update, 2, at(5, 1), 70),
            Seen::Replied(MessageKind::Ack, BLANK, 0, false),
        ),
        (
            message(MessageKind::Update, 2, at(4, 9), 70),
            Seen::Replied(MessageKind::Ack, BLANK, 0, false),
        ),
        (
            message(MessageKind::Update, 0, at(6, 0), 70),
            Seen::Replied(MessageKind::Ack, BLANK, 0, true),
        ),
    ]
}

#[test]
fn requests(rt: HostRuntime) -> Result<(), Fail> {
    let up = [
        Status::Idle,
        Status::QueryingToWrite,
        Status::QueryingToRead,
        Status::UpdatingWrite,
        Status::UpdatingRead,
    ];
    for (m, expected) in requests_and_replies() {
        for status in up {
            let (found, after) = takes(rt.alloc(), status, &[1], 2, &m)?;
            assert!(rt; found == expected && after == status);
        }
        let (found, after) = takes(rt.alloc(), Status::Down, &[1], 2, &m)?;
        assert!(rt; found == Seen::Nothing && after == Status::Down);
        let (found, after) = takes(rt.alloc(), Status::Recovering, &[1], 2, &m)?;
        let expected = if m.sender == 0 {
            expected
        } else {
            Seen::Nothing
        };
        assert!(rt; found == expected && after == Status::Recovering);
    }
    Ok(())
}

// What a report brings about in each status, and the status then.
fn on_report() -> [(Status, Seen, Status); 7] {
    [
        (Status::Down, Seen::Nothing, Status::Down),
        (Status::Idle, Seen::Nothing, Status::Idle),
        (
            Status::QueryingToWrite,
            Seen::Updates(at(5, 0), 60, true),
            Status::UpdatingWrite,
        ),
        (
            Status::QueryingToRead,
            Seen::Updates(at(4, 1), 40, false),
            Status::UpdatingRead,
        ),
        (Status::UpdatingWrite, Seen::Nothing, Status::UpdatingWrite),
        (Status::UpdatingRead, Seen::Nothing, Status::UpdatingRead),
        (Status::Recovering, Seen::Nothing, Status::Recovering),
    ]
}

// And an acknowledgement.
fn on_ack() -> [(Status, Seen, Status); 7] {
    [
        (Status::Down, Seen::Nothing, Status::Down),
        (Status::Idle, Seen::Nothing, Status::Idle),
        (
            Status::QueryingToWrite,
            Seen::Nothing,
            Status::QueryingToWrite,
        ),
        (
            Status::QueryingToRead,
            Seen::Nothing,
            Status::QueryingToRead,
        ),
        (Status::UpdatingWrite, Seen::Written(at(3, 2)), Status::Idle),
        (Status::UpdatingRead, Seen::Read(at(3, 2), 30), Status::Idle),
        (Status::Recovering, Seen::Recovered, Status::Idle),
    ]
}

// Reports and acknowledgements under the ticket of the round, the second of three or the first.
#[test]
fn responses(rt: HostRuntime) -> Result<(), Fail> {
    let report = message(MessageKind::Report, 2, at(4, 1), 40);
    let ack = message(MessageKind::Ack, 2, BLANK, 0);
    for (m, table) in [(report, on_report()), (ack, on_ack())] {
        for (status, expected, then) in table {
            let (found, after) = takes(rt.alloc(), status, &[1], 2, &m)?;
            assert!(rt; found == expected && after == then);
            // the first of three is not enough, and one that was heard does not count again
            for heard in [[2, 2], [15, 15]] {
                let (found, after) = takes(rt.alloc(), status, &heard, 2, &m)?;
                assert!(rt; found == Seen::Nothing && after == status);
            }
        }
    }
    Ok(())
}

// A response under another ticket is ignored.
#[test]
fn tickets(rt: HostRuntime) -> Result<(), Fail> {
    for (incarnation, round) in [(3, 7), (5, 7), (4, 6), (4, 8), (7, 4)] {
        let ticket = Ticket { incarnation, round };
        for (kind, status) in [
            (MessageKind::Report, Status::QueryingToWrite),
            (MessageKind::Report, Status::QueryingToRead),
            (MessageKind::Ack, Status::UpdatingWrite),
            (MessageKind::Ack, Status::UpdatingRead),
            (MessageKind::Ack, Status::Recovering),
        ] {
            let m = Message {
                ticket,
                ..message(kind, 2, at(9, 2), 90)
            };
            let (found, after) = takes(rt.alloc(), status, &[1], 2, &m)?;
            assert!(rt; found == Seen::Nothing && after == status);
        }
    }
    Ok(())
}

// A report that is not later leaves best as it was.
#[test]
fn best_is_the_latest(rt: HostRuntime) -> Result<(), Fail> {
    for (reported, code, best, best_code) in [
        (at(3, 2), 31, at(3, 2), 30),
        (at(3, 1), 31, at(3, 2), 30),
        (at(3, 3), 31, at(3, 3), 31),
    ] {
        let m = message(MessageKind::Report, 2, reported, code);
        let (found, _) = takes(rt.alloc(), Status::QueryingToRead, &[1], 2, &m)?;
        assert!(rt; found == Seen::Updates(best, best_code, false));
    }
    Ok(())
}

// Faults where no store is left, and what becomes of the operation.
#[test]
fn faults(rt: HostRuntime) -> Result<(), Fail> {
    let update = message(MessageKind::Update, 2, at(6, 2), 70);
    let report = message(MessageKind::Report, 2, at(4, 1), 40);
    let keeping = Seen::Fault(17, Some(Task::KeepingUpdate));
    let noting = Seen::Fault(17, Some(Task::NotingIntention));
    let reading = Seen::Updates(at(4, 1), 40, false);
    for (status, m, expected, then) in [
        (Status::Idle, update, keeping, Status::Idle),
        (
            Status::UpdatingWrite,
            update,
            keeping,
            Status::UpdatingWrite,
        ),
        (Status::QueryingToWrite, report, noting, Status::Idle),
        (
            Status::QueryingToRead,
            report,
            reading,
            Status::UpdatingRead,
        ),
    ] {
        let (found, after) = takes(rt.alloc(), status, &[1], 0, &m)?;
        assert!(rt; found == expected && after == then);
    }
    Ok(())
}

// Faults where no sequence is left, and none where one is.
#[test]
fn no_sequence_left(rt: HostRuntime) -> Result<(), Fail> {
    let last = message(MessageKind::Report, 2, at(999_999, 1), 40);
    let last_but_one = message(MessageKind::Report, 2, at(999_998, 1), 40);
    let noting = Seen::Fault(18, Some(Task::NotingIntention));
    let reading = Seen::Updates(at(999_999, 1), 40, false);
    let writing = Seen::Updates(at(999_999, 0), 60, true);
    for (status, m, stores, expected, then) in [
        (Status::QueryingToWrite, last, 1, noting, Status::Idle),
        (Status::QueryingToWrite, last, 0, noting, Status::Idle),
        (
            Status::QueryingToRead,
            last,
            0,
            reading,
            Status::UpdatingRead,
        ),
        (
            Status::QueryingToWrite,
            last_but_one,
            1,
            writing,
            Status::UpdatingWrite,
        ),
    ] {
        let (found, after) = takes(rt.alloc(), status, &[1], stores, &m)?;
        assert!(rt; found == expected && after == then);
    }
    Ok(())
}
