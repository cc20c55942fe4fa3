// Writes, reads, resends and crashes in each status, and at the last rounds.
use crate::scene::{INCARNATION, ROUND, at, replica_in, site};
use replica::{Message, MessageKind, Replica, Status, Ticket};
use storage::{Stamped, Timestamp};

// A message that replica 0 sends to all in this round: the scene's is to replica 0.
fn to_all(kind: MessageKind, round: u32, timestamp: Timestamp, code: u64) -> Message {
    Message {
        kind,
        sender: 0,
        receiver: 0,
        ticket: Ticket {
            incarnation: INCARNATION,
            round,
        },
        content: Stamped { timestamp, code },
    }
}

// The Query to all that opens this round.
fn query(round: u32) -> Message {
    to_all(MessageKind::Query, round, Timestamp::BLANK, 0)
}

#[test]
fn only_an_idle_replica_begins(rt: HostRuntime) {
    for (status, expected) in [
        (Status::Down, Err(11)),
        (Status::Idle, Ok(query(ROUND + 1))),
        (Status::QueryingToWrite, Err(13)),
        (Status::QueryingToRead, Err(13)),
        (Status::UpdatingWrite, Err(13)),
        (Status::UpdatingRead, Err(13)),
        (Status::Recovering, Err(13)),
    ] {
        let mut writer = replica_in(status, &[1, 2]);
        let mut reader = writer;
        assert_eq!(rt;
            writer.write(&site(), 80).map_err(|why| why.number()),
            expected
        );
        assert_eq!(rt; reader.read(&site()).map_err(|why| why.number()), expected);
        if expected.is_err() {
            assert!(rt; writer.status == status && reader.status == status);
            assert!(rt; writer.round == ROUND && reader.round == ROUND);
            assert!(rt; writer.heard.count() == 2 && reader.heard.count() == 2);
        }
    }
}

#[test]
fn a_new_round_asks_all(rt: HostRuntime) {
    let mut writer = replica_in(Status::Idle, &[1, 2]);
    let mut reader = writer;
    assert_eq!(rt; writer.write(&site(), 80), Ok(query(ROUND + 1)));
    assert_eq!(rt; reader.read(&site()), Ok(query(ROUND + 1)));
    assert!(rt; writer.status == Status::QueryingToWrite && writer.write_code == 80);
    assert!(rt; reader.status == Status::QueryingToRead);
    assert!(rt; writer.round == ROUND + 1 && reader.round == ROUND + 1);
    assert!(rt; writer.heard.count() == 0 && reader.heard.count() == 0);
    assert!(rt; writer.best == Stamped::BLANK && reader.best == Stamped::BLANK);
}

#[test]
fn an_operation_wants_two_rounds(rt: HostRuntime) {
    for (round, expected) in [
        (0, Ok(query(1))),
        (999_997, Ok(query(999_998))),
        (999_998, Err(15)),
        (999_999, Err(15)),
        (u32::MAX, Err(15)),
    ] {
        let idle = Replica {
            round,
            ..replica_in(Status::Idle, &[])
        };
        let mut writer = idle;
        let mut reader = idle;
        assert_eq!(rt;
            writer.write(&site(), 80).map_err(|why| why.number()),
            expected
        );
        assert_eq!(rt; reader.read(&site()).map_err(|why| why.number()), expected);
    }
}

#[test]
fn a_resend_repeats_the_round(rt: HostRuntime) {
    let update = to_all(MessageKind::Update, ROUND, at(3, 2), 30);
    for (status, expected) in [
        (Status::Down, Err(11)),
        (Status::Idle, Err(20)),
        (Status::QueryingToWrite, Ok(query(ROUND))),
        (Status::QueryingToRead, Ok(query(ROUND))),
        (Status::UpdatingWrite, Ok(update)),
        (Status::UpdatingRead, Ok(update)),
        (Status::Recovering, Ok(update)),
    ] {
        let answer = replica_in(status, &[1]).resend(&site());
        assert_eq!(rt; answer.map_err(|why| why.number()), expected);
    }
}

#[test]
fn a_crash_forgets_all(rt: HostRuntime) {
    for (status, expected) in [
        (Status::Down, Err(11)),
        (Status::Idle, Ok(())),
        (Status::QueryingToWrite, Ok(())),
        (Status::QueryingToRead, Ok(())),
        (Status::UpdatingWrite, Ok(())),
        (Status::UpdatingRead, Ok(())),
        (Status::Recovering, Ok(())),
    ] {
        let mut replica = replica_in(status, &[1]);
        assert_eq!(rt; replica.crash().map_err(|why| why.number()), expected);
        assert!(rt; replica.status == Status::Down);
        if expected.is_ok() {
            assert!(rt; replica.round == 0 && replica.heard.count() == 0);
            assert!(rt; replica.best == Stamped::BLANK && replica.write_code == 0);
        }
    }
    assert!(rt; Replica::new().status == Status::Down);
}
