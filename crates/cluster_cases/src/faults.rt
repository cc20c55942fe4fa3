// Faults, whole: number, replica, refusing layer, task, and the place in the list.
use crate::runs::outcome_of;
use crate::scene::register;
use cluster::{Answer, Cluster, ClusterFault, Event, Failure, Refusal};
use replica::{Outcome, ReplicaRefusal, Task};
use std::alloc::Global;
use std::process::Abort;
use std::test::Fail;
use storage::{Majority, MemoryStorage, Page, QuotaStorage, Span, Stamped, Storage, Timestamp};

type Register = Cluster<QuotaStorage<MemoryStorage>, Majority, Span>;

// One replica that holds this page, with so many stores in memory, under a quota of so many.
fn under_quota(heap: Global, page: Page, stores: u32, quota: u32) -> Result<Register, Fail> {
    let mut memory = MemoryStorage::blank(heap, 1, stores.saturating_add(1))?;
    memory.store(0, page)?;
    register(heap, QuotaStorage::over(memory, &[quota]), 1)
}

// A list of events after which a write ends; the last answer, if all before it were accepted.
fn last_of_write(rt: &impl Abort, register: &mut Register) -> Answer {
    let blank = register.act(&Event::Lose { place: 0 });
    let mut answers = [blank; 5];
    let events = [
        Event::Recover { replica: 0 },
        Event::Write {
            replica: 0,
            code: 5,
        },
        Event::Deliver { place: 0 },
        Event::Deliver { place: 0 },
    ];
    assert!(rt; register.run(&events, &mut answers).is_ok());
    assert_eq!(rt; outcome_of(&answers[0]).0, b'b');
    assert_eq!(rt; outcome_of(&answers[2]).0, b'-');
    // a spare answer stays as it was
    assert_eq!(rt; outcome_of(&answers[4]), (b'x', 14));
    answers[3]
}

fn fault_of(answer: &Answer) -> Result<ClusterFault, Fail> {
    match answer.outcome {
        Err(Failure::Fault(fault)) => Ok(fault),
        _ => Err(Fail::new("no fault")),
    }
}

// A failure always has a number, by which tests keep their values.
fn number_of(failure: Failure) -> u8 {
    match failure {
        Failure::Fault(fault) => fault.replica.number(),
        Failure::Refused(refusal) => refusal.number(),
    }
}

#[test]
fn an_intention_is_refused_by_the_layer_that_is_empty(rt: HostRuntime) -> Result<(), Fail> {
    // where both are empty the quota refuses, else the memory below it
    for (stores, quota, layer) in [(1, 1, 0), (1, 2, 1), (2, 1, 0)] {
        let mut register = under_quota(rt.alloc(), Page::BLANK, stores, quota)?;
        let answer = last_of_write(&rt, &mut register);
        let ClusterFault { replica, place } = fault_of(&answer)?;
        assert_eq!(rt;
            (replica.number(), replica.replica(), replica.layer()),
            (17, 0, layer)
        );
        assert_eq!(rt; replica.task, Some(Task::NotingIntention));
        assert_eq!(rt; place, 3);
        assert_eq!(rt; (answer.sent, answer.dropped, answer.stored), (0, 0, 0));
        assert!(rt; register.in_transit().is_ok());
    }
    Ok(())
}

// A page that holds an entry of this sequence.
fn written(sequence: u32) -> Page {
    Page {
        written: Stamped {
            timestamp: Timestamp {
                sequence,
                replica: 0,
            },
            code: 7,
        },
        ..Page::BLANK
    }
}

#[test]
fn the_last_sequence_has_no_next(rt: HostRuntime) -> Result<(), Fail> {
    let mut last_but_one = under_quota(rt.alloc(), written(999_998), 9, 9)?;
    assert_eq!(rt; last_of_write(&rt, &mut last_but_one).outcome, Ok(None));
    let mut last = under_quota(rt.alloc(), written(999_999), 9, 9)?;
    let ClusterFault { replica, place } = fault_of(&last_of_write(&rt, &mut last))?;
    assert_eq!(rt;
        (replica.number(), replica.replica(), replica.layer()),
        (18, 0, 0)
    );
    assert_eq!(rt; replica.task, Some(Task::NotingIntention));
    assert_eq!(rt; place, 3);
    Ok(())
}

#[test]
fn recovery_is_refused_for_incarnations_before_stores(rt: HostRuntime) -> Result<(), Fail> {
    for (incarnation, stores, expected) in [
        (9_999, 0, Err(16)),
        (9_998, 0, Err(17)),
        (9_998, 1, Ok(Some(Outcome::Recovered))),
    ] {
        let page = Page {
            incarnation,
            ..Page::BLANK
        };
        let mut register = under_quota(rt.alloc(), page, stores, 9)?;
        let answer = register.act(&Event::Recover { replica: 0 });
        assert_eq!(rt; answer.outcome.map_err(number_of), expected);
        if let Err(
            Failure::Refused(Refusal::Replica(ReplicaRefusal::Failed(fault))),
        ) = answer.outcome
        {
            assert_eq!(rt;
                (fault.number(), fault.replica(), fault.layer()),
                (17, 0, 1)
            );
            assert_eq!(rt; fault.task, Some(Task::Recovering));
        }
    }
    Ok(())
}
