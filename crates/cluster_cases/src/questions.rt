// What can be asked of a cluster, and a list with too few answers.
use crate::runs::outcome_of;
use crate::scene::register;
use cluster::{Cluster, Event};
use replica::{MessageKind, Status};
use std::alloc::Global;
use std::test::Fail;
use storage::{Majority, MemoryStorage, Span};

// Two replicas, of which number 1 came back and queries to read: the Query to replica 0 is in transit, and
// replica 1's Report to itself.
fn querying(heap: Global) -> Result<Cluster<MemoryStorage, Majority, Span>, Fail> {
    let storage = MemoryStorage::blank(heap, 2, 9)?;
    let mut register = register(heap, storage, 2)?;
    for event in [
        Event::Recover { replica: 1 },
        Event::Read { replica: 1 },
        Event::Deliver { place: 1 },
    ] {
        if register.act(&event).dropped != 0 {
            return Err(Fail::new("a message was dropped"));
        }
    }
    Ok(register)
}

#[test]
fn messages_and_statuses_are_answered(rt: HostRuntime) -> Result<(), Fail> {
    let register = querying(rt.alloc())?;
    let query = register.message(0)?;
    let report = register.message(1)?;
    assert_eq!(rt;
        (query.kind, query.receiver, query.sender),
        (MessageKind::Query, 0, 1)
    );
    assert_eq!(rt; (report.kind, report.receiver), (MessageKind::Report, 1));
    let kind_to_0 = register.newest_to(0)?.map(|message| message.kind);
    let kind_to_1 = register.newest_to(1)?.map(|message| message.kind);
    assert_eq!(rt; kind_to_0, Some(MessageKind::Query));
    assert_eq!(rt; kind_to_1, Some(MessageKind::Report));
    assert_eq!(rt; register.status(0), Ok(Status::Down));
    assert_eq!(rt; register.status(1), Ok(Status::QueryingToRead));
    assert_eq!(rt; register.message(2).map_err(|why| why.number()), Err(14));
    assert_eq!(rt; register.status(2).map_err(|why| why.number()), Err(8));
    assert_eq!(rt; register.newest_to(2).map_err(|why| why.number()), Err(8));
    Ok(())
}

#[test]
fn a_list_with_too_few_answers_is_refused(rt: HostRuntime) -> Result<(), Fail> {
    let mut register = querying(rt.alloc())?;
    let before = register.act(&Event::Lose { place: 9 });
    let mut answers = [before; 1];
    let events = [Event::Lose { place: 0 }, Event::Lose { place: 0 }];
    let run = register.run(&events, &mut answers);
    assert_eq!(rt; run.map_err(|why| why.number()), Err(7));
    assert_eq!(rt; outcome_of(&answers[0]), (b'x', 14));
    assert_eq!(rt; register.in_transit(), Ok(2));
    Ok(())
}
