// Coming back: the next incarnation, an intended write or none, and every refusal.
use crate::scene::{Seen, at, page, replica_in, seen_in, storage_with};
use replica::{Replica, ReplicaRefusal, Status, Task};
use std::test::Fail;
use storage::{Page, Storage};

#[test]
fn an_intended_write_is_finished(rt: HostRuntime) -> Result<(), Fail> {
    let nothing_intended = Page {
        intended_sequence: 0,
        intended_code: 0,
        ..page()
    };
    // as great as what the page holds as written: it is finished all the same
    let kept_already = Page {
        intended_sequence: 5,
        intended_code: 50,
        ..page()
    };
    let finishing = Seen::Updates(at(2, 0), 20, true);
    let again = Seen::Updates(at(5, 0), 50, true);
    let table = [
        (nothing_intended, Seen::Recovered, Status::Idle, 0),
        (page(), finishing, Status::Recovering, 1),
        (kept_already, again, Status::Recovering, 1),
    ];
    for (held, expected, then, round) in table {
        let mut storage = storage_with(rt.alloc(), held, 1)?;
        let mut replica = Replica::new();
        let reaction = replica.recover(&mut storage, 0)?;
        assert!(rt; seen_in(Ok(reaction)) == expected && reaction.stored);
        assert!(rt; replica.status == then && replica.round == round && replica.heard.count() == 0);
        let raised = Page {
            incarnation: 5,
            ..held
        };
        assert_eq!(rt; storage.page(0), Ok(raised));
        assert_eq!(rt; storage.stores_left(0), Ok(0));
    }
    Ok(())
}

#[test]
fn a_recovery_is_refused_in_order(rt: HostRuntime) -> Result<(), Fail> {
    let last = Page {
        incarnation: 9_999,
        ..page()
    };
    let last_but_one = Page {
        incarnation: 9_998,
        ..page()
    };
    let finishing = Seen::Updates(at(2, 0), 20, true);
    let table = [
        (Status::Idle, last, 0, 0, Err(12)),
        (Status::Recovering, page(), 0, 1, Err(12)),
        (Status::Down, last, 0, 0, Err(16)),
        (Status::Down, last, 0, 1, Err(16)),
        (Status::Down, last_but_one, 0, 0, Err(17)),
        (Status::Down, last_but_one, 0, 1, Ok(finishing)),
        (Status::Down, page(), 3, 1, Err(8)),
    ];
    for (status, held, own, stores, expected) in table {
        let mut storage = storage_with(rt.alloc(), held, stores)?;
        let mut replica = replica_in(status, &[1]);
        let answer = replica.recover(&mut storage, own);
        let found = answer.map(|reaction| seen_in(Ok(reaction)));
        assert_eq!(rt; found.map_err(|why| why.number()), expected);
        if expected.is_err() {
            assert!(rt; replica.status == status && replica.heard.count() == 1);
            assert_eq!(rt; storage.page(0), Ok(held));
            assert_eq!(rt; storage.stores_left(0), Ok(stores));
        }
    }
    Ok(())
}

#[test]
fn a_refused_store_says_its_task(rt: HostRuntime) -> Result<(), Fail> {
    let mut storage = storage_with(rt.alloc(), page(), 0)?;
    let Err(ReplicaRefusal::Failed(fault)) = Replica::new().recover(&mut storage, 0) else {
        return Err(Fail::new("storage did not refuse"));
    };
    assert_eq!(rt; fault.task, Some(Task::Recovering));
    assert_eq!(rt; fault.number(), 17);
    assert_eq!(rt; fault.layer(), 0);
    assert_eq!(rt; fault.replica(), 0);
    Ok(())
}
