// Every refusal of an event, and which of several comes first.
use crate::runs::outcome_of;
use crate::scene::register;
use cluster::Event;
use std::test::Fail;
use storage::{Bid, MemoryStorage, Page, Storage};

// The events that a new cluster of two refuses, without a store left, and the numbers.
const REFUSED: [(Event, u64); 13] = [
    (
        Event::Write {
            replica: 2,
            code: 1,
        },
        8,
    ),
    (
        Event::Write {
            replica: 1,
            code: 1,
        },
        9,
    ),
    (
        Event::Write {
            replica: 1,
            code: 0,
        },
        11,
    ),
    (Event::Read { replica: 2 }, 8),
    (Event::Read { replica: 0 }, 11),
    (
        Event::Resend {
            replica: usize::MAX,
        },
        8,
    ),
    (Event::Resend { replica: 0 }, 11),
    (Event::Crash { replica: 2 }, 8),
    (Event::Crash { replica: 0 }, 11),
    (Event::Recover { replica: 2 }, 8),
    (Event::Recover { replica: 0 }, 17),
    (Event::Deliver { place: 0 }, 14),
    (Event::Lose { place: usize::MAX }, 14),
];

#[test]
fn a_new_cluster_refuses_in_order(rt: HostRuntime) -> Result<(), Fail> {
    let storage = MemoryStorage::blank(rt.alloc(), 2, 0)?;
    let mut register = register::<_, Bid>(rt.alloc(), storage, 2)?;
    for (event, number) in REFUSED {
        assert_eq!(rt; outcome_of(&register.act(&event)), (b'x', number));
    }
    Ok(())
}

#[test]
fn an_unfit_cluster_refuses_everything(rt: HostRuntime) -> Result<(), Fail> {
    let unfit = Page {
        incarnation: 10_000,
        ..Page::BLANK
    };
    for (n, quorum, page, number) in [(2, 3, unfit, 5), (2, 2, unfit, 6), (2, 2, Page::BLANK, 8)] {
        let mut storage = MemoryStorage::blank(rt.alloc(), n, 5)?;
        storage.store(1, page)?;
        let mut register = register::<_, Bid>(rt.alloc(), storage, quorum)?;
        assert_eq!(rt;
            outcome_of(&register.act(&Event::Read { replica: 9 })),
            (b'x', number)
        );
        assert_eq!(rt; register.in_transit().is_ok(), number == 8);
        assert!(rt; register.status(9).is_err() && register.message(0).is_err());
    }
    Ok(())
}
