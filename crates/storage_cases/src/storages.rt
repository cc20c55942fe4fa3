// Every refusal of a storage in memory, and what it leaves.
use std::test::Fail;
use storage::{MemoryStorage, Page, Reason, Stamped, Storage, StorageFault, Timestamp};

// A page that differs from the blank one in every field.
pub fn sample(incarnation: u32) -> Page {
    Page {
        incarnation,
        written: Stamped {
            timestamp: Timestamp {
                sequence: 7,
                replica: 2,
            },
            code: u64::MAX,
        },
        intended_sequence: u32::MAX,
        intended_code: 1,
    }
}

// The answer to a store, with the number, replica and layer of a fault in its place: tests keep their values.
pub fn fault_parts(answer: Result<(), StorageFault>) -> Result<(), (u8, usize, u8)> {
    answer.map_err(|fault| (fault.number(), fault.replica, fault.layer))
}

#[test]
fn a_storage_is_made_for_1_to_15_replicas(rt: HostRuntime) -> Result<(), Fail> {
    for n in [1, 15] {
        let storage = MemoryStorage::blank(rt.alloc(), n, 3)?;
        assert_eq!(rt; storage.replicas(), n);
        assert_eq!(rt; storage.page(0), Ok(Page::BLANK));
        assert_eq!(rt; storage.stores_left(0), Ok(3));
    }
    for n in [0, 16, usize::MAX] {
        let refusal = MemoryStorage::blank(rt.alloc(), n, 3).err();
        assert_eq!(rt; refusal.map(|refusal| refusal.number()), Some(5));
    }
    Ok(())
}

#[test]
fn a_store_takes_one_until_none_is_left(rt: HostRuntime) -> Result<(), Fail> {
    let mut storage = MemoryStorage::blank(rt.alloc(), 2, 2)?;
    for (turn, left, answer) in [(1, 1, Ok(())), (2, 0, Ok(())), (3, 0, Err((17, 1, 0)))] {
        assert_eq!(rt; fault_parts(storage.store(1, sample(turn))), answer);
        assert_eq!(rt; storage.stores_left(1), Ok(left));
        assert_eq!(rt; storage.page(1), Ok(sample(turn.min(2))));
        assert_eq!(rt; storage.page(0), Ok(Page::BLANK));
        assert_eq!(rt; storage.stores_left(0), Ok(2));
    }
    Ok(())
}

#[test]
fn a_replica_past_the_last_is_refused_before_anything_else(rt: HostRuntime) -> Result<(), Fail> {
    let mut storage = MemoryStorage::blank(rt.alloc(), 1, 0)?;
    for i in [1, 14, 15, usize::MAX] {
        let fault = StorageFault::new(Reason::NoSuchReplica, i);
        assert_eq!(rt; storage.page(i), Err(fault));
        assert_eq!(rt; storage.stores_left(i), Err(fault));
        assert_eq!(rt; fault_parts(storage.store(i, sample(1))), Err((8, i, 0)));
    }
    assert_eq!(rt; storage.page(0), Ok(Page::BLANK));
    Ok(())
}
