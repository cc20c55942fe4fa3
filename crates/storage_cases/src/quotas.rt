// A quota over a storage, over another quota, and over more replicas than it has allowances.
use crate::storages::{fault_parts, sample};
use crate::wide::WideStorage;
use std::test::Fail;
use storage::{MemoryStorage, Page, QuotaStorage, Storage};

#[test]
fn the_smaller_number_of_stores_counts(rt: HostRuntime) -> Result<(), Fail> {
    let memory = MemoryStorage::blank(rt.alloc(), 3, 2)?;
    let mut quota = QuotaStorage::over(memory, &[1, 2, 3]);
    for (i, left) in [(0, 1), (1, 2), (2, 2)] {
        assert_eq!(rt; quota.stores_left(i), Ok(left));
    }
    // the layer: the quota's own where both are used up, and the one below where only that is
    for (i, answer) in [
        (0, Err((17, 0, 0))),
        (1, Err((17, 1, 0))),
        (2, Err((17, 2, 1))),
        (3, Err((8, 3, 0))),
    ] {
        let _ = quota.store(i, sample(1));
        let _ = quota.store(i, sample(2));
        assert_eq!(rt; fault_parts(quota.store(i, sample(3))), answer);
    }
    let memory = quota.into_below();
    assert_eq!(rt; memory.stores_left(0), Ok(1));
    assert_eq!(rt; memory.page(2), Ok(sample(2)));
    Ok(())
}

#[test]
fn layers_add_up_over_a_quota_of_a_quota(rt: HostRuntime) -> Result<(), Fail> {
    let memory = MemoryStorage::blank(rt.alloc(), 3, 1)?;
    let mut quota = QuotaStorage::over(QuotaStorage::over(memory, &[9, 0, 9]), &[0, 9, 9]);
    for (i, first, then) in [
        (0, Err((17, 0, 0)), Err((17, 0, 0))),
        (1, Err((17, 1, 1)), Err((17, 1, 1))),
        (2, Ok(()), Err((17, 2, 2))),
    ] {
        assert_eq!(rt; fault_parts(quota.store(i, sample(1))), first);
        assert_eq!(rt; fault_parts(quota.store(i, sample(2))), then);
    }
    assert_eq!(rt; quota.page(0), Ok(Page::BLANK));
    assert_eq!(rt; quota.page(2), Ok(sample(1)));
    assert_eq!(rt; quota.stores_left(2), Ok(0));
    Ok(())
}

#[test]
fn a_replica_without_an_allowance_may_not_store(rt: HostRuntime) {
    let mut quota = QuotaStorage::over(WideStorage::blank(5), &[1; 20]);
    assert_eq!(rt; quota.replicas(), 20);
    for (i, left) in [(0, 1), (14, 1), (15, 0), (19, 0)] {
        assert_eq!(rt; quota.stores_left(i), Ok(left));
        assert_eq!(rt; quota.store(i, sample(1)).is_ok(), left == 1);
        assert_eq!(rt; fault_parts(quota.store(i, sample(2))), Err((17, i, 0)));
    }
    assert_eq!(rt; fault_parts(quota.store(20, sample(1))), Err((8, 20, 0)));
    let mut short = QuotaStorage::over(quota.into_below(), &[3]);
    assert_eq!(rt; short.stores_left(0), Ok(3));
    assert_eq!(rt; fault_parts(short.store(1, sample(1))), Err((17, 1, 0)));
}
