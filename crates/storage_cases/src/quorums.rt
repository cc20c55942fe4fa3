// What the rules answer at the ends of their ranges.
use std::test::Fail;
use storage::{Majority, Quorum, QuorumRefusal, ReplicaSet, Weighted, shared_replica};

// The set of these members; the tests of replicas, in another crate, make theirs in place.
fn set_of(members: &[usize]) -> ReplicaSet {
    let mut set = ReplicaSet::empty();
    for member in members {
        set.insert(*member);
    }
    set
}

// Whether a rule takes a set for a quorum, or the number of the refusal where no rule was made: tests keep their
// values.
fn says<Q: Quorum + Copy>(made: Result<Q, QuorumRefusal>, members: &[usize]) -> Result<bool, u8> {
    let rule = made.map_err(|refusal| refusal.number())?;
    Ok(rule.is_quorum(&set_of(members)))
}

#[test]
fn majorities(rt: HostRuntime) {
    let table: [(usize, &[usize], Result<bool, u8>); 11] = [
        (0, &[0], Err(5)),
        (1, &[], Ok(false)),
        (1, &[0], Ok(true)),
        (1, &[1, 2, 14, 15], Ok(false)),
        (2, &[1], Ok(false)),
        (2, &[0, 1], Ok(true)),
        (4, &[0, 1, 4, 5], Ok(false)),
        (4, &[0, 1, 2], Ok(true)),
        (15, &[0, 1, 2, 3, 4, 5, 6], Ok(false)),
        (15, &[7, 8, 9, 10, 11, 12, 13, 14], Ok(true)),
        (16, &[0], Err(5)),
    ];
    for (replicas, members, answer) in table {
        assert_eq!(rt; says(Majority::new(replicas), members), answer);
    }
}

#[test]
fn weights(rt: HostRuntime) {
    let table: [(&[u8], &[usize], Result<bool, u8>); 12] = [
        (&[], &[0], Err(5)),
        (&[0], &[0], Err(10)),
        (&[1], &[0], Ok(true)),
        (&[1], &[1], Ok(false)),
        (&[0, 1], &[0], Ok(false)),
        (&[0, 1], &[1], Ok(true)),
        (&[3, 1, 1], &[0], Ok(true)),
        (&[3, 1, 1], &[1, 2], Ok(false)),
        (&[255; 15], &[0, 1, 2, 3, 4, 5, 6], Ok(false)),
        (&[255; 15], &[7, 8, 9, 10, 11, 12, 13, 14], Ok(true)),
        (&[0; 15], &[0], Err(10)),
        (&[0; 16], &[0], Err(5)),
    ];
    for (weights, members, answer) in table {
        assert_eq!(rt; says(Weighted::new(weights), members), answer);
    }
}

#[test]
fn sets(rt: HostRuntime) {
    let table: [(&[usize], usize, bool, usize); 5] = [
        (&[], 0, false, 0),
        (&[0], 0, true, 1),
        (&[14, 14], 14, true, 1),
        (&[15, 16], 15, false, 0),
        (
            &[0, 1, 2, 3, 4, 5, 6, 7, 8, 9, 10, 11, 12, 13, 14],
            7,
            true,
            15,
        ),
    ];
    for (members, replica, held, count) in table {
        let set = set_of(members);
        assert_eq!(rt; set.contains(replica), held);
        assert_eq!(rt; set.count(), count);
    }
}

#[test]
fn shared(rt: HostRuntime) -> Result<(), Fail> {
    let rule = Majority::new(4)?;
    let table: [(&[usize], &[usize], Option<usize>); 3] = [
        (&[0, 1, 2], &[1, 2, 3], Some(1)),
        (&[0, 1], &[2, 3], None),
        (&[4, 14], &[4, 14], None),
    ];
    for (one, other, replica) in table {
        assert_eq!(rt;
            shared_replica(&rule, &set_of(one), &set_of(other)),
            replica
        );
    }
    Ok(())
}
