// The order of timestamps, at its ends and at ties.
use storage::Timestamp;

#[test]
fn later_is_by_sequence_and_then_by_replica(rt: HostRuntime) {
    let cases = [
        ((0, 0), (0, 0), false),
        ((0, 1), (0, 0), true),
        ((0, 0), (0, 1), false),
        ((1, 0), (0, 14), true),
        ((0, 14), (1, 0), false),
        ((999_999, 0), (999_998, 14), true),
        ((999_999, 14), (999_999, 13), true),
        ((999_999, 14), (999_999, 14), false),
        ((u32::MAX, 0), (0, u32::MAX), true),
    ];
    for ((sequence, replica), (other_sequence, other_replica), later) in cases {
        let one = Timestamp { sequence, replica };
        let other = Timestamp {
            sequence: other_sequence,
            replica: other_replica,
        };
        assert_eq!(rt; one.is_later(other), later);
        assert_eq!(rt; one > other, later);
    }
    assert_eq!(rt;
        Timestamp::BLANK,
        Timestamp {
            sequence: 0,
            replica: 0,
        }
    );
}
