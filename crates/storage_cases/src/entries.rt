// Codes at both ends of every range, and just past them.
use storage::worked_cases::worked_cases;
use storage::{Bid, Buyer, Entry, Price, Span};

const SORT: u64 = 0x0100_0000_0000_0000;

#[test]
fn prices_and_buyers_keep_their_ranges(rt: HostRuntime) {
    for (cents, there) in [
        (0, false),
        (1, true),
        (99_999, true),
        (100_000, false),
        (u32::MAX, false),
    ] {
        assert_eq!(rt; Price::new(cents).is_some(), there);
    }
    for (number, there) in [
        (0, false),
        (1, true),
        (999, true),
        (1_000, false),
        (u16::MAX, false),
    ] {
        assert_eq!(rt; Buyer::new(number).is_some(), there);
    }
}

#[test]
fn a_code_is_a_bids_or_nobodys(rt: HostRuntime) {
    let codes = [
        (0, true),
        (1, false),
        (SORT - 1, false),
        (SORT, false),
        (SORT + 0x1_0000, false),
        (SORT + 1, false),
        (SORT + 0x1_0001, true),
        (0x0100_0001_869F_03E7, true),
        (0x0100_0001_869F_03E8, false),
        (0x0100_0001_86A0_0001, false),
        (2 * SORT - 1, false),
        (2 * SORT, true),
        (2 * SORT + 1, false),
        (3 * SORT, true),
        (3 * SORT + 1, false),
        (4 * SORT, false),
        (u64::MAX, false),
    ];
    for (code, there) in codes {
        assert_eq!(rt;
            Bid::decode(code).map(|bid| bid.code()),
            there.then_some(code)
        );
    }
    assert_eq!(rt; Bid::blank().code(), 0);
    assert_eq!(rt; <Bid as Entry>::KIND, 1);
}

#[test]
fn a_span_ends_within_32_bits_and_is_not_empty_past_0(rt: HostRuntime) {
    let spans = [
        (0, 0, true),
        (1, 0, false),
        (0, 1, true),
        (4_096, 300, true),
        (0, u32::MAX, true),
        (1, u32::MAX, false),
        (4_294_967_294, 1, true),
        (4_294_967_294, 2, false),
        (u32::MAX, 0, false),
        (u32::MAX, 1, false),
    ];
    for (offset, length, there) in spans {
        let code = (u64::from(offset) << 32) | u64::from(length);
        let span = Span::decode(code);
        assert_eq!(rt; span, Span::new(offset, length));
        assert_eq!(rt; span.map(|span| span.code()), there.then_some(code));
    }
    assert_eq!(rt; Span::blank().code(), 0);
    assert_eq!(rt; <Span as Entry>::KIND, 2);
}

#[test]
fn worked_cases_are_counted(rt: HostRuntime) {
    assert_eq!(rt; worked_cases(), 14);
}
