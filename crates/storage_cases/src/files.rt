// The lot transfer file: what is refused and in which order, and pages through a file and back.
use crate::storages::fault_parts;
use std::test::Fail;
use storage::file::opening::open;
use storage::file::writing::{write, write_blank};
use storage::{
    Bid, Buyer, Entry, FileStorage, MemoryStorage, OpenRefusal, Page, Price, Span, Stamped,
    Storage, Timestamp,
};

// How many replicas a file of bids has, or the number of the refusal: here and below tests keep their values.
fn opened(bytes: &[u8]) -> Result<usize, u8> {
    open::<Bid>(bytes).map_err(|refusal| refusal.number())
}

// Writes a blank file of bids, or answers the number of the refusal.
fn written(n: usize, stores: u32, buffer: &mut [u8]) -> Result<(), u8> {
    write_blank::<Bid>(n, stores, buffer).map_err(|refusal| refusal.number())
}

// A file with one byte more than it should have.
fn three_and_one() -> [u8; 137] {
    let mut bytes = [0; 137];
    let _ = written(3, 1000, &mut bytes[0..136]);
    bytes
}

// Bytes that are put into the file of three replicas, of which so many are opened.
#[derive(Clone, Copy)]
struct Case {
    changes: &'static [(usize, u8)],
    size: usize,
    answer: Result<usize, u8>,
}

// Each refusal comes before those below it, which the same bytes give reason for too.
const REFUSED: [Case; 14] = [
    Case {
        changes: &[],
        size: 136,
        answer: Ok(3),
    },
    Case {
        changes: &[(135, 255), (28, 255), (99, 1)],
        size: 136,
        answer: Ok(3),
    },
    Case {
        changes: &[(0, 0), (1, 2), (2, 1)],
        size: 0,
        answer: Err(1),
    },
    Case {
        changes: &[(0, 0), (1, 2), (2, 1)],
        size: 3,
        answer: Err(1),
    },
    Case {
        changes: &[(0, 0), (1, 2), (4, 1)],
        size: 135,
        answer: Err(2),
    },
    Case {
        changes: &[(0, 16), (1, 2), (4, 1)],
        size: 137,
        answer: Err(2),
    },
    Case {
        changes: &[(2, 1), (1, 2), (4, 1)],
        size: 4,
        answer: Err(2),
    },
    Case {
        changes: &[(3, 1), (1, 2), (4, 1)],
        size: 135,
        answer: Err(2),
    },
    Case {
        changes: &[(1, 2), (4, 1)],
        size: 4,
        answer: Err(1),
    },
    Case {
        changes: &[(1, 2), (4, 1)],
        size: 135,
        answer: Err(1),
    },
    Case {
        changes: &[(1, 2), (4, 1)],
        size: 137,
        answer: Err(1),
    },
    Case {
        changes: &[(1, 2), (4, 1), (0, 4)],
        size: 136,
        answer: Err(1),
    },
    Case {
        changes: &[(1, 2), (4, 1)],
        size: 136,
        answer: Err(3),
    },
    Case {
        changes: &[(24, 1)],
        size: 136,
        answer: Err(4),
    },
];

// The file of three replicas with these bytes put into it.
fn changed(changes: &[(usize, u8)]) -> [u8; 137] {
    let mut bytes = three_and_one();
    for &(at, byte) in changes {
        if at < 137 {
            bytes[at] = byte;
        }
    }
    bytes
}

#[test]
fn refusals_in_order(rt: HostRuntime) {
    for case in REFUSED {
        let bytes = changed(case.changes);
        let size = case.size;
        assert!(rt; size <= 137);
        assert_eq!(rt; opened(&bytes[0..size]), case.answer);
    }
}

// The number that a change of the byte at this place is refused with: always a refusal's, and so no result.
fn refused_for(at: usize, byte: u8) -> u8 {
    match at {
        0 if byte < 1 || byte > 15 => 2,
        0 => 1,
        1 => 3,
        2 | 3 => 2,
        _ => 4,
    }
}

#[test]
fn each_byte_before_the_records(rt: HostRuntime) {
    let file = three_and_one();
    assert_eq!(rt; opened(&file[0..136]), Ok(3));
    for at in 0..28 {
        for byte in 0..=255 {
            let mut bytes = file;
            bytes[at] = byte;
            let expected = if byte == file[at] {
                Ok(3)
            } else {
                Err(refused_for(at, byte))
            };
            assert_eq!(rt; opened(&bytes[0..136]), expected);
        }
    }
}

#[test]
fn wrong_pairs_by_name(rt: HostRuntime) {
    for at in 4..28 {
        let mut bytes = three_and_one();
        bytes[at] ^= 1;
        let pair = (at - 4) / 8;
        assert_eq!(rt; open::<Bid>(&bytes[0..136]), Err(OpenRefusal::Pair(pair)));
    }
}

#[test]
fn places_of_three(rt: HostRuntime) {
    let file = three_and_one();
    let front = *b"\x03\x01\x00\x00\x1c\x00\x00\x00\x24\x00\x00\x00\x40\x00\x00\x00\
          \x24\x00\x00\x00\x64\x00\x00\x00\x24\x00\x00\x00";
    assert!(rt; file[0..28] == front[0..28]);
    assert!(rt; open::<Span>(&file[0..136]).is_err());
}

// A buffer of the exact length is filled, and one of another length stays as it was.
#[test]
fn one_to_fifteen(rt: HostRuntime) -> Result<(), Fail> {
    for n in 1..16 {
        let exact = 4 + 44 * n;
        for (size, answer) in [(exact - 1, Err(1)), (exact, Ok(())), (exact + 1, Err(1))] {
            let before = vec![in rt.alloc(); 170u8; size]?;
            let mut buffer = before.clone()?;
            assert_eq!(rt; written(n, 5, &mut buffer), answer);
            assert_eq!(rt; buffer.as_slice() == before.as_slice(), answer.is_err());
            assert_eq!(rt; open::<Bid>(&buffer).is_ok(), answer.is_ok());
        }
    }
    for n in [0, 16, 1000] {
        let before = vec![in rt.alloc(); 170u8; 136]?;
        let mut buffer = before.clone()?;
        assert_eq!(rt; written(n, 5, &mut buffer), Err(5));
        assert!(rt; buffer.as_slice() == before.as_slice());
    }
    Ok(())
}

// A page whose numbers differ from one another, and from those of another seed.
fn page_of(seed: u32) -> Page {
    let seed = seed % 16;
    Page {
        incarnation: seed + 0x0403_0200,
        written: Stamped {
            timestamp: Timestamp {
                sequence: seed + 0x1413_1210,
                replica: seed + 0x2423_2220,
            },
            code: u64::from(seed) + 0x3736_3534_3332_3130,
        },
        intended_sequence: seed + 0x4443_4240,
        intended_code: u64::from(seed) + 0x5756_5554_5352_5150,
    }
}

#[test]
fn pages_there_and_back(rt: HostRuntime) -> Result<(), Fail> {
    let mut memory = MemoryStorage::blank(rt.alloc(), 3, 0x6463_6261)?;
    memory.store(0, page_of(1))?;
    memory.store(2, page_of(2))?;
    memory.store(2, page_of(3))?;
    let mut first = [170; 136];
    assert!(rt; write::<Bid, MemoryStorage>(&memory, &mut first).is_ok());
    let file = FileStorage::take::<Bid>(first.to_vec(rt.alloc())?);
    assert_eq!(rt; file.replicas(), 3);
    for i in 0..3 {
        assert_eq!(rt; file.page(i)?, memory.page(i)?);
        assert_eq!(rt; file.stores_left(i)?, memory.stores_left(i)?);
    }
    let record = *b"\x60\x62\x63\x64\x01\x02\x03\x04\x11\x12\x13\x14\x21\x22\x23\x24\
          \x31\x31\x32\x33\x34\x35\x36\x37\x41\x42\x43\x44\x51\x51\x52\x53\
          \x54\x55\x56\x57";
    assert!(rt; first[28..64] == record[0..36]);
    let mut second = [85; 136];
    assert!(rt; write::<Bid, FileStorage>(&file, &mut second).is_ok());
    assert!(rt; second == first);
    let bytes = file.into_bytes();
    assert!(rt; bytes.as_slice() == first.as_slice());
    Ok(())
}

// The example of docs/TRANSFER_FILE.md.
#[test]
fn worked_example(rt: HostRuntime) -> Result<(), Fail> {
    let price = Price::new(1234).ok_or("no price")?;
    let buyer = Buyer::new(56).ok_or("no buyer")?;
    let code = Bid::Offer { price, buyer }.code();
    let timestamp = Timestamp {
        sequence: 7,
        replica: 1,
    };
    let page = Page {
        incarnation: 2,
        written: Stamped { timestamp, code },
        intended_sequence: 7,
        intended_code: code,
    };
    let mut memory = MemoryStorage::blank(rt.alloc(), 3, 1000)?;
    memory.store(1, page_of(1))?;
    memory.store(1, page)?;
    let mut bytes = [170; 136];
    assert!(rt; write::<Bid, MemoryStorage>(&memory, &mut bytes).is_ok());
    let expected = *b"\x03\x01\x00\x00\x1c\x00\x00\x00\x24\x00\x00\x00\x40\x00\x00\x00\
          \x24\x00\x00\x00\x64\x00\x00\x00\x24\x00\x00\x00\xe8\x03\x00\x00\
          \x00\x00\x00\x00\x00\x00\x00\x00\x00\x00\x00\x00\x00\x00\x00\x00\
          \x00\x00\x00\x00\x00\x00\x00\x00\x00\x00\x00\x00\x00\x00\x00\x00\
          \xe6\x03\x00\x00\x02\x00\x00\x00\x07\x00\x00\x00\x01\x00\x00\x00\
          \x38\x00\xd2\x04\x00\x00\x00\x01\x07\x00\x00\x00\x38\x00\xd2\x04\
          \x00\x00\x00\x01\xe8\x03\x00\x00\x00\x00\x00\x00\x00\x00\x00\x00\
          \x00\x00\x00\x00\x00\x00\x00\x00\x00\x00\x00\x00\x00\x00\x00\x00\
          \x00\x00\x00\x00\x00\x00\x00\x00";
    assert!(rt; bytes == expected);
    Ok(())
}

#[test]
fn stores_in_a_file(rt: HostRuntime) -> Result<(), Fail> {
    let mut blank = [0; 136];
    assert_eq!(rt; written(3, 2, &mut blank), Ok(()));
    let mut file = FileStorage::take::<Bid>(blank.to_vec(rt.alloc())?);
    file.store(1, page_of(4))?;
    assert_eq!(rt; file.page(1)?, page_of(4));
    assert_eq!(rt; file.stores_left(1)?, 1);
    file.store(1, page_of(5))?;
    for (i, number) in [(1, 17), (3, 8)] {
        assert_eq!(rt; fault_parts(file.store(i, page_of(6))), Err((number, i, 0)));
    }
    assert_eq!(rt; file.page(1)?, page_of(5));
    let bytes = file.into_bytes();
    assert_eq!(rt; opened(&bytes), Ok(3));
    assert!(rt; bytes.len() == 136);
    assert!(rt; bytes[0..64] == blank[0..64]);
    assert!(rt; bytes[100..136] == blank[100..136]);
    Ok(())
}

#[test]
fn refused_bytes_are_no_replicas(rt: HostRuntime) -> Result<(), Fail> {
    let file = three_and_one();
    let none = FileStorage::take::<Span>(file[0..136].to_vec(rt.alloc())?);
    assert_eq!(rt; none.replicas(), 0);
    assert!(rt; none.page(0).is_err());
    let mut buffer = [170; 4];
    let answer = write::<Span, FileStorage>(&none, &mut buffer);
    assert_eq!(rt; answer.map_err(|refusal| refusal.number()), Err(5));
    assert!(rt; buffer == [170; 4]);
    let bytes = none.into_bytes();
    assert!(rt; bytes.as_slice() == &file[0..136]);
    Ok(())
}

// The next number of a simple generator.
fn next(seed: u64) -> u64 {
    seed.wrapping_mul(6_364_136_223_846_793_005)
        .wrapping_add(1_442_695_040_888_963_407)
}

fn low(seed: u64) -> u32 {
    (seed >> 32) as u32
}

fn random_page(seed: u64) -> Page {
    let a = next(seed);
    let b = next(a);
    let c = next(b);
    Page {
        incarnation: low(a),
        written: Stamped {
            timestamp: Timestamp {
                sequence: low(b),
                replica: low(c),
            },
            code: next(c),
        },
        intended_sequence: low(next(next(c))),
        intended_code: next(next(next(c))),
    }
}

// For every number of replicas and for spans, where the pages above have known bytes.
#[test]
fn random_pages_there_and_back(rt: HostRuntime) -> Result<(), Fail> {
    let mut seed = 1;
    for n in 1..16 {
        let mut memory = MemoryStorage::blank(rt.alloc(), n, low(next(seed)))?;
        for i in 0..n {
            seed = next(seed);
            let _ = memory.store(i, random_page(seed));
        }
        let mut bytes = vec![in rt.alloc(); 170u8; 4 + 44 * n]?;
        assert!(rt; write::<Span, MemoryStorage>(&memory, &mut bytes).is_ok());
        let first = bytes.clone()?;
        let file = FileStorage::take::<Span>(bytes);
        for i in 0..n {
            assert_eq!(rt; file.page(i)?, memory.page(i)?);
            assert_eq!(rt; file.stores_left(i)?, memory.stores_left(i)?);
        }
        let mut second = vec![in rt.alloc(); 85u8; 4 + 44 * n]?;
        assert!(rt; write::<Span, FileStorage>(&file, &mut second).is_ok());
        assert!(rt; first.as_slice() == second.as_slice());
    }
    Ok(())
}
