// What one replica keeps on stable storage.
use crate::stamped::Stamped;

#[derive(Clone, Copy, PartialEq, Eq, Debug)]
pub struct Page {
    // how often the replica began to recover
    pub incarnation: u32,
    // the newest entry that it has kept, and when that was written
    pub written: Stamped,
    // The last write that it began itself; the replica of its timestamp is its own.
    // 0 where none is intended, and no Option: any 36 bytes of a file are a page, with a code
    // beside sequence 0 too, and go back as they came.
    pub intended_sequence: u32,
    pub intended_code: u64,
}

impl Page {
    // The page of a replica that never stored one: all 0.
    pub const BLANK: Page = Page {
        incarnation: 0,
        written: Stamped::BLANK,
        intended_sequence: 0,
        intended_code: 0,
    };
}
