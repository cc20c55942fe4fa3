// A code of an entry, and when that was written.
use crate::timestamp::Timestamp;

#[derive(Clone, Copy, PartialEq, Eq, Debug)]
pub struct Stamped {
    pub timestamp: Timestamp,
    pub code: u64,
}

impl Stamped {
    // Of a register that was never written.
    pub const BLANK: Stamped = Stamped {
        timestamp: Timestamp::BLANK,
        code: 0,
    };
}
