// When an entry was written: a sequence number and the replica that chose it.
ghost use Rattle.std.specs.Prelude.{◌≡◌};
ghost use Rattle.storage.specs.Timestamps.{later, StrictTotal};

// A register uses the sequences 0 to 999,999. A page of storage may hold any other number, so the
// type does not forbid one.
#[derive(Clone, Copy, PartialEq, Eq, PartialOrd, Ord, Debug)]
pub struct Timestamp {
    pub sequence: u32,
    pub replica: u32,
}

impl Timestamp {
    // The last sequence that a register uses.
    pub const LAST_SEQUENCE: u32 = 999_999;

    // The timestamp of a register that was never written.
    pub const BLANK: Timestamp = Timestamp {
        sequence: 0,
        replica: 0,
    };

    // Whether this timestamp comes after the other: by sequence, then by replica.
    pub fn is_later(self, other: Timestamp) -> bool
        ensures answer { result ≡ later self other }
        ensures order { StrictTotal later }
    {
        self > other
    }
}
