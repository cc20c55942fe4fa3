// A kind of entry: what a register may hold, and the 64-bit code by which it is stored and sent.
ghost use Rattle.std.specs.Prelude.{◌≡◌, ℕ, ◌^◌, ◌<◌, Some, Option};

pub mod bid;
pub mod buyer;
pub mod kind;
pub mod price;
pub mod span;

pub trait Entry: Copy {
    // The number of this kind, which no other kind has. A number and no `Kind`: whoever adds a kind brings a number
    // of its own, and a file holds this byte.
    const KIND: u8;

    ghost KIND: { ℕ };

    // the entry of a register that was never written
    ghost blank: { Self };

    // the number that stands for an entry
    ghost code: { Self → ℕ };

    // the entry that a number stands for, if it stands for one
    ghost decoded: { ℕ → Option Self };

    fn blank() -> Self
        ensures { result ≡ blank };

    fn code(&self) -> u64
        ensures { result ≡ code self.now };

    fn decode(number: u64) -> Option<Self>
        ensures { result ≡ decoded number };

    ghost reads: { (e : Self) → decoded (code e) ≡ Some e };

    ghost only: { (c : ℕ) (e : Self) → decoded c ≡ Some e → code e ≡ c };

    ghost zero: { code blank ≡ 0 };

    ghost fits: { (e : Self) → code e < 2 ^ 64 };
}
