// A place in the catalogue text: where it starts, and how long it is.
// It ends within 32 bits, and an empty one starts at 0: no other can exist as a value.
ghost use Rattle.std.specs.Prelude.{◌≡◌, ◌+◌, ◌≤◌};

pub mod making;

#[derive(Clone, Copy, PartialEq, Eq, Debug)]
pub struct Span {
    pub offset: u32,
    pub length: u32,
    ghost ends: { offset + length ≤ 4294967295 },
    ghost plain: { (length ≡ 0 → offset ≡ 0) },
}
