// Who made a bid: a number 1 to 999, and no other can exist as a value.
ghost use Rattle.std.specs.Prelude.{◌≤◌};

pub mod making;

// Why it is not one generic type with Price is said there.
#[derive(Clone, Copy, PartialEq, Eq, Debug)]
pub struct Buyer {
    pub value: u16,
    ghost least: { 1 ≤ value },
    ghost most: { value ≤ 999 },
}
