// What a bid offers, in cents a kilogram greasy: 1 to 99,999, and no other can exist as a value.
ghost use Rattle.std.specs.Prelude.{◌≤◌};

pub mod making;

// Not one generic type with Buyer: their numbers are of two types. A trait by which a clause names
// the number of either would be longer than the second struct, and a type that is generic in its
// limit alone would give both numbers one type.
#[derive(Clone, Copy, PartialEq, Eq, Debug)]
pub struct Price {
    pub value: u32,
    ghost least: { 1 ≤ value },
    ghost most: { value ≤ 99999 },
}
