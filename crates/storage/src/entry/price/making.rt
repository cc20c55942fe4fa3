// Making a price of a number.
ghost use Rattle.std.specs.Prelude.{◌≡◌};
ghost use Rattle.storage.specs.Bids.{price_of};

use super::Price;

impl Price {
    pub fn new(value: u32) -> Option<Price>
        ensures { result ≡ price_of value }
    {
        if (1..=99_999).contains(&value) {
            Some(Price { value })
        } else {
            None
        }
    }
}
