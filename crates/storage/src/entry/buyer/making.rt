// Making a buyer of a number.
ghost use Rattle.std.specs.Prelude.{◌≡◌};
ghost use Rattle.storage.specs.Bids.{buyer_of};

use super::Buyer;

impl Buyer {
    pub fn new(value: u16) -> Option<Buyer>
        ensures { result ≡ buyer_of value }
    {
        if (1..=999).contains(&value) {
            Some(Buyer { value })
        } else {
            None
        }
    }
}
