// Kind 1: the bid that stands for a lot.
ghost use Rattle.storage.specs.Bids.{bid_code, bid_decoded, open_bid};
ghost use Rattle.storage.specs.BidCodes;
ghost use Rattle.std.proofs.Common.{rules};

use crate::entry::Entry;
use crate::entry::buyer::Buyer;
use crate::entry::price::Price;

#[derive(Clone, Copy, PartialEq, Eq, Debug)]
pub enum Bid {
    // no bid yet: the blank entry
    Open,
    Offer { price: Price, buyer: Buyer },
    PassedIn,
    Withdrawn,
}

// A code is one of four sorts, 0 to 3, times this; an offer adds its price and buyer.
const SORT: u64 = 72_057_594_037_927_936;

impl Entry for Bid {
    const KIND: u8 = 1;

    ghost KIND = { 1 };

    ghost blank = { open_bid };

    ghost code = { bid_code };

    ghost decoded = { bid_decoded };

    ghost reads = { λ e. BidCodes.reads e };

    ghost only = { Prim.search rules };

    ghost zero = { Prim.search rules };

    ghost fits = { Prim.search rules };

    fn blank() -> Bid {
        Self::Open
    }

    fn code(&self) -> u64 {
        match *self {
            Bid::Open => 0,
            Bid::Offer { price, buyer } => {
                SORT + u64::from(price.value) * 65_536 + u64::from(buyer.value)
            }
            Bid::PassedIn => 2 * SORT,
            Bid::Withdrawn => 3 * SORT,
        }
    }

    fn decode(number: u64) -> Option<Bid> {
        match (number / SORT, number % SORT) {
            (0, 0) => Some(Bid::Open),
            (1, rest) => {
                let price = Price::new(u32::try_from(rest / 65_536).ok()?)?;
                let buyer = Buyer::new((rest % 65_536) as u16)?;
                Some(Bid::Offer { price, buyer })
            }
            (2, 0) => Some(Bid::PassedIn),
            (3, 0) => Some(Bid::Withdrawn),
            _ => None,
        }
    }
}
