// The kinds of entry, each with the number by which a file and a first line name it.
ghost use Rattle.std.specs.Prelude.{◌≡◌, Ok};
ghost use Rattle.storage.specs.Kinds.{kind_number, kind_of, no_kind_number};

use crate::entry::Entry;
use crate::entry::bid::Bid;
use crate::entry::span::Span;
use crate::file::opening::OpenRefusal;

#[derive(Clone, Copy, PartialEq, Eq, Debug)]
pub enum Kind {
    Bid,
    Span,
}

// A number that no kind has.
#[derive(Clone, Copy, PartialEq, Eq, Debug)]
pub struct NoSuchKind(pub u64);

impl NoSuchKind {
    // The number that users know the refusal by: that of a file of another kind.
    pub fn number(self) -> u8
        ensures { result ≡ no_kind_number self }
    {
        OpenRefusal::Kind.number()
    }
}

impl TryFrom<u64> for Kind {
    type Error = NoSuchKind;

    ghost try_from_gives = { λ number kind. kind ≡ kind_of number };

    fn try_from(number: u64) -> Result<Kind, NoSuchKind> {
        match number {
            // The numbers of Bid::KIND and Span::KIND, which are of 8 bits, and these of 64.
            1 => Ok(Kind::Bid),
            2 => Ok(Kind::Span),
            _ => Err(NoSuchKind(number)),
        }
    }
}

impl From<Kind> for u8 {
    // The number leads back to the kind.
    ghost from_gives = { λ kind number. (number ≡ kind_number kind) × (kind_of number ≡ Ok kind) };

    fn from(kind: Kind) -> u8 {
        match kind {
            Kind::Bid => Bid::KIND,
            Kind::Span => Span::KIND,
        }
    }
}
