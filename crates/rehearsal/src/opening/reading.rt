// Reading the first line.
ghost use Rattle.std.specs.Prelude.{◌≡◌};
ghost use Rattle.rehearsal.specs.Openings.{opening_of, within_range};

use crate::command::LONGEST_LINE;
use crate::number::number;
use crate::opening::Opening;
use crate::part::split_at_space;
use storage::Kind;

// What the first line says, if it is one. A function and no TryFrom: there is no error to name.
pub fn opening_of(line: &[u8]) -> Option<Opening>
    ensures { result ≡ opening_of line.now }
{
    if line.len() > LONGEST_LINE {
        return None;
    }
    let (replicas, rest) = split_at_space(line);
    let (kind, stores) = split_at_space(rest);
    within_range(number(replicas)?, number(kind)?, number(stores)?)
}

// 1 to 15 replicas, the number of a kind, and stores of 32 bits.
fn within_range(replicas: u64, kind: u64, stores: u64) -> Option<Opening>
    ensures { result ≡ within_range replicas kind stores }
{
    // asked here too, for want of an opening
    if !(1..=15).contains(&replicas) {
        return None;
    }
    Some(Opening {
        replicas: replicas as usize,
        kind: Kind::try_from(kind).ok()?,
        stores: u32::try_from(stores).ok()?,
    })
}
