// The first line: of what register the run is.
ghost use Rattle.std.specs.Prelude.{◌≡◌, true};
ghost use Rattle.storage.specs.Memories.{count_fits};

use storage::Kind;

pub mod reading;

#[derive(Clone, Copy, PartialEq, Eq, Debug)]
pub struct Opening {
    pub replicas: usize,
    pub kind: Kind,
    // for each replica
    pub stores: u32,
    ghost fits: { count_fits replicas ≡ true },
}
