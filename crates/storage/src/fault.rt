// How stable storage refuses.
ghost use Rattle.std.specs.Prelude.{◌≡◌};
ghost use Rattle.storage.specs.Faults.{fault_number, lifted, refused};

// Why; the discriminant is the number of the refusal.
#[derive(Clone, Copy, PartialEq, Eq, Debug)]
pub enum Reason {
    NoSuchReplica = 8,
    NoStoresLeft = 17,
}

// Why, for which replica, and by which layer: 0 is the storage that was called, and each
// storage under it one more, at most 255.
#[derive(Clone, Copy, PartialEq, Eq, Debug)]
pub struct StorageFault {
    pub reason: Reason,
    pub replica: usize,
    pub layer: u8,
}

impl StorageFault {
    // A method and no conversion: callers name it, and a `From` beside it would say the same twice. No trait
    // has it for all refusals, since no function takes any refusal.
    pub fn number(self) -> u8
        ensures { result ≡ fault_number self }
    {
        self.reason as u8
    }

    // A fault of the storage that was called, for this replica.
    pub fn new(reason: Reason, replica: usize) -> StorageFault
        ensures { result ≡ refused reason replica }
    {
        StorageFault {
            reason,
            replica,
            layer: 0,
        }
    }

    // The same fault, as the storage above the one that met it passes it on.
    pub(crate) fn from_below(self) -> StorageFault
        ensures { result ≡ lifted self }
    {
        StorageFault {
            layer: self.layer.saturating_add(1),
            ..self
        }
    }
}
