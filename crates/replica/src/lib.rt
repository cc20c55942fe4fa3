// One replica of the register: its record, the messages it sends and takes, and its step.
#![tactic(auto)]

pub mod fault;
pub mod message;
pub mod operation;
pub mod reaction;
pub mod receipt;
pub mod record;
pub mod recovery;
pub mod refusal;
pub mod site;
pub mod step;

pub use fault::{ReplicaFault, Task};
pub use message::{Message, MessageKind, Ticket};
pub use reaction::{Outcome, Reaction, Sending};
pub use record::{Replica, Status};
pub use refusal::ReplicaRefusal;
pub use site::Site;
pub use step::Step;
