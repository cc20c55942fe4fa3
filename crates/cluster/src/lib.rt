// All replicas of a register, their storage and the messages in transit, driven event by event.
#![tactic(auto)]

pub mod answer;
pub mod cluster;
pub mod event;
pub mod refusal;
pub mod transit;

pub use answer::{Answer, ClusterFault, Failure};
pub use cluster::Cluster;
pub use cluster::making::NoMemory;
pub use event::Event;
pub use refusal::Refusal;
