// The lowest layer of the register: entries, timestamps, pages, stable storage, the
// transfer file and quorums.
#![tactic(auto)]

pub mod entry;
pub mod fault;
pub mod file;
pub mod page;
pub mod quorum;
pub mod replica_set;
pub mod stable;
pub mod stamped;
pub mod timestamp;
pub mod worked_cases;

pub use entry::Entry;
pub use entry::bid::Bid;
pub use entry::buyer::Buyer;
pub use entry::kind::{Kind, NoSuchKind};
pub use entry::price::Price;
pub use entry::span::Span;
pub use fault::{Reason, StorageFault};
pub use file::opening::OpenRefusal;
pub use file::taken::FileStorage;
pub use file::writing::WriteRefusal;
pub use page::Page;
pub use quorum::majority::Majority;
pub use quorum::refusal::QuorumRefusal;
pub use quorum::weighted::Weighted;
pub use quorum::{Quorum, shared_replica};
pub use replica_set::ReplicaSet;
pub use stable::Storage;
pub use stable::memory::MemoryStorage;
pub use stable::quota::QuotaStorage;
pub use stamped::Stamped;
pub use timestamp::Timestamp;
