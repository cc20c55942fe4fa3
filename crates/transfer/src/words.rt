// Entries, timestamps, faults and refusals in words that a clerk can read. The numbers of refusals stand in the
// words: to ask for each would be one more argument of each.
ghost use Rattle.std.specs.Prelude.{Some};
ghost use Rattle.transfer.specs.Words.{bid_words, fault_words, open_words, reason_words, span_words, timestamp_words, write_words};

use std::fmt;
use storage::{Bid, Entry, OpenRefusal, Reason, Span, StorageFault, Timestamp, WriteRefusal};

// What is to be printed in words.
#[derive(Clone, Copy)]
pub struct InWords<T>(pub T);

// A kind of entry, and what its entries are called. Not a bound of the trait: `where InWords<Self>: Display`
// there would not be implied at its uses.
pub trait Worded: Entry {
    const NAME: &'static str;
}

impl Worded for Bid {
    const NAME: &'static str = "bid";
}

impl Worded for Span {
    const NAME: &'static str = "span";
}

impl fmt::Display for InWords<Bid> {
    ghost output = { λ b. Some (bid_words b.0) };

    fn fmt<W: fmt::Write>(&self, f: &mut fmt::Formatter<W>) -> fmt::Result {
        match self.0 {
            Bid::Open => f.write_str("open"),
            Bid::Offer { price, buyer } => {
                let cents = price.value;
                let who = buyer.value;
                write!(f, "{cents} cents a kilogram by buyer {who}")
            }
            Bid::PassedIn => f.write_str("passed in"),
            Bid::Withdrawn => f.write_str("withdrawn"),
        }
    }
}

impl fmt::Display for InWords<Span> {
    ghost output = { λ s. Some (span_words s.0) };

    fn fmt<W: fmt::Write>(&self, f: &mut fmt::Formatter<W>) -> fmt::Result {
        let length = self.0.length;
        let offset = self.0.offset;
        write!(f, "{length} bytes from {offset}")
    }
}

impl fmt::Display for InWords<Timestamp> {
    ghost output = { λ t. Some (timestamp_words t.0) };

    fn fmt<W: fmt::Write>(&self, f: &mut fmt::Formatter<W>) -> fmt::Result {
        let sequence = self.0.sequence;
        let replica = self.0.replica;
        write!(f, "{sequence}.{replica}")
    }
}

impl fmt::Display for InWords<Reason> {
    ghost output = { λ r. Some (reason_words r.0) };

    fn fmt<W: fmt::Write>(&self, f: &mut fmt::Formatter<W>) -> fmt::Result {
        match self.0 {
            Reason::NoSuchReplica => f.write_str("8 no such office"),
            Reason::NoStoresLeft => f.write_str("17 no store left"),
        }
    }
}

impl fmt::Display for InWords<StorageFault> {
    ghost output = { λ f. Some (fault_words f.0) };

    fn fmt<W: fmt::Write>(&self, f: &mut fmt::Formatter<W>) -> fmt::Result {
        let reason = InWords(self.0.reason);
        let replica = self.0.replica;
        let layer = self.0.layer;
        write!(f, "{reason}: office {replica}, layer {layer}")
    }
}

impl fmt::Display for InWords<OpenRefusal> {
    ghost output = { λ r. Some (open_words r.0) };

    fn fmt<W: fmt::Write>(&self, f: &mut fmt::Formatter<W>) -> fmt::Result {
        match self.0 {
            OpenRefusal::Length => f.write_str("1 not of exact length"),
            OpenRefusal::Header => f.write_str("2 header"),
            OpenRefusal::Kind => f.write_str("3 kind number"),
            OpenRefusal::Pair(pair) => write!(f, "4 pair {pair}"),
        }
    }
}

impl fmt::Display for InWords<WriteRefusal> {
    ghost output = { λ r. Some (write_words r.0) };

    fn fmt<W: fmt::Write>(&self, f: &mut fmt::Formatter<W>) -> fmt::Result {
        match self.0 {
            WriteRefusal::Length => f.write_str("1 not of exact length"),
            WriteRefusal::ReplicaCount => f.write_str("5 not 1 to 15 offices"),
        }
    }
}
