// What replicas send each other.
ghost use Rattle.std.specs.Prelude.{◌≡◌};
ghost use Rattle.replica.specs.Messages.{ack, answered_with};

use storage::Stamped;

#[derive(Clone, Copy, PartialEq, Eq, Debug)]
pub enum MessageKind {
    // what is the newest entry that you have kept?
    Query,
    // this one
    Report,
    // keep this entry, if it is newer
    Update,
    // what you sent is kept, or something newer
    Ack,
}

// The operation that a message belongs to: the incarnation and the round of the replica that runs it.
// Report and Ack repeat the ticket that they respond to.
#[derive(Clone, Copy, PartialEq, Eq, Debug)]
pub struct Ticket {
    pub incarnation: u32,
    pub round: u32,
}

// Query and Ack carry the blank. The kind stands beside what is carried, and no variant holds it: a message
// of any fields can reach a replica, and a narrower type would refuse some.
#[derive(Clone, Copy, PartialEq, Eq, Debug)]
pub struct Message {
    pub kind: MessageKind,
    pub sender: u32,
    pub receiver: u32,
    pub ticket: Ticket,
    pub content: Stamped,
}

impl Message {
    // A response to this message: back to its sender, under its ticket.
    pub(crate) fn answer(&self, kind: MessageKind, content: Stamped) -> Message
        ensures { result ≡ answered_with self.now kind content }
    {
        Message {
            kind,
            sender: self.receiver,
            receiver: self.sender,
            ticket: self.ticket,
            content,
        }
    }

    // The response to an update that is kept, or not needed.
    pub(crate) fn ack(&self) -> Message
        ensures { result ≡ ack self.now }
    {
        self.answer(MessageKind::Ack, Stamped::BLANK)
    }
}
