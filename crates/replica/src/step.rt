// What a message makes a replica do: chosen by its status and the message's kind together.
ghost use Rattle.std.specs.Prelude.{◌≡◌};
ghost use Rattle.replica.specs.Records.{hearing_report};
ghost use Rattle.replica.specs.Steps.{action, expected, noticed};

use crate::message::{Message, MessageKind};
use crate::record::{Replica, Status};
use storage::Page;

// An enum and no closure: the contract of `step` names what is chosen, and proofs go by cases on it.
#[derive(Clone, Copy, PartialEq, Eq, Debug)]
pub enum Step {
    // nothing: one of the choices, and no lack of one
    Ignore,
    // respond to a query with what the page holds as written
    Report,
    // respond to an update that the page need not keep
    Acknowledge,
    // store an update, and only then respond
    Keep,
    // a report of this round was heard: ask the quorum
    HearReport,
    // an acknowledgement of this round was heard: ask the quorum
    HearAck,
}

impl Replica {
    // Takes a message that reached this replica, whose page is `page`, and says what is to be done.
    // Neither storage nor quorum is asked here.
    pub fn step(&mut self, page: &Page, message: &Message) -> Step
        ensures chosen { result ≡ action page.now self.old message.now }
        ensures record { self.new ≡ noticed result self.old message.now }
    {
        match (self.status, message.kind) {
            (Status::Down, _) => Step::Ignore,
            (Status::Recovering, MessageKind::Query | MessageKind::Update)
                if message.sender != message.receiver => { Step::Ignore }
            (_, MessageKind::Query) => Step::Report,
            (_, MessageKind::Update)
                if message.content.timestamp.is_later(page.written.timestamp) => Step::Keep,
            (_, MessageKind::Update) => Step::Acknowledge,
            (Status::QueryingToWrite | Status::QueryingToRead, MessageKind::Report)
                if self.expects(page, message) => {
                self.hear_report(message);
                Step::HearReport
            }
            (Status::UpdatingWrite | Status::UpdatingRead | Status::Recovering, MessageKind::Ack)
                if self.expects(page, message) => {
                self.heard.insert(message.sender as usize);
                Step::HearAck
            }
            (_, _) => Step::Ignore,
        }
    }

    // Whether a response is to this round of this incarnation, and the first of its sender.
    fn expects(&self, page: &Page, message: &Message) -> bool
        ensures { result ≡ expected page.now self.now message.now }
    {
        message.ticket.incarnation == page.incarnation
            && message.ticket.round == self.round
            && !self.heard.contains(message.sender as usize)
    }

    // The sender is heard, and a later timestamp becomes best with its code.
    fn hear_report(&mut self, message: &Message)
        ensures { self.new ≡ hearing_report self.old message.now }
    {
        self.heard.insert(message.sender as usize);
        if message.content.timestamp.is_later(self.best.timestamp) {
            self.best = message.content;
        }
    }
}
