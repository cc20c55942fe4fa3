// Beginning a write or a read, sending the present round's message again, and crashing.
ghost use Rattle.std.specs.Prelude.{◌≡◌};
ghost use Rattle.replica.specs.Messages.{query, ticket, update};
ghost use Rattle.replica.specs.Operations.{begun, crashed, resent};
ghost use Rattle.replica.specs.Records.{down};
ghost use Rattle.replica.specs.declared.record.Status.TheVariants.{QueryingToRead, QueryingToWrite};

use crate::message::{Message, MessageKind, Ticket};
use crate::record::{Replica, Status};
use crate::refusal::ReplicaRefusal;
use crate::site::Site;
use storage::Stamped;

// A register uses the rounds 0 to 999,999.
const LAST_ROUND: u32 = 999_999;

impl Replica {
    // A replica that is down.
    pub fn new() -> Replica
        ensures { result ≡ down }
    {
        Replica::opening(Status::Down, 0, Stamped::BLANK, 0)
    }

    // Begins a write of an entry's code. The Query goes to all.
    pub fn write(&mut self, site: &Site, code: u64) -> Result<Message, ReplicaRefusal>
        ensures { begun QueryingToWrite site.now.own site.now.page self.old code ≡ (self.new, result) }
    {
        self.begin(Status::QueryingToWrite, site, code)
    }

    // Begins a read. The Query goes to all.
    pub fn read(&mut self, site: &Site) -> Result<Message, ReplicaRefusal>
        ensures { begun QueryingToRead site.now.own site.now.page self.old 0 ≡ (self.new, result) }
    {
        self.begin(Status::QueryingToRead, site, 0)
    }

    fn begin(&mut self, status: Status, site: &Site, code: u64) -> Result<Message, ReplicaRefusal>
        ensures { begun status site.now.own site.now.page self.old code ≡ (self.new, result) }
    {
        match self.status {
            Status::Down => Err(ReplicaRefusal::Down),
            Status::Idle if self.round > LAST_ROUND - 2 => Err(ReplicaRefusal::RoundsUsedUp),
            Status::Idle => {
                *self = Replica::opening(status, self.round + 1, Stamped::BLANK, code);
                Ok(self.query(site))
            }
            _ => Err(ReplicaRefusal::NotIdle),
        }
    }

    // The present round's Query or Update once more, for all.
    pub fn resend(&self, site: &Site) -> Result<Message, ReplicaRefusal>
        ensures { result ≡ resent site.now.own site.now.page self.now }
    {
        match self.status {
            Status::Down => Err(ReplicaRefusal::Down),
            Status::Idle => Err(ReplicaRefusal::NothingToResend),
            Status::QueryingToWrite | Status::QueryingToRead => Ok(self.query(site)),
            Status::UpdatingWrite | Status::UpdatingRead | Status::Recovering => {
                Ok(self.update(site))
            }
        }
    }

    // The replica goes down, and forgets all but its page.
    pub fn crash(&mut self) -> Result<(), ReplicaRefusal>
        ensures { crashed self.old ≡ (self.new, result) }
    {
        if self.status == Status::Down {
            return Err(ReplicaRefusal::Down);
        }
        *self = Replica::new();
        Ok(())
    }

    // The Query of the present round.
    fn query(&self, site: &Site) -> Message
        ensures { result ≡ query site.now.own (ticket site.now.page.incarnation self.now.round) }
    {
        self.to_all(MessageKind::Query, site, Stamped::BLANK)
    }

    // The Update of the present round.
    pub(crate) fn update(&self, site: &Site) -> Message
        ensures { result ≡ update site.now.own (ticket site.now.page.incarnation self.now.round) self.now.best }
    {
        self.to_all(MessageKind::Update, site, self.best)
    }

    // A message of the present round, whose receiver is filled in for each.
    fn to_all(&self, kind: MessageKind, site: &Site, content: Stamped) -> Message
        ensures { result ≡ record { kind = kind; sender = site.now.own; receiver = 0; ticket = ticket site.now.page.incarnation self.now.round; content = content } }
    {
        Message {
            kind,
            sender: site.own,
            // until each is filled in: a second type of message would repeat all other fields
            receiver: 0,
            ticket: Ticket {
                incarnation: site.page.incarnation,
                round: self.round,
            },
            content,
        }
    }
}
