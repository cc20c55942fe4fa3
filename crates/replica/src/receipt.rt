// A message reaches its receiver: the step, and what storage and quorum are asked around it.
ghost use Rattle.std.specs.Prelude.{◌≡◌};
ghost use Rattle.replica.specs.Effects.{Performs, place, site_in, store_at};
ghost use Rattle.replica.specs.Receipts.{acknowledged, followed, kept_if, queried, reader_updates, received, writer_updates};

use crate::fault::{Cause, ReplicaFault, Task};
use crate::message::{Message, MessageKind};
use crate::reaction::{Outcome, Reaction};
use crate::record::{Replica, Status};
use crate::site::Site;
use crate::step::Step;
use storage::{Page, Quorum, Stamped, Storage, Timestamp};

impl Replica {
    // A message reaches this replica, which is its receiver. A fault ends the event: nothing is
    // stored or sent, and a write that could not note its intention is over.
    pub fn receive<S: Storage, Q: Quorum>(
        &mut self,
        storage: &mut S,
        quorum: &Q,
        message: &Message,
    ) -> Result<Reaction, ReplicaFault>
        ensures { Performs S.Storage message.now.receiver (received (Q.enough quorum.now) (place S.Storage storage.old (site_in S.Storage storage.old message.now.receiver)) self.old message.now) storage.old storage.new self.new result }
    {
        let Ok(page) = storage.page(message.receiver as usize) else {
            return Ok(Reaction::NOTHING);
        };
        let step = self.step(&page, message);
        let own = message.receiver;
        self.follow(step, storage, quorum, &Site { own, page }, message)
    }

    // Does what the step said. Storage and site are two parameters here and below: a struct that held the
    // borrow of storage would ask a clause more of each function.
    fn follow<S: Storage, Q: Quorum>(
        &mut self,
        step: Step,
        storage: &mut S,
        quorum: &Q,
        site: &Site,
        message: &Message,
    ) -> Result<Reaction, ReplicaFault>
        ensures { Performs S.Storage site.now.own (followed step (Q.enough quorum.now) (place S.Storage storage.old site.now) self.old message.now) storage.old storage.new self.new result }
    {
        match step {
            Step::Ignore => Ok(Reaction::NOTHING),
            Step::Report => {
                let report = message.answer(MessageKind::Report, site.page.written);
                Ok(Reaction::reply(report, false))
            }
            Step::Acknowledge => Ok(Reaction::reply(message.ack(), false)),
            Step::Keep => self.keep(storage, site, message),
            Step::HearReport => self.end_query(storage, quorum, site),
            Step::HearAck => Ok(self.end_update(quorum)),
        }
    }

    // Stores an update, and only then acknowledges it.
    fn keep<S: Storage>(
        &mut self,
        storage: &mut S,
        site: &Site,
        message: &Message,
    ) -> Result<Reaction, ReplicaFault>
        ensures { Performs S.Storage site.now.own (kept_if (store_at (place S.Storage storage.old site.now)) (place S.Storage storage.old site.now) self.old message.now) storage.old storage.new self.new result }
    {
        let new = Page {
            written: message.content,
            ..site.page
        };
        storage
            .store(site.own as usize, new)
            .map_err(|fault| ReplicaFault::at(Task::KeepingUpdate, fault))?;
        Ok(Reaction::reply(message.ack(), true))
    }

    // Once enough replicas have reported, the query is over.
    fn end_query<S: Storage, Q: Quorum>(
        &mut self,
        storage: &mut S,
        quorum: &Q,
        site: &Site,
    ) -> Result<Reaction, ReplicaFault>
        ensures { Performs S.Storage site.now.own (queried (Q.enough quorum.now) (place S.Storage storage.old site.now) self.old) storage.old storage.new self.new result }
    {
        if !quorum.is_quorum(&self.heard) {
            return Ok(Reaction::NOTHING);
        }
        match self.status {
            Status::QueryingToRead => Ok(self.update_best(site)),
            _ => self.update_intended(storage, site),
        }
    }

    // A reader updates all with the best that was reported.
    fn update_best(&mut self, site: &Site) -> Reaction
        ensures { reader_updates site.now.own site.now.page self.old ≡ (self.new, result) }
    {
        *self = Replica::opening(
            Status::UpdatingRead,
            self.round.saturating_add(1),
            self.best,
            self.write_code,
        );
        Reaction::update(self.update(site), false)
    }

    // A writer stores its timestamp and code as intended, and updates all with them.
    fn update_intended<S: Storage>(
        &mut self,
        storage: &mut S,
        site: &Site,
    ) -> Result<Reaction, ReplicaFault>
        ensures { Performs S.Storage site.now.own (writer_updates (place S.Storage storage.old site.now) self.old) storage.old storage.new self.new result }
    {
        self.status = Status::Idle;
        if self.best.timestamp.sequence >= Timestamp::LAST_SEQUENCE {
            return Err(ReplicaFault {
                cause: Cause::SequenceUsedUp { replica: site.own },
                task: Some(Task::NotingIntention),
            });
        }
        let timestamp = Timestamp {
            sequence: self.best.timestamp.sequence + 1,
            replica: site.own,
        };
        let code = self.write_code;
        let new = Page {
            intended_sequence: timestamp.sequence,
            intended_code: code,
            ..site.page
        };
        storage
            .store(site.own as usize, new)
            .map_err(|fault| ReplicaFault::at(Task::NotingIntention, fault))?;
        let round = self.round.saturating_add(1);
        let chosen = Stamped { timestamp, code };
        *self = Replica::opening(Status::UpdatingWrite, round, chosen, code);
        Ok(Reaction::update(self.update(site), true))
    }

    // Once enough replicas have acknowledged, the operation is finished.
    fn end_update<Q: Quorum>(&mut self, quorum: &Q) -> Reaction
        ensures { acknowledged (Q.enough quorum.now) self.old ≡ (self.new, result) }
    {
        if !quorum.is_quorum(&self.heard) {
            return Reaction::NOTHING;
        }
        let outcome = match self.status {
            Status::UpdatingWrite => Outcome::Written(self.best.timestamp),
            Status::UpdatingRead => Outcome::Read(self.best),
            _ => Outcome::Recovered,
        };
        self.status = Status::Idle;
        Reaction::end(outcome, false)
    }
}
