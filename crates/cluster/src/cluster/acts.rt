// What each event does.
ghost use Rattle.std.specs.Prelude.{◌≡◌, ◌≤◌};
ghost use Rattle.cluster.specs.Acts.{accepted, acted, began_read, broadcasted, crashed_at, delivered, dispatched, lost, received_at, recovered_at, resent_by, site_at, tried, wrote};
ghost use Rattle.cluster.specs.Laws.{Balanced, Fit};
ghost use Rattle.cluster.specs.States.{Does, setup_of, state_of};

use crate::answer::{Answer, ClusterFault};
use crate::cluster::Cluster;
use crate::event::Event;
use crate::refusal::Refusal;
use replica::{Message, Reaction, Sending, Site};
use storage::{Entry, Quorum, Storage};

// A storage that is unfit may have any number of replicas, so no invariant of a cluster bounds it: what follows
// the check of fitness requires at most 15. A struct that borrowed the cluster would state it once, and then
// each clause would have to say what the borrow ends as. `n` is given, since to ask for it wants that bound.
impl<S: Storage, Q: Quorum, E: Entry> Cluster<S, Q, E> {
    // One event. A refused one changes nothing. Transit grows by what was sent less what was taken out,
    // the stores left fall by the stores made, and a fit cluster stays fit.
    pub fn act(&mut self, event: &Event) -> Answer
        ensures does { Does S.Storage Q.Quorum E.Entry (λ u s. acted 0 u s event.now) self.old self.new result }
        ensures balance { Balanced (setup_of S.Storage Q.Quorum E.Entry self.old) (state_of S.Storage self.old) (state_of S.Storage self.new) event.now result }
        ensures fit { Fit (setup_of S.Storage Q.Quorum E.Entry self.old) (state_of S.Storage self.old) → Fit (setup_of S.Storage Q.Quorum E.Entry self.new) (state_of S.Storage self.new) }
    {
        self.act_at(event, 0)
    }

    // One event, which is at this place of a list.
    pub(crate) fn act_at(&mut self, event: &Event, at: usize) -> Answer
        ensures { Does S.Storage Q.Quorum E.Entry (λ u s. acted at u s event.now) self.old self.new result }
    {
        self.try_act(event, at).unwrap_or_else(Answer::refused)
    }

    fn try_act(&mut self, event: &Event, at: usize) -> Result<Answer, Refusal>
        ensures { Does S.Storage Q.Quorum E.Entry (λ u s. tried at u s event.now) self.old self.new result }
    {
        self.check_fitness()?;
        match *event {
            Event::Write { replica, code } => self.write(replica, code),
            Event::Read { replica } => self.read(replica),
            Event::Resend { replica } => self.resend(replica),
            Event::Deliver { place } => self.deliver(place, at),
            Event::Lose { place } => self.lose(place),
            Event::Crash { replica } => self.crash(replica),
            Event::Recover { replica } => self.recover(replica),
        }
    }

    // Where a replica stands, if there is such a replica.
    fn site(&self, i: usize) -> Result<Site, Refusal>
        requires { S.replicas self.now.storage ≤ 15 }
        ensures { result ≡ site_at (setup_of S.Storage Q.Quorum E.Entry self.now) (state_of S.Storage self.now) i }
    {
        let page = self.storage.page(i).map_err(|_| Refusal::NoSuchReplica)?;
        Ok(Site {
            own: i as u32,
            page,
        })
    }

    // How many replicas there are.
    fn replicas(&self) -> u32
        requires { S.replicas self.now.storage ≤ 15 }
        ensures { result ≡ S.replicas self.now.storage }
    {
        self.storage.replicas() as u32
    }

    // Sends what a replica sends, among n; how many found room, and how many did not.
    fn dispatch(&mut self, n: u32, sending: Option<Sending>) -> (usize, usize)
        ensures { Does S.Storage Q.Quorum E.Entry (λ _ s. dispatched n s sending) self.old self.new result }
    {
        match sending {
            None => (0, 0),
            Some(Sending::One(message)) => {
                if self.transit.send(message) {
                    (1, 0)
                } else {
                    (0, 1)
                }
            }
            Some(Sending::All(message)) => {
                let sent = self.transit.send_all(n, &message);
                (sent, n as usize - sent)
            }
        }
    }

    // The reaction of a replica, as the answer to its event.
    fn accept(&mut self, n: u32, reaction: Reaction) -> Answer
        ensures { Does S.Storage Q.Quorum E.Entry (λ _ s. accepted n s reaction) self.old self.new result }
    {
        let (sent, dropped) = self.dispatch(n, reaction.sending);
        Answer::of(reaction.outcome, sent, dropped, reaction.stored)
    }

    // Sends a message to all, which is all that comes of an event.
    fn broadcast(&mut self, n: u32, message: Message) -> Answer
        ensures { Does S.Storage Q.Quorum E.Entry (λ _ s. broadcasted n s message) self.old self.new result }
    {
        self.accept(
            n,
            Reaction {
                sending: Some(Sending::All(message)),
                outcome: None,
                stored: false,
            },
        )
    }

    // A replica begins a write.
    fn write(&mut self, i: usize, code: u64) -> Result<Answer, Refusal>
        requires { S.replicas self.old.storage ≤ 15 }
        ensures { Does S.Storage Q.Quorum E.Entry (λ u s. wrote u s i code) self.old self.new result }
    {
        let site = self.site(i)?;
        if E::decode(code).is_none() {
            return Err(Refusal::NotOfKind);
        }
        let query = self.records[i].write(&site, code)?;
        Ok(self.broadcast(self.replicas(), query))
    }

    // A replica begins a read.
    fn read(&mut self, i: usize) -> Result<Answer, Refusal>
        requires { S.replicas self.old.storage ≤ 15 }
        ensures { Does S.Storage Q.Quorum E.Entry (λ u s. began_read u s i) self.old self.new result }
    {
        let site = self.site(i)?;
        let query = self.records[i].read(&site)?;
        Ok(self.broadcast(self.replicas(), query))
    }

    // A replica sends its round's message again.
    fn resend(&mut self, i: usize) -> Result<Answer, Refusal>
        requires { S.replicas self.old.storage ≤ 15 }
        ensures { Does S.Storage Q.Quorum E.Entry (λ u s. resent_by u s i) self.old self.new result }
    {
        let site = self.site(i)?;
        let message = self.records[i].resend(&site)?;
        Ok(self.broadcast(self.replicas(), message))
    }

    // A replica goes down.
    fn crash(&mut self, i: usize) -> Result<Answer, Refusal>
        requires { S.replicas self.old.storage ≤ 15 }
        ensures { Does S.Storage Q.Quorum E.Entry (λ u s. crashed_at u s i) self.old self.new result }
    {
        let _ = self.site(i)?;
        self.records[i].crash()?;
        Ok(Answer::QUIET)
    }

    // A replica comes back.
    fn recover(&mut self, i: usize) -> Result<Answer, Refusal>
        requires { S.replicas self.old.storage ≤ 15 }
        ensures { Does S.Storage Q.Quorum E.Entry (λ u s. recovered_at u s i) self.old self.new result }
    {
        let site = self.site(i)?;
        let reaction = self.records[i].recover(&mut self.storage, site.own)?;
        Ok(self.accept(self.replicas(), reaction))
    }

    // The message at a place is lost.
    fn lose(&mut self, place: usize) -> Result<Answer, Refusal>
        ensures { Does S.Storage Q.Quorum E.Entry (λ _ s. lost s place) self.old self.new result }
    {
        let _ = self.transit.take(place).ok_or(Refusal::NoMessage)?;
        Ok(Answer::QUIET)
    }

    // The message at a place reaches its receiver. A fault says at which place of a list the event is.
    fn deliver(&mut self, place: usize, event: usize) -> Result<Answer, Refusal>
        requires { S.replicas self.old.storage ≤ 15 }
        ensures { Does S.Storage Q.Quorum E.Entry (λ u s. delivered event u s place) self.old self.new result }
    {
        let message = self.transit.take(place).ok_or(Refusal::NoMessage)?;
        Ok(
            self.receive(&message)
                .unwrap_or_else(|fault| Answer::failed(fault.replica, event)),
        )
    }

    // A message reaches its receiver; one to no replica is ignored. The fault is made of the replica's by `?`, at
    // place 0: the caller knows the place.
    fn receive(&mut self, message: &Message) -> Result<Answer, ClusterFault>
        requires { S.replicas self.old.storage ≤ 15 }
        ensures { Does S.Storage Q.Quorum E.Entry (λ u s. received_at u s message.now) self.old self.new result }
    {
        let receiver = message.receiver as usize;
        if receiver >= self.storage.replicas() {
            return Ok(Answer::QUIET);
        }
        let reaction = self.records[receiver].receive(&mut self.storage, &self.quorum, message)?;
        Ok(self.accept(self.replicas(), reaction))
    }
}
