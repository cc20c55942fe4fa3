// What can be asked of a cluster; nothing changes. An unfit storage or quorum refuses every question.
ghost use Rattle.std.specs.Prelude.{◌≡◌, Ok, Err, if◌then◌else◌, nat_lt};
ghost use Rattle.cluster.specs.Questions.{asked, counted, message_at, newest_to, status_of};
ghost use Rattle.cluster.specs.declared.refusal.Refusal.TheVariants.{NoSuchReplica};
ghost use Rattle.cluster.specs.States.{setup_of, state_of};

use crate::cluster::Cluster;
use crate::refusal::Refusal;
use replica::{Message, Status};
use storage::{Entry, Quorum, Storage};

impl<S: Storage, Q: Quorum, E: Entry> Cluster<S, Q, E> {
    // How many messages are in transit.
    pub fn in_transit(&self) -> Result<usize, Refusal>
        ensures { result ≡ counted (setup_of S.Storage Q.Quorum E.Entry self.now) (state_of S.Storage self.now) }
    {
        self.check_fitness()?;
        Ok(self.transit.count())
    }

    // The message at a place.
    pub fn message(&self, place: usize) -> Result<Message, Refusal>
        ensures { result ≡ message_at (setup_of S.Storage Q.Quorum E.Entry self.now) (state_of S.Storage self.now) place }
    {
        self.check_fitness()?;
        self.transit.message(place).ok_or(Refusal::NoMessage)
    }

    // The status of a replica.
    pub fn status(&self, i: usize) -> Result<Status, Refusal>
        ensures { result ≡ status_of (setup_of S.Storage Q.Quorum E.Entry self.now) (state_of S.Storage self.now) i }
    {
        self.check_replica(i)?;
        Ok(self.records[i].status)
    }

    // The newest message in transit to a replica, or none.
    pub fn newest_to(&self, i: usize) -> Result<Option<Message>, Refusal>
        ensures { result ≡ newest_to (setup_of S.Storage Q.Quorum E.Entry self.now) (state_of S.Storage self.now) i }
    {
        self.check_replica(i)?;
        Ok(self.transit.newest_to(i))
    }

    // Refused where the cluster is unfit, or has no such replica.
    fn check_replica(&self, i: usize) -> Result<(), Refusal>
        ensures { result ≡ asked (setup_of S.Storage Q.Quorum E.Entry self.now) (state_of S.Storage self.now) (if nat_lt i (S.replicas self.now.storage) then Ok tt else Err NoSuchReplica) }
    {
        self.check_fitness()?;
        if i >= self.storage.replicas() {
            return Err(Refusal::NoSuchReplica);
        }
        Ok(())
    }
}
