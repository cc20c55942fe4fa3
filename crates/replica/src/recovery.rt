// A replica that is down comes back.
ghost use Rattle.std.specs.Prelude.{◌≡◌};
ghost use Rattle.replica.specs.Effects.{Performs, place, site_in};
ghost use Rattle.replica.specs.Recoveries.{finishing, recovered};

use crate::fault::{ReplicaFault, Task};
use crate::reaction::{Outcome, Reaction};
use crate::record::{Replica, Status};
use crate::refusal::ReplicaRefusal;
use crate::site::Site;
use storage::{Page, Stamped, Storage, Timestamp};

impl Replica {
    // A register uses the incarnations 0 to 9,999.
    pub const LAST_INCARNATION: u32 = 9_999;

    // Stores the page with the next incarnation. A write that was intended is then finished: its
    // Update goes to all.
    pub fn recover<S: Storage>(
        &mut self,
        storage: &mut S,
        own: u32,
    ) -> Result<Reaction, ReplicaRefusal>
        ensures { Performs S.Storage own (recovered (place S.Storage storage.old (site_in S.Storage storage.old own)) self.old) storage.old storage.new self.new result }
    {
        if self.status != Status::Down {
            return Err(ReplicaRefusal::NotDown);
        }
        let at = |fault| ReplicaFault::at(Task::Recovering, fault);
        let held = storage.page(own as usize).map_err(at)?;
        if held.incarnation >= Replica::LAST_INCARNATION {
            return Err(ReplicaRefusal::IncarnationsUsedUp);
        }
        let page = Page {
            incarnation: held.incarnation + 1,
            ..held
        };
        storage.store(own as usize, page).map_err(at)?;
        Ok(self.finish_intended(&Site { own, page }))
    }

    // The replica is up with this page: it finishes the write that it intended, if there is one.
    fn finish_intended(&mut self, site: &Site) -> Reaction
        ensures { finishing site.now.own site.now.page ≡ (self.new, result) }
    {
        if site.page.intended_sequence == 0 {
            *self = Replica::opening(Status::Idle, 0, Stamped::BLANK, 0);
            return Reaction::end(Outcome::Recovered, true);
        }
        let timestamp = Timestamp {
            sequence: site.page.intended_sequence,
            replica: site.own,
        };
        let code = site.page.intended_code;
        *self = Replica::opening(Status::Recovering, 1, Stamped { timestamp, code }, 0);
        Reaction::update(self.update(site), true)
    }
}
