// Many events, into answers that the caller lends.
ghost use Rattle.std.specs.Prelude.{◌≡◌, ◌<◌, ◌≤◌, ◌++◌, length, drop, MatchResult};
ghost use Rattle.cluster.specs.Laws.{Fit};
ghost use Rattle.cluster.specs.Runs.{answers_of, ran};
ghost use Rattle.cluster.specs.States.{setup_of, state_of};
ghost use Rattle.cluster.specs.declared.refusal.Refusal.TheVariants.{ShortAnswers};

use crate::answer::Answer;
use crate::cluster::Cluster;
use crate::event::Event;
use crate::refusal::Refusal;
use storage::{Entry, Quorum, Storage};

impl<S: Storage, Q: Quorum, E: Entry> Cluster<S, Q, E> {
    // Runs a list of events and fills an answer for each. Answers are lent, so that no run wants memory.
    // Events after a refused one still run, and spare answers stay as they were. With fewer answers than
    // events nothing runs. A fit cluster stays fit.
    pub fn run(&mut self, events: &[Event], answers: &mut [Answer]) -> Result<(), Refusal>
        ensures cases { MatchResult result (λ _. (length events.now ≤ length answers.old) × (state_of S.Storage self.new ≡ ran 0 (setup_of S.Storage Q.Quorum E.Entry self.old) (state_of S.Storage self.old) events.now) × (answers.new ≡ answers_of 0 (setup_of S.Storage Q.Quorum E.Entry self.old) (state_of S.Storage self.old) events.now ++ drop (length events.now) answers.old)) (λ e. (e ≡ ShortAnswers) × (length answers.old < length events.now) × (self.new ≡ self.old) × (answers.new ≡ answers.old)) }
        ensures setup { setup_of S.Storage Q.Quorum E.Entry self.new ≡ setup_of S.Storage Q.Quorum E.Entry self.old }
        ensures fit { Fit (setup_of S.Storage Q.Quorum E.Entry self.old) (state_of S.Storage self.old) → Fit (setup_of S.Storage Q.Quorum E.Entry self.new) (state_of S.Storage self.new) }
    {
        if answers.len() < events.len() {
            return Err(Refusal::ShortAnswers);
        }
        // By index, which is the event's place: of a zip with `iter_mut` a proof knows no more than the length.
        for (k, event) in events.iter().enumerate() {
            answers[k] = self.act_at(event, k);
        }
        Ok(())
    }
}
