// What each byte brings about.
ghost use Rattle.std.specs.Prelude.{◌≡◌, ℕ, List, IfOk, MatchResult};
ghost use Rattle.rehearsal.specs.Rehearsals.{is_over, rehearsed, waiting};
ghost use Rattle.rehearsal.specs.Sessions.{begun, ended, fed, input_lines, session_lines, session_of};

use crate::command::LONGEST_LINE;
use crate::rehearsal::{NoMemory, Rehearsal};
use crate::reply::Reply;
use crate::session::Session;
use std::alloc::Global;

impl Session {
    // A session in which nothing has been read. Whatever bytes are fed to it, what they print is what
    // the lines that they make print.
    #[tactic(auto, using(crate::proofs::LineCutting::lines_rehearsed))]
    pub fn new(heap: Global) -> Result<Session, NoMemory>
        ensures made { IfOk result (λ s. session_of s ≡ begun) }
        ensures lines { (input : List ℕ) → session_lines begun input ≡ rehearsed waiting (input_lines input) }
    {
        let line = Vec::with_capacity(heap, LONGEST_LINE + 1)?;
        Ok(Session {
            rehearsal: Rehearsal::Waiting,
            line,
        })
    }

    // Takes the next byte; the reply, if it ends a line that has one. A refusal for want of memory
    // changes nothing.
    pub fn feed(&mut self, heap: Global, byte: u8) -> Result<Option<Reply>, NoMemory>
        ensures { MatchResult result (λ said. fed (session_of self.old) byte ≡ (session_of self.new, said)) (λ _. session_of self.new ≡ session_of self.old) }
    {
        if byte == b'\n' {
            let reply = self.rehearsal.line(heap, &self.line)?;
            self.line.clear();
            return Ok(reply);
        }
        if self.line.len() <= LONGEST_LINE {
            self.line.push_reserved(byte);
        }
        Ok(None)
    }

    // The input is over: what follows the last line feed is a line too, and so is the lack of any.
    pub fn end(self, heap: Global) -> Result<Option<Reply>, NoMemory>
        ensures { IfOk result (λ said. said ≡ ended (session_of self)) }
    {
        let Session {
            mut rehearsal,
            line,
        } = self;
        if line.is_empty() && !rehearsal.is_waiting() {
            return Ok(None);
        }
        rehearsal.line(heap, &line)
    }

    // Whether the first line was bad, so that no line is answered any more.
    pub(crate) fn is_over(&self) -> bool
        ensures { result ≡ is_over (session_of self.now).stage }
    {
        self.rehearsal.is_over()
    }
}
