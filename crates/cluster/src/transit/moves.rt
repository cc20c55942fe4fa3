// What is done with the messages in transit.
ghost use Rattle.std.specs.Prelude.{◌≡◌, ◌≤◌, [], length, IfOk, Some, None, if◌then◌else◌, nat_lt, slice_get, slice_index_or};
ghost use Rattle.cluster.specs.Transits.{newest_of, no_message, room_in, sent_count, sent_to_all, with_sent};
ghost use Rattle.std.specs.List.{remove};

use crate::transit::Transit;
use replica::Message;
use std::alloc::{AllocError, Global};

impl Transit {
    // Nothing is in transit.
    pub(crate) fn new(heap: Global) -> Result<Transit, AllocError>
        ensures { IfOk result (λ t. t.messages.items ≡ []) }
    {
        let messages = Vec::with_capacity(heap, 96)?;
        Ok(Transit { messages })
    }

    // A message goes to the end of the list; one that finds 96 there is dropped.
    pub(crate) fn send(&mut self, message: Message) -> bool
        ensures sent { result ≡ room_in self.old.messages.items }
        ensures messages { self.new.messages.items ≡ with_sent self.old.messages.items message }
    {
        if self.messages.len() < 96 {
            self.messages.push_reserved(message);
            true
        } else {
            false
        }
    }

    // The message to each of the first n replicas, in order; how many found room.
    pub(crate) fn send_all(&mut self, n: u32, message: &Message) -> usize
        ensures messages { self.new.messages.items ≡ sent_to_all n self.old.messages.items message.now }
        ensures sent { result ≡ sent_count n self.old.messages.items message.now }
        ensures most { result ≤ n }
    {
        let before = self.count();
        // A range: each number is a receiver, and nothing is indexed.
        for receiver in 0..n {
            let _ = self.send(Message {
                receiver,
                ..*message
            });
        }
        self.count() - before
    }

    // How many messages there are.
    pub(crate) fn count(&self) -> usize
        ensures { result ≡ length self.now.messages.items }
    {
        self.messages.len()
    }

    // The message at a place, if there is one.
    pub(crate) fn message(&self, place: usize) -> Option<Message>
        ensures { result ≡ slice_get self.now.messages.items place }
    {
        self.messages.get(place).copied()
    }

    // Takes the message at a place out of transit, if there is one.
    pub(crate) fn take(&mut self, place: usize) -> Option<Message>
        ensures value { result ≡ (if nat_lt place (length self.old.messages.items) then Some (slice_index_or self.old.messages.items place no_message) else None) }
        ensures messages { self.new.messages.items ≡ (if nat_lt place (length self.old.messages.items) then remove self.old.messages.items place else self.old.messages.items) }
    {
        if place < self.messages.len() {
            Some(self.messages.remove(place))
        } else {
            None
        }
    }

    // The last message in the list to a replica, if there is one.
    pub(crate) fn newest_to(&self, i: usize) -> Option<Message>
        ensures { result ≡ newest_of i None self.now.messages.items }
    {
        self.messages
            .iter()
            .rev()
            .find(|message| message.receiver as usize == i)
            .copied()
    }
}
