// The steps that writing, sending, expiry and abandonment take in what is pending. Each lends a ring or both to the crate below and leaves the
// other cells as they are; its contract says what has become of the model's sender, whatever the streams are. Those in the flight stand in
// `flight_steps`.
ghost use Rattle.std.specs.Prelude.{min};
ghost use Rattle.limits.specs.Limits.{clock_max};
ghost use Rattle.chunk_slot.specs.Meaning.{found_for};
ghost use Rattle.outbound_queue.specs.Steps.{ends_started};
ghost use Rattle.outbound_queue.specs.Calls.{Becomes, Takes, Removes, gap_closed, Joins};

use super::OutboundQueue;
use chunk_slot::Words;
use model::Message;
use pending_queue::removal::Removed;

impl OutboundQueue {
    // Starts the lifetimes of the messages not yet seen, at the ends of the rings; all are seen then. Where every message was seen, no ring is
    // looked at. A clock beyond its limit is taken as the limit.
    pub fn start_rings(&mut self, cells: &mut [u64], clock: u64)
        ensures { Becomes (ends_started (min clock clock_max)) self.old cells.old self.new cells.new }
    {
        if self.next_unstarted_message_id == self.next_message_id {
            return;
        }
        let k = cells.len() / 24 * 8;
        let first = self.next_unstarted_message_id;
        let pending = self.pending;
        pending_queue::start_timed_messages(&pending.unordered, &mut cells[0..k], clock, first);
        pending_queue::start_timed_messages(&pending.ordered, &mut cells[k..k + k], clock, first);
        self.next_unstarted_message_id = self.next_message_id;
    }

    // Takes the chunk that is sent next, as its words.
    pub fn take_head(&mut self, cells: &[u64]) -> Option<Words>
        ensures { Takes self.old cells.now self.new (found_for result) }
    {
        let k = cells.len() / 24 * 8;
        self.pending.pop(&cells[0..k], &cells[k..k + k])
    }

    // Removes the leading run of a message from each ring.
    pub fn remove_pending(&mut self, cells: &[u64], number: u64) -> Removed
        ensures { Removes number self.old cells.now self.new result.bytes result.last }
    {
        let k = cells.len() / 24 * 8;
        self.pending
            .remove_message(&cells[0..k], &cells[k..k + k], number)
    }

    // Closes the gap in a stream's SSNs behind an ordered message that leaves wholly unsent. The queue's numbers stay.
    pub fn lower_ssns(&self, cells: &mut [u64], stream: u16)
        ensures { Becomes (gap_closed stream) self.now cells.old self.now cells.new }
    {
        let k = cells.len() / 24 * 8;
        self.pending
            .compact_ordered_ssns(&mut cells[k..k + k], stream)
    }

    // A message's fragments join the back of its ring. Where there is no room for all of them, or the offset is beyond its limit, nothing
    // changes, and the answer is no.
    pub fn add_fragments(
        &mut self,
        cells: &mut [u64],
        message: Message,
        maximum: u16,
        offset: u64,
        length: u32,
    ) -> bool
        ensures { Joins message maximum offset length self.old cells.old self.new cells.new result }
    {
        let k = cells.len() / 24 * 8;
        if message.unordered {
            self.pending
                .add_fragments(&mut cells[0..k], message, maximum, offset, length)
        } else {
            self.pending
                .add_fragments(&mut cells[k..k + k], message, maximum, offset, length)
        }
    }
}
