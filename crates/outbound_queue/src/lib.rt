// What is pending and what is in flight, together: a record, and the two rings and the flight in one lent slice, a third each.
// `sender_of` of specs/ reads the model's sender from them, for streams that the queue does not know, and each contract is an equation with
// the model's call, for every record and every cells. What is asked of it stands in `asks`, and in `steps` and `flight_steps` what
// the calls of `outbound_send` and `outbound_abandon` are made of.
#![tactic(auto)]

pub mod asks;
pub mod flight_steps;
pub mod steps;

ghost use Rattle.std.specs.Prelude.{◌≡◌, List, ℕ};
ghost use Rattle.model.specs.declared.Stream.{Stream};
ghost use Rattle.model.specs.State.{fresh, with_streams};
ghost use Rattle.model.specs.Flight.{acknowledge, pop, mark_all};
ghost use Rattle.outbound_queue.specs.Outbound.{sender_of, Counted};
ghost use Rattle.outbound_queue.specs.Calls.{Goes, Becomes};

use model::{Chunk, Stream};
use payload_queue::PayloadQueue;
use pending_queue::PendingQueue;

#[repr(C)]
#[derive(Clone, Copy)]
pub struct OutboundQueue {
    pub pending: PendingQueue,
    pub inflight: PayloadQueue,
    pub next_message_id: u64,
    pub next_unstarted_message_id: u64,
}

impl OutboundQueue {
    // Nothing is pending or in flight, whatever the cells are; the first chunk takes the TSN `tsn`, the first message the number `number`.
    pub fn new(tsn: u32, number: u64) -> Self
        ensures { (ts : List Stream) (ws : List ℕ) → (sender_of ts result ws ≡ with_streams ts (fresh tsn number)) × Counted result ws }
    {
        OutboundQueue {
            pending: PendingQueue::new(),
            inflight: PayloadQueue::new(tsn),
            next_message_id: number,
            next_unstarted_message_id: number,
        }
    }

    // ---- the flight alone

    // Takes the oldest, if it has this TSN.
    pub fn pop(&mut self, cells: &[u64], tsn: u32) -> Option<Chunk>
        ensures { Goes (pop tsn) self.old cells.now self.new cells.now result }
    {
        let k = cells.len() / 24 * 8;
        self.inflight.pop(&cells[k + k..k + k + k], tsn)
    }

    // The bytes that the entry held.
    pub fn mark_as_acked(&mut self, cells: &mut [u64], tsn: u32) -> u32
        ensures { Goes (acknowledge tsn) self.old cells.old self.new cells.new result }
    {
        let k = cells.len() / 24 * 8;
        self.inflight
            .mark_as_acked(&mut cells[k + k..k + k + k], tsn)
    }

    // Every entry that is neither acknowledged nor abandoned is to be retransmitted. The queue's numbers stay.
    pub fn mark_all_to_retransmit(&self, cells: &mut [u64])
        ensures { Becomes mark_all self.now cells.old self.now cells.new }
    {
        let k = cells.len() / 24 * 8;
        self.inflight
            .mark_all_to_retransmit(&mut cells[k + k..k + k + k])
    }
}
