// The calls on messages of a sender as one value: writing, lifetimes, sending, expiry and abandonment. `Does` promises what a call does in states
// that no call makes, and 01's call in every `Good` state.
ghost use Rattle.limits.specs.Limits.{room01};
ghost use Rattle.model.specs.Messages.{write};
ghost use Rattle.model.specs.Rings.{start_lifetimes, send, expire_pending, expire_pending_tail, abandon};
ghost use Rattle.model.specs.Told.{told_done, told_written, told_sent, told_expired, told_tail, told_abandoned};
ghost use Rattle.outbound_send.specs.Lean.{lean_start, lean_send};
ghost use Rattle.outbound_abandon.specs.Lean.{lean_abandon};
ghost use Rattle.outbound_abandon.specs.LeanExpiry.{lean_expire, lean_expire_tail};
ghost use Rattle.sender.specs.Value.{Leans, GoesOrStays, LeansOrStays};

use super::Sender;
use limits::Refusal;
use model::{AbandonedMessage, Chunk, ExpiredMessage, ExpiredTail};

impl Sender {
    // The caller keeps the bytes: a message is where they begin and how many they are. Refusals: 3, 6, 1, 7, 8, 9.
    pub fn write(
        &mut self,
        identifier: u16,
        protocol: u32,
        offset: u64,
        length: u64,
    ) -> Result<bool, Refusal>
        ensures { GoesOrStays told_written (write room01 identifier protocol offset length) self.old self.new result }
    {
        sender_write::write(
            &mut self.head,
            &mut self.cells,
            identifier,
            protocol,
            offset,
            length,
        )
    }

    // Starts the lifetimes of the messages not yet seen. Refusal: 1.
    pub fn start_lifetimes(&mut self, clock: u64) -> Result<(), Refusal>
        ensures { LeansOrStays told_done (lean_start clock) (start_lifetimes clock) self.old self.new result }
    {
        sender_calls::start_lifetimes(&mut self.head, &mut self.cells, clock)
    }

    // The next chunk goes to the flight. Refusals: 1; 10 where a chunk is pending.
    pub fn send(&mut self, clock: u64) -> Result<Option<(u32, Chunk)>, Refusal>
        ensures { LeansOrStays told_sent (lean_send room01 clock) (send room01 clock) self.old self.new result }
    {
        sender_calls::send(&mut self.head, &mut self.cells, clock)
    }

    // The message at the head goes if it is due, and takes no TSN. Refusal: 1.
    pub fn expire_pending(&mut self, clock: u64) -> Result<Option<ExpiredMessage>, Refusal>
        ensures { LeansOrStays told_expired (lean_expire clock) (expire_pending clock) self.old self.new result }
    {
        sender_calls::expire_pending(&mut self.head, &mut self.cells, clock)
    }

    // Abandons the message under way, if its rest has expired. Refusal: 1.
    pub fn expire_pending_tail(&mut self, clock: u64) -> Result<Option<ExpiredTail>, Refusal>
        ensures { LeansOrStays told_tail (lean_expire_tail room01 clock) (expire_pending_tail clock) self.old self.new result }
    {
        sender_calls::expire_pending_tail(&mut self.head, &mut self.cells, clock)
    }

    // Abandons the message of a TSN in flight.
    pub fn abandon(&mut self, tsn: u32) -> Option<AbandonedMessage>
        ensures { Leans told_abandoned (lean_abandon room01 tsn) (abandon tsn) self.old self.new result }
    {
        sender_calls::abandon(&mut self.head, &mut self.cells, tsn)
    }
}
