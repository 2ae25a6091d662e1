// The calls on the flight of a sender as one value.
ghost use Rattle.std.specs.Prelude.{◌≡◌};
ghost use Rattle.limits.specs.Limits.{room01};
ghost use Rattle.model.specs.Flight.{acknowledge, pop, mark_all};
ghost use Rattle.model.specs.Sacks.{sack};
ghost use Rattle.model.specs.Told.{told_found, told_sacked, tells_number};
ghost use Rattle.sender.specs.Value.{state_of, Sums, Goes, GoesOrStays};
ghost use Rattle.outbound_abandon.specs.LeanListing.{Lists};

use super::Sender;
use limits::Refusal;
use model::Chunk;

impl Sender {
    // The entry of a TSN is acknowledged, and holds nothing from then on. The answer is the bytes that it held.
    pub fn acknowledge(&mut self, tsn: u32) -> u32
        ensures { Goes tells_number (acknowledge tsn) self.old self.new result }
    {
        sender_calls::flight::acknowledge(&mut self.head, &mut self.cells, tsn)
    }

    // Takes the oldest entry, if it has this TSN.
    pub fn pop(&mut self, tsn: u32) -> Option<Chunk>
        ensures { Goes told_found (pop tsn) self.old self.new result }
    {
        sender_calls::flight::pop(&mut self.head, &self.cells, tsn)
    }

    // Reads the peer's SACK, of exactly the chunk's bytes: the covered prefix is acknowledged and popped, then the blocks are acknowledged. In
    // this order: 13; stale; 14.
    pub fn handle_sack(&mut self, packet: &[u8]) -> Result<Option<u64>, Refusal>
        ensures { GoesOrStays told_sacked (sack room01 packet.now) self.old self.new result }
    {
        sender_calls::flight::sack(&mut self.head, &mut self.cells, packet)
    }

    // Every entry that is neither acknowledged nor abandoned is to be retransmitted.
    pub fn mark_all(&mut self)
        ensures { (state_of self.new ≡ mark_all (state_of self.old)) × (Sums self.old → Sums self.new) }
    {
        sender_calls::flight::mark_all(&self.head, &mut self.cells)
    }

    // The TSNs in flight whose message has expired, in the front of the lent list; the rest of that stays. Refusals: 1, 11. The sender stays as
    // it is, and with it the bound of the deadlines.
    pub fn expired_inflight(&self, clock: u64, out: &mut [u32]) -> Result<usize, Refusal>
        ensures { Lists (Sums self.now) room01 clock self.now.head.queue.inflight.due (state_of self.now) out.old out.new result }
    {
        let mut head = self.head;
        sender_calls::flight::expired_inflight(&mut head, &self.cells, clock, out)
    }
}
