// The steps that the calls of the whole queue take in the flight. The rings of what is pending stay as they are.
ghost use Rattle.std.specs.Prelude.{◌≡◌, suc, length, leb};
ghost use Rattle.chunk_slot.specs.Meaning.{chunk_for};
ghost use Rattle.outbound_queue.specs.Outbound.{ring_room};
ghost use Rattle.outbound_queue.specs.Calls.{flying_in, Files, Frees};

use super::OutboundQueue;
use chunk_slot::Words;

impl OutboundQueue {
    // Whether the flight has room for no more than a terminator.
    pub fn is_full(&self, cells: &[u64]) -> bool
        ensures { result ≡ leb (ring_room cells.now) (suc (length (flying_in self.now cells.now).entries)) }
    {
        let k = cells.len() / 24 * 8;
        let room = cells::room(&cells[k + k..k + k + k]);
        room <= self.inflight.len(&cells[k + k..k + k + k]) + 1
    }

    // The chunk of the words goes behind the entries, where there is room.
    pub fn file(&mut self, cells: &mut [u64], words: Words)
        ensures { Files (chunk_for words) self.old cells.old self.new cells.new }
    {
        let k = cells.len() / 24 * 8;
        self.inflight.push(&mut cells[k + k..k + k + k], words);
    }

    // Gives up the run of a message's entries around a place of the flight. The answer is the bytes that the message held there.
    pub fn give_up_entries(&mut self, cells: &mut [u64], near: usize, number: u64) -> u64
        ensures { Frees number near self.old cells.old self.new cells.new result }
    {
        let k = cells.len() / 24 * 8;
        self.inflight
            .abandon_message(&mut cells[k + k..k + k + k], near, number)
    }
}
