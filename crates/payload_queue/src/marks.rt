// Entries of the flight are marked where they stand: acknowledged, given up, to be retransmitted. The counter of bytes stays the sum, and the bound of
// the deadlines is still one.
ghost use Rattle.std.specs.Prelude.{◌≡◌, map};
ghost use Rattle.model.specs.State.{in_flight};
ghost use Rattle.model.specs.Flight.{to_retransmit};
ghost use Rattle.ring.specs.Held.{held};
ghost use Rattle.payload_queue.specs.Queue.{Becomes, Tells, changed, acked, held_in};
ghost use Rattle.payload_queue.specs.OneRun.{first_of, held_from, given_up_from, held_near, given_up_near};

use super::PayloadQueue;

impl PayloadQueue {
    // The answer is the bytes that the entry held. That of an unknown TSN holds nothing, and is marked nowhere.
    pub fn mark_as_acked(&mut self, cells: &mut [u64], tsn: u32) -> u32
        ensures { Tells (acked tsn) (λ f. held_in (in_flight tsn f)) self.old cells.old self.new cells.new result }
    {
        let held = self.ring.acknowledge_nth(cells, self.place(tsn));
        self.bytes = self.bytes.wrapping_sub(held as u64);
        held
    }

    // ---- the entries of a message

    // Where the run of a message's entries begins that reaches up to a place.
    fn first_of(&self, cells: &[u64], near: usize, number: u64) -> usize
        ensures { result ≡ first_of number near (held self.now.ring cells.now) }
    {
        for i in (0..near).rev() {
            if self.ring.nth_number(cells, i) != number {
                return i + 1;
            }
        }
        0
    }

    // The bytes that the run of a message's entries from a place on holds, which are given up on the way.
    fn give_up_run(&self, cells: &mut [u64], from: usize, number: u64) -> u64
        ensures { (result ≡ held_from number from (held self.now.ring cells.old)) × (held self.now.ring cells.new ≡ given_up_from number from (held self.now.ring cells.old)) }
    {
        let mut sum: u64 = 0;
        for i in from..self.len(cells) {
            if self.ring.nth_number(cells, i) != number {
                return sum;
            }
            sum += self.ring.give_up_nth(cells, i, number) as u64;
        }
        sum
    }

    // Gives up the run of a message's entries around a place, and answers the bytes that they held. In every state that calls reach a message
    // has no other entries.
    pub fn abandon_message(&mut self, cells: &mut [u64], near: usize, number: u64) -> u64
        ensures { Tells (changed (given_up_near number near)) (λ f. held_near number near f.entries) self.old cells.old self.new cells.new result }
    {
        let from = self.first_of(cells, near, number);
        let released = self.give_up_run(cells, from, number);
        self.bytes = self.bytes.wrapping_sub(released);
        released
    }

    // ---- all entries

    // Every entry that is neither acknowledged nor abandoned is to be retransmitted. The queue's numbers stay.
    pub fn mark_all_to_retransmit(&self, cells: &mut [u64])
        ensures { Becomes (changed (map to_retransmit)) self.now cells.old self.now cells.new }
    {
        // The ring's two numbers once, and not behind the reference at each turn, since the loop stores.
        let ring = self.ring;
        for i in 0..ring.count(cells) {
            ring.mark_nth(cells, i);
        }
    }
}
