// What is pending: two rings of chunks in lent cells, and which of them the message under way is in. The numbers and flags are a value, the cells are lent,
// and `pending_in` of specs/ reads the model's `Pending` from them and from the cells, for every value at all. `bytes` is kept as the
// chunks come and go: where it was their sum (`Counted`), it is so after each call.
#![tactic(auto)]

pub mod asks;
pub mod cutting;
pub mod removal;

ghost use Rattle.std.specs.Prelude.{◌≡◌, ℕ, ◌+◌, ◌%◌, ◌^◌, ◌<◌, min, not, List};
ghost use Rattle.limits.specs.Limits.{clock_max};
ghost use Rattle.limits.specs.Flags.{is_set};
ghost use Rattle.model.specs.State.{lane_of};
ghost use Rattle.model.specs.Rings.{lane_ahead, head};
ghost use Rattle.model.specs.Flight.{found};
ghost use Rattle.chunk_slot.specs.Meaning.{chunk_for, found_for};
ghost use Rattle.ring.specs.Held.{held};
ghost use Rattle.pending_queue.specs.Queue.{under_way_of, no_pending, pending_in, Counted};
ghost use Rattle.pending_queue.specs.Fronts.{Pops};
ghost use Rattle.pending_queue.specs.Lifetimes.{started_end};

use chunk_slot::Words;
use model::Chunk;
use ring::Ring;

// `selected` says that a message has been sent in part, and `unordered_is_selected` in which ring its rest is: any byte but 0 is yes.
#[repr(C)]
#[derive(Clone, Copy, Default)]
pub struct PendingQueue {
    pub unordered: Ring,
    pub ordered: Ring,
    pub bytes: u64,
    pub selected: u8,
    pub unordered_is_selected: u8,
}

impl PendingQueue {
    // Nothing is pending, whatever the cells are.
    pub fn new() -> PendingQueue
        ensures { (unordered ordered : List ℕ) → (pending_in result unordered ordered ≡ no_pending) × Counted result unordered ordered }
    {
        PendingQueue::default()
    }

    // ---- the front

    // Whether the next chunk is the unordered front.
    fn from_unordered(&self, unordered: &[u64]) -> bool
        ensures { lane_of result ≡ lane_ahead (under_way_of (is_set self.now.selected) (is_set self.now.unordered_is_selected)) (held self.now.unordered unordered.now) }
    {
        let under_way = self.selected != 0;
        if under_way {
            self.unordered_is_selected != 0
        } else {
            0 < self.unordered.count(unordered)
        }
    }

    // The chunk that is sent next: of the message under way, else the unordered front, else the ordered one.
    pub fn peek(&self, unordered: &[u64], ordered: &[u64]) -> Option<Chunk>
        ensures { result ≡ found (head (pending_in self.now unordered.now ordered.now)) }
    {
        if self.from_unordered(unordered) {
            self.unordered.peek(unordered)
        } else {
            self.ordered.peek(ordered)
        }
    }

    // What is kept behind a chunk: the bytes without its own, and whether its message is under way.
    fn leave(&mut self, words: Words, unordered: bool)
        ensures { ((self.new.bytes + (chunk_for words).length) % 2 ^ 64 ≡ self.old.bytes) × (is_set self.new.selected ≡ not (chunk_for words).ending) × (is_set self.new.unordered_is_selected ≡ unordered) × (self.new.unordered ≡ self.old.unordered) × (self.new.ordered ≡ self.old.ordered) × (self.new.bytes < 2 ^ 64) }
    {
        let length = chunk_slot::length_of(words);
        self.bytes = self.bytes.wrapping_sub(length as u64);
        self.selected = !chunk_slot::is_ending(words) as u8;
        self.unordered_is_selected = unordered as u8;
    }

    // Takes that chunk, as its words. One that does not end its message puts this under way.
    pub fn pop(&mut self, unordered: &[u64], ordered: &[u64]) -> Option<Words>
        ensures { Pops self.old unordered.now ordered.now self.new (found_for result) }
    {
        if self.from_unordered(unordered) {
            let words = self.unordered.front(unordered)?;
            self.unordered.drop_first(unordered);
            self.leave(words, true);
            Some(words)
        } else {
            let words = self.ordered.front(ordered)?;
            self.ordered.drop_first(ordered);
            self.leave(words, false);
            Some(words)
        }
    }
}

// ---- lifetimes

// Starts the lifetimes of a ring's messages not yet seen, whose numbers are `first` and up: from the back to the first chunk of a message
// that was seen, since a ring is in the order of the numbers. A clock beyond its limit is taken as the limit.
pub fn start_timed_messages(ring: &Ring, cells: &mut [u64], clock: u64, first: u64)
    ensures { held ring.now cells.new ≡ started_end (min clock clock_max) first (held ring.now cells.old) }
{
    for i in (0..ring.count(cells)).rev() {
        if ring.nth_number(cells, i) < first {
            return;
        }
        ring.start_nth(cells, i, clock, first);
    }
}
