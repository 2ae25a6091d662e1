// What is in flight: a ring of chunks in lent cells, oldest first, whose TSNs are consecutive modulo 2^32 from `oldest` on. `bytes` is
// what they hold together, and no deadline of an entry that is not abandoned is below `due`. Every value of the numbers means some flight
// (`flight_of`), so no call asks anything of its caller; that the counter is the sum and the bound is one is `Counted`, which every call keeps.
#![tactic(auto)]

pub mod asks;
pub mod marks;
pub mod overdue;

ghost use Rattle.std.specs.Prelude.{◌≡◌, ℕ, ◌+◌, ◌-◌, ◌%◌, min, List, []};
ghost use Rattle.limits.specs.Limits.{tsns};
ghost use Rattle.model.specs.State.{in_flight};
ghost use Rattle.model.specs.Flight.{found};
ghost use Rattle.cells.specs.Slots.{room_of};
ghost use Rattle.chunk_slot.specs.Meaning.{chunk_for};
ghost use Rattle.payload_queue.specs.Queue.{Becomes, Pops, flight_of, Counted, filed, due_of};

use chunk_slot::Words;
use model::Chunk;
use ring::Ring;

// The bound of a flight in which nothing can expire.
pub const NEVER: u64 = 18_446_744_073_709_551_615;

#[repr(C)]
#[derive(Clone, Copy)]
pub struct PayloadQueue {
    pub ring: Ring,
    pub oldest: u32,
    pub bytes: u64,
    pub due: u64,
}

// The number of the one message that can be both in flight and pending: the message under way.
pub type Pending = Option<u64>;

// The deadline of a chunk that is not abandoned.
fn due_of(chunk: Chunk) -> u64
    ensures { result ≡ due_of chunk }
{
    if chunk.abandoned {
        NEVER
    } else {
        chunk.message.deadline.unwrap_or(NEVER)
    }
}

// A bound that is one of the chunk too.
pub fn lowered(due: u64, chunk: Chunk) -> u64
    ensures { result ≡ min due (due_of chunk) }
{
    due.min(due_of(chunk))
}

impl PayloadQueue {
    // Nothing is in flight yet, and the first chunk that is filed takes the TSN `oldest`.
    pub fn new(oldest: u32) -> PayloadQueue
        ensures { (ws : List ℕ) → (flight_of result ws ≡ record { oldest = oldest; entries = [] }) × Counted result ws }
    {
        PayloadQueue {
            ring: Ring::default(),
            oldest,
            bytes: 0,
            due: NEVER,
        }
    }

    // Files the chunk of the words behind the others, where there is room: it takes the next TSN.
    pub fn push(&mut self, cells: &mut [u64], words: Words)
        ensures { Becomes (filed (room_of cells.old) (chunk_for words)) self.old cells.old self.new cells.new }
    {
        if self.ring.push(cells, words) {
            let length = chunk_slot::length_of(words);
            self.bytes = self.bytes.wrapping_add(length as u64);
            self.due = lowered(self.due, chunk_slot::unpack(words));
        }
    }

    // How far a TSN is behind the oldest; past the end if it is not in flight.
    pub fn place(&self, tsn: u32) -> usize
        ensures { result ≡ (tsn + tsns - self.now.oldest) % tsns }
    {
        tsn.wrapping_sub(self.oldest) as usize
    }

    pub fn get(&self, cells: &[u64], tsn: u32) -> Option<Chunk>
        ensures { result ≡ found (in_flight tsn (flight_of self.now cells.now)) }
    {
        self.ring.get(cells, self.place(tsn))
    }

    // Takes the oldest, if it has this TSN.
    pub fn pop(&mut self, cells: &[u64], tsn: u32) -> Option<Chunk>
        ensures { Pops tsn self.old cells.now self.new result }
    {
        if tsn != self.oldest {
            return None;
        }
        let chunk = self.ring.peek(cells)?;
        self.ring.drop_first(cells);
        self.oldest = self.oldest.wrapping_add(1);
        self.bytes = self.bytes.wrapping_sub(chunk.length as u64);
        Some(chunk)
    }
}
