// One field of the i-th chunk of a ring, or one change of it, for loops. A caller's proof goes by the list that the ring holds: a change of the
// i-th is its `adjust`.
ghost use Rattle.std.specs.Prelude.{◌≡◌, ◌+◌, ◌≤◌, min, get_or};
ghost use Rattle.limits.specs.Limits.{clock_max};
ghost use Rattle.model.specs.Lists.{adjust};
ghost use Rattle.model.specs.Rings.{given_up, lowered, started};
ghost use Rattle.model.specs.Flight.{acknowledged, to_retransmit, has_stream};
ghost use Rattle.rows.specs.Parts.{part};
ghost use Rattle.cells.specs.Slots.{room_of};
ghost use Rattle.chunk_slot.specs.Chunks.{chunks, blank_chunk};
ghost use Rattle.chunk_slot.specs.Changes.{held_of};
ghost use Rattle.ring.specs.Held.{held};
ghost use Rattle.ring.specs.Streams.{Adds};

use super::Ring;

// Whether one of the four slots from `at` on is of the stream.
fn among_four(cells: &[u64], at: usize, stream: u16) -> bool
    requires { at + 4 ≤ room_of cells.now }
    ensures { Adds stream at (at + 4) (chunks cells.now) result }
{
    chunk_slot::parts::stream_at(cells, at) == stream
        || chunk_slot::parts::stream_at(cells, at + 1) == stream
        || chunk_slot::parts::stream_at(cells, at + 2) == stream
        || chunk_slot::parts::stream_at(cells, at + 3) == stream
}

// Whether some slot from `from` on and before `to` is of the stream, one by one; past the room there is none. The end is brought down to the room,
// so that the compiler leaves out the test of each slot.
fn among_each(cells: &[u64], from: usize, to: usize, stream: u16) -> bool
    ensures { result ≡ has_stream stream (part from to (chunks cells.now)) }
{
    let room = cells::room(cells);
    for at in from..to.min(room) {
        if chunk_slot::parts::stream_at(cells, at) == stream {
            return true;
        }
    }
    false
}

// The same, four in a turn as long as there are so many: a slot is one word to read, and a turn for each takes longer than that.
fn among(cells: &[u64], from: usize, to: usize, stream: u16) -> bool
    ensures { result ≡ has_stream stream (part from to (chunks cells.now)) }
{
    let room = cells::room(cells);
    let end = to.min(room);
    if end <= from {
        return false;
    }
    // By hand: where the fours end, the rest begins.
    let mut at = from;
    while at + 4 <= end {
        if among_four(cells, at, stream) {
            return true;
        }
        at += 4;
    }
    among_each(cells, at, to, stream)
}

impl Ring {
    // The message number of the i-th, and 0 past the end.
    pub fn nth_number(&self, cells: &[u64], i: usize) -> u64
        ensures { result ≡ (get_or (held self.now cells.now) i blank_chunk).message.number }
    {
        let at = self.slot(cells, i);
        chunk_slot::parts::number_at(cells, at)
    }

    // The bytes that the i-th holds, and 0 past the end.
    pub fn nth_length(&self, cells: &[u64], i: usize) -> u32
        ensures { result ≡ (get_or (held self.now cells.now) i blank_chunk).length }
    {
        let at = self.slot(cells, i);
        chunk_slot::parts::length_at(cells, at)
    }

    // Whether some chunk is of the stream: among the slots from the start on, or past the seam, from slot 0 on.
    pub fn has_stream(&self, cells: &[u64], stream: u16) -> bool
        ensures { result ≡ has_stream stream (held self.now cells.now) }
    {
        let n = self.count(cells);
        if n == 0 {
            return false;
        }
        let room = cells::room(cells);
        let start = super::fold(self.start, room);
        let behind = room - start;
        among(cells, start, start + n, stream) || behind < n && among(cells, 0, n - behind, stream)
    }

    // The i-th is to be retransmitted, if it is neither acknowledged nor abandoned.
    pub fn mark_nth(&self, cells: &mut [u64], i: usize)
        ensures { held self.now cells.new ≡ adjust to_retransmit i (held self.now cells.old) }
    {
        let at = self.slot(cells, i);
        chunk_slot::parts::mark_at(cells, at);
    }

    // The i-th is acknowledged, and holds nothing from then on; the answer is the bytes that it held, and 0 past the end.
    pub fn acknowledge_nth(&self, cells: &mut [u64], i: usize) -> u32
        ensures { (result ≡ (get_or (held self.now cells.old) i blank_chunk).length) × (held self.now cells.new ≡ adjust acknowledged i (held self.now cells.old)) }
    {
        let at = self.slot(cells, i);
        chunk_slot::parts::acknowledge_at(cells, at)
    }

    // The i-th is given up, if it is of the message; the answer is the bytes that it held of it.
    pub fn give_up_nth(&self, cells: &mut [u64], i: usize, number: u64) -> u32
        ensures { (result ≡ held_of number (get_or (held self.now cells.old) i blank_chunk)) × (held self.now cells.new ≡ adjust (given_up number) i (held self.now cells.old)) }
    {
        let at = self.slot(cells, i);
        chunk_slot::parts::give_up_at(cells, at, number)
    }

    // The SSN of the i-th drops by 1 modulo 2^16, if it is of the stream.
    pub fn lower_nth(&self, cells: &mut [u64], i: usize, stream: u16)
        ensures { held self.now cells.new ≡ adjust (lowered stream) i (held self.now cells.old) }
    {
        let at = self.slot(cells, i);
        chunk_slot::parts::lower_at(cells, at, stream);
    }

    // The lifetime of the i-th starts, if its message has one and is not yet seen. A clock beyond its limit is taken as the limit.
    pub fn start_nth(&self, cells: &mut [u64], i: usize, clock: u64, unstarted: u64)
        ensures { held self.now cells.new ≡ adjust (started (min clock clock_max) unstarted) i (held self.now cells.old) }
    {
        let at = self.slot(cells, i);
        chunk_slot::parts::start_at(cells, at, clock, unstarted);
    }
}
