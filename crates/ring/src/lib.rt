// A ring of chunks in lent cells. The two numbers are a value with methods, the cells are a slice of words that the caller lends, and its length is
// the ring's room. What a ring holds is the list `held`, for every value of the two numbers, so no call asks anything of its caller.
// A caller's proof goes by that list: `count` is its length, `nth` its element, `push` its `++`, `drop_first` its `drop 1`, `drop_front` its `drop`.
#![tactic(auto)]

pub mod parts;

ghost use Rattle.std.specs.Prelude.{◌≡◌, ◌%◌, ◌<◌, length, get_or, set, drop, ltb};
ghost use Rattle.std.proofs.Math.ListN.{get_elem?};
ghost use Rattle.model.specs.Lists.{first};
ghost use Rattle.model.specs.Flight.{found};
ghost use Rattle.cells.specs.Slots.{room_of};
ghost use Rattle.chunk_slot.specs.Chunks.{blank_chunk};
ghost use Rattle.chunk_slot.specs.Meaning.{chunk_for, found_for};
ghost use Rattle.rows.specs.Joins.{pushed};
ghost use Rattle.ring.specs.Held.{slot_of, held};

use chunk_slot::Words;
use model::Chunk;

#[repr(C)]
#[derive(Clone, Copy, Default)]
pub struct Ring {
    pub start: usize,
    pub len: usize,
}

// The start, brought below the room; a division only where it is not there already.
fn fold(start: usize, room: usize) -> usize
    requires { 0 < room }
    ensures { result ≡ start % room }
{
    if start < room { start } else { start % room }
}

impl Ring {
    // ---- positions

    // The slot of the i-th chunk; past the end the room, where a load is blank and a store nothing.
    pub fn slot(&self, cells: &[u64], i: usize) -> usize
        ensures { result ≡ slot_of self.now cells.now i }
    {
        let room = cells::room(cells);
        if self.count(cells) <= i {
            return room;
        }
        let at = fold(self.start, room) + i;
        if at < room { at } else { at - room }
    }

    // How many there are: a length beyond the room reads as the room.
    pub fn count(&self, cells: &[u64]) -> usize
        ensures { result ≡ length (held self.now cells.now) }
    {
        self.len.min(cells::room(cells))
    }

    // ---- whole chunks

    // The i-th chunk, counted from 0, and a blank one past the end.
    pub fn nth(&self, cells: &[u64], i: usize) -> Chunk
        ensures { result ≡ get_or (held self.now cells.now) i blank_chunk }
    {
        chunk_slot::load(cells, self.slot(cells, i))
    }

    // The i-th chunk is replaced by that of the words, where there is one.
    fn put(&self, cells: &mut [u64], i: usize, words: Words)
        ensures { held self.now cells.new ≡ set (held self.now cells.old) i (chunk_for words) }
    {
        let at = self.slot(cells, i);
        chunk_slot::write(cells, at, words);
    }

    // One more at the end, the chunk of the words, and whether there was room for it.
    pub fn push(&mut self, cells: &mut [u64], words: Words) -> bool
        ensures { (held self.new cells.new ≡ pushed (room_of cells.old) (held self.old cells.old) (chunk_for words)) × (result ≡ ltb (length (held self.old cells.old)) (room_of cells.old)) }
    {
        let last = self.len;
        if cells::room(cells) <= last {
            return false;
        }
        self.len += 1;
        self.put(cells, last, words);
        true
    }

    // The first chunk goes.
    pub fn drop_first(&mut self, cells: &[u64])
        ensures { held self.new cells.now ≡ drop 1 (held self.old cells.now) }
    {
        let n = self.count(cells);
        if 0 < n {
            self.start = fold(self.start, cells::room(cells)) + 1;
            self.len = n - 1;
        }
    }

    // The first k chunks go.
    pub fn drop_front(&mut self, cells: &[u64], k: usize)
        ensures { held self.new cells.now ≡ drop k (held self.old cells.now) }
    {
        let n = self.count(cells);
        if n <= k {
            *self = Ring::default();
        } else {
            self.start = fold(self.start, cells::room(cells)) + k;
            self.len = n - k;
        }
    }

    // The i-th chunk, or nothing.
    pub fn get(&self, cells: &[u64], i: usize) -> Option<Chunk>
        ensures { result ≡ found (get_elem? (held self.now cells.now) i) }
    {
        if i < self.count(cells) {
            Some(self.nth(cells, i))
        } else {
            None
        }
    }

    // The words of the first chunk, or nothing.
    pub fn front(&self, cells: &[u64]) -> Option<Words>
        ensures { found_for result ≡ found (first (held self.now cells.now)) }
    {
        if self.count(cells) == 0 {
            return None;
        }
        let start = fold(self.start, cells::room(cells));
        Some(chunk_slot::read(cells, start))
    }

    // The first chunk, or nothing.
    pub fn peek(&self, cells: &[u64]) -> Option<Chunk>
        ensures { result ≡ found (first (held self.now cells.now)) }
    {
        self.front(cells).map(chunk_slot::unpack)
    }
}
