// What is asked of the whole flight: nothing changes.
ghost use Rattle.std.specs.Prelude.{◌≡◌, ℕ, ◌+◌, ◌%◌, List, length};
ghost use Rattle.limits.specs.Limits.{tsns};
ghost use Rattle.model.specs.Rings.{bytes, tsns_of};
ghost use Rattle.model.specs.Flight.{outstanding, has_stream, earliest};
ghost use Rattle.payload_queue.specs.Queue.{flight_of, Counted};

use super::PayloadQueue;
use model::Chunk;

// Neither acknowledged nor abandoned.
pub fn is_outstanding(chunk: Chunk) -> bool
    ensures { result ≡ outstanding chunk }
{
    !chunk.acked && !chunk.abandoned
}

impl PayloadQueue {
    pub fn len(&self, cells: &[u64]) -> usize
        ensures { result ≡ length (flight_of self.now cells.now).entries }
    {
        self.ring.count(cells)
    }

    // The bytes in flight, in constant time.
    pub fn bytes(&self) -> u64
        ensures { (result ≡ self.now.bytes) × ((ws : List ℕ) → Counted self.now ws → result ≡ bytes (flight_of self.now ws).entries) }
    {
        self.bytes
    }

    // The TSN of the next chunk that is filed.
    pub fn next_tsn(&self, cells: &[u64]) -> u32
        ensures { result ≡ (self.now.oldest + length (flight_of self.now cells.now).entries) % tsns }
    {
        self.oldest.wrapping_add(self.len(cells) as u32)
    }

    pub fn contains_stream(&self, cells: &[u64], stream: u16) -> bool
        ensures { result ≡ has_stream stream (flight_of self.now cells.now).entries }
    {
        self.ring.has_stream(cells, stream)
    }

    // The oldest TSN that is neither acknowledged nor abandoned.
    pub fn earliest_outstanding(&self, cells: &[u64]) -> Option<u32>
        ensures { result ≡ earliest (tsns_of outstanding self.now.oldest (flight_of self.now cells.now).entries) }
    {
        let mut tsn = self.oldest;
        for i in 0..self.len(cells) {
            if is_outstanding(self.ring.nth(cells, i)) {
                return Some(tsn);
            }
            tsn = tsn.wrapping_add(1);
        }
        None
    }
}
