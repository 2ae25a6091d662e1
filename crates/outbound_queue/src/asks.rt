// What is asked of the queue: nothing changes. Each answer is the model's, of every record and every cells; the two of bytes are the kept counters,
// and the model's where these are sums (`Counted`).
ghost use Rattle.std.specs.Prelude.{◌≡◌, List, ℕ, ◌+◌, length};
ghost use Rattle.model.specs.declared.Stream.{Stream};
ghost use Rattle.model.specs.State.{in_flight, next_tsn};
ghost use Rattle.model.specs.Rings.{head, bytes};
ghost use Rattle.model.specs.Flight.{found, is_abandoned, has_stream, earliest_outstanding};
ghost use Rattle.outbound_queue.specs.Outbound.{sender_of, Counted};
ghost use Rattle.pending_queue.specs.Queue.{bytes_in};
ghost use Rattle.outbound_queue.specs.Calls.{waiting_in, flying_in, chunks_of, all_chunks, count_of};

use super::OutboundQueue;
use model::{Chunk, Stream};

impl OutboundQueue {
    // The number of the next message.
    pub fn next_message_id(&self) -> u64
        ensures { (ts : List Stream) (ws : List ℕ) → result ≡ (sender_of ts self.now ws).numbers.next }
    {
        self.next_message_id
    }

    // The chunk that is sent next.
    pub fn peek_pending(&self, cells: &[u64]) -> Option<Chunk>
        ensures { result ≡ found (head (waiting_in self.now cells.now)) }
    {
        let k = cells.len() / 24 * 8;
        self.pending.peek(&cells[0..k], &cells[k..k + k])
    }

    pub fn get(&self, cells: &[u64], tsn: u32) -> Option<Chunk>
        ensures { result ≡ found (in_flight tsn (flying_in self.now cells.now)) }
    {
        let k = cells.len() / 24 * 8;
        self.inflight.get(&cells[k + k..k + k + k], tsn)
    }

    // No for a TSN that is not in flight.
    pub fn is_abandoned(&self, cells: &[u64], tsn: u32) -> bool
        ensures { result ≡ is_abandoned (in_flight tsn (flying_in self.now cells.now)) }
    {
        self.get(cells, tsn).is_some_and(|chunk| chunk.abandoned)
    }

    pub fn pending_contains_stream(&self, cells: &[u64], stream: u16) -> bool
        ensures { result ≡ has_stream stream (chunks_of (waiting_in self.now cells.now)) }
    {
        let k = cells.len() / 24 * 8;
        self.pending
            .contains_stream(&cells[0..k], &cells[k..k + k], stream)
    }

    pub fn contains_stream(&self, cells: &[u64], stream: u16) -> bool
        ensures { result ≡ has_stream stream (all_chunks (waiting_in self.now cells.now) (flying_in self.now cells.now)) }
    {
        let k = cells.len() / 24 * 8;
        self.pending_contains_stream(cells, stream)
            || self
                .inflight
                .contains_stream(&cells[k + k..k + k + k], stream)
    }

    pub fn pending_len(&self, cells: &[u64]) -> usize
        ensures { result ≡ count_of (waiting_in self.now cells.now) }
    {
        let k = cells.len() / 24 * 8;
        self.pending.len(&cells[0..k], &cells[k..k + k])
    }

    // In constant time, as the bytes in flight are.
    pub fn pending_bytes(&self) -> u64
        ensures { (result ≡ self.now.pending.bytes) × ((ws : List ℕ) → Counted self.now ws → result ≡ bytes_in (waiting_in self.now ws)) }
    {
        self.pending.bytes()
    }

    pub fn inflight_len(&self, cells: &[u64]) -> usize
        ensures { result ≡ length (flying_in self.now cells.now).entries }
    {
        let k = cells.len() / 24 * 8;
        self.inflight.len(&cells[k + k..k + k + k])
    }

    pub fn inflight_bytes(&self) -> u64
        ensures { (result ≡ self.now.inflight.bytes) × ((ws : List ℕ) → Counted self.now ws → result ≡ bytes (flying_in self.now ws).entries) }
    {
        self.inflight.bytes()
    }

    // The TSN of the next chunk that is sent.
    pub fn next_tsn(&self, cells: &[u64]) -> u32
        ensures { (ts : List Stream) → result ≡ next_tsn (sender_of ts self.now cells.now) }
    {
        let k = cells.len() / 24 * 8;
        self.inflight.next_tsn(&cells[k + k..k + k + k])
    }

    // The oldest TSN that is neither acknowledged nor abandoned.
    pub fn earliest_outstanding_tsn(&self, cells: &[u64]) -> Option<u32>
        ensures { (ts : List Stream) → result ≡ earliest_outstanding (sender_of ts self.now cells.now) }
    {
        let k = cells.len() / 24 * 8;
        self.inflight.earliest_outstanding(&cells[k + k..k + k + k])
    }
}
