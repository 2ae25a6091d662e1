// What is asked of a sender as one value, a DATA chunk among it: nothing changes. Each answer is the model's (`answer` of model/specs/Calls, and
// `data_chunk` of Data), of every sender; the two of bytes are the kept counters, and the model's where these are sums (`Sums`).
ghost use Rattle.std.specs.Prelude.{◌≡◌, length};
ghost use Rattle.model.specs.State.{in_flight, next_tsn};
ghost use Rattle.model.specs.Rings.{head, bytes};
ghost use Rattle.model.specs.Flight.{found, is_abandoned, has_stream, earliest_outstanding};
ghost use Rattle.model.specs.Data.{data_chunk};
ghost use Rattle.sender.specs.Value.{state_of, Sums};
ghost use Rattle.pending_queue.specs.Queue.{bytes_in};
ghost use Rattle.outbound_queue.specs.Calls.{chunks_of, all_chunks, count_of};

use super::Sender;
use limits::Refusal;
use model::Chunk;

impl Sender {
    // The entry of a TSN.
    pub fn get(&self, tsn: u32) -> Option<Chunk>
        ensures { result ≡ found (in_flight tsn (state_of self.now).flight) }
    {
        sender_asks::get(&self.head, &self.cells, tsn)
    }

    // The DATA chunk of a TSN that is neither acknowledged nor abandoned, in the front of the lent output; the rest of that stays. Its payload is
    // copied from the caller's bytes. Refusals: 15, 16, 17.
    pub fn data_chunk(&self, bytes: &[u8], out: &mut [u8], tsn: u32) -> Result<usize, Refusal>
        ensures { record { answer = result; out = out.new } ≡ data_chunk tsn bytes.now out.old (state_of self.now) }
    {
        sender_asks::chunks::data_chunk(&self.head, &self.cells, bytes, out, tsn)
    }

    // No for a TSN that is not in flight.
    pub fn is_abandoned(&self, tsn: u32) -> bool
        ensures { result ≡ is_abandoned (in_flight tsn (state_of self.now).flight) }
    {
        sender_asks::is_abandoned(&self.head, &self.cells, tsn)
    }

    // The chunk that is sent next.
    pub fn peek_pending(&self) -> Option<Chunk>
        ensures { result ≡ found (head (state_of self.now).pending) }
    {
        sender_asks::peek_pending(&self.head, &self.cells)
    }

    // The number of the next message.
    pub fn next_message(&self) -> u64
        ensures { result ≡ (state_of self.now).numbers.next }
    {
        sender_asks::next_message(&self.head)
    }

    // The TSN of the next chunk that is sent.
    pub fn next_tsn(&self) -> u32
        ensures { result ≡ next_tsn (state_of self.now) }
    {
        sender_asks::next_tsn(&self.head, &self.cells)
    }

    pub fn pending_length(&self) -> usize
        ensures { result ≡ count_of (state_of self.now).pending }
    {
        sender_asks::pending_length(&self.head, &self.cells)
    }

    pub fn pending_bytes(&self) -> u64
        ensures { (result ≡ self.now.head.queue.pending.bytes) × (Sums self.now → result ≡ bytes_in (state_of self.now).pending) }
    {
        sender_asks::pending_bytes(&self.head)
    }

    pub fn inflight_length(&self) -> usize
        ensures { result ≡ length (state_of self.now).flight.entries }
    {
        sender_asks::inflight_length(&self.head, &self.cells)
    }

    pub fn inflight_bytes(&self) -> u64
        ensures { (result ≡ self.now.head.queue.inflight.bytes) × (Sums self.now → result ≡ bytes (state_of self.now).flight.entries) }
    {
        sender_asks::inflight_bytes(&self.head)
    }

    // The oldest TSN that is neither acknowledged nor abandoned.
    pub fn earliest_outstanding(&self) -> Option<u32>
        ensures { result ≡ earliest_outstanding (state_of self.now) }
    {
        sender_asks::earliest_outstanding(&self.head, &self.cells)
    }

    // Whether a stream has chunks pending.
    pub fn pending_contains_stream(&self, identifier: u16) -> bool
        ensures { result ≡ has_stream identifier (chunks_of (state_of self.now).pending) }
    {
        sender_asks::pending_contains_stream(&self.head, &self.cells, identifier)
    }

    // Whether a stream has chunks pending or in flight.
    pub fn contains_stream(&self, identifier: u16) -> bool
        ensures { result ≡ has_stream identifier (all_chunks (state_of self.now).pending (state_of self.now).flight) }
    {
        sender_asks::contains_stream(&self.head, &self.cells, identifier)
    }
}
