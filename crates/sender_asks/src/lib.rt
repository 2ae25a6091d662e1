// What is asked of the sender over a lent head and the lent cells: of what is pending, of the flight, of one stream (refusal: 3). Nothing
// changes. Each answer is the model's (`answer` of model/specs/Calls), of every head and every cells; the two of bytes are the kept counters, and
// the model's where these are sums (`Counted`). `beside` has the questions that 01 lacks, `chunks` those whose answer is a chunk in lent bytes.
#![tactic(auto)]

pub mod beside;
pub mod chunks;

ghost use Rattle.std.specs.Prelude.{◌≡◌, List, ℕ, length};
ghost use Rattle.model.specs.Rings.{head, bytes};
ghost use Rattle.model.specs.Flight.{found, has_stream, is_abandoned, earliest_outstanding};
ghost use Rattle.sender_head.specs.Whole.{sender_of, Counted};
ghost use Rattle.model.specs.State.{in_flight, next_tsn};
ghost use Rattle.model.specs.Streams.{find, amount, counts};
ghost use Rattle.pending_queue.specs.Queue.{bytes_in};
ghost use Rattle.sender_asks.specs.Answers.{open_or_not};
ghost use Rattle.outbound_queue.specs.Calls.{chunks_of, all_chunks, count_of};

use limits::Refusal;
use model::{Chunk, Statistics, Stream};
use sender_head::Head;

// The chunk that is sent next.
pub fn peek_pending(h: &Head, cells: &[u64]) -> Option<Chunk>
    ensures { result ≡ found (head (sender_of h.now cells.now).pending) }
{
    let k = sender_head::table_words(cells);
    let n = cells.len();
    h.queue.peek_pending(&cells[k..n])
}

// The number of the next message.
pub fn next_message(h: &Head) -> u64
    ensures { (ws : List ℕ) → result ≡ (sender_of h.now ws).numbers.next }
{
    h.queue.next_message_id()
}

pub fn pending_length(h: &Head, cells: &[u64]) -> usize
    ensures { result ≡ count_of (sender_of h.now cells.now).pending }
{
    let k = sender_head::table_words(cells);
    let n = cells.len();
    h.queue.pending_len(&cells[k..n])
}

pub fn pending_bytes(h: &Head) -> u64
    ensures { (result ≡ h.now.queue.pending.bytes) × ((ws : List ℕ) → Counted h.now ws → result ≡ bytes_in (sender_of h.now ws).pending) }
{
    h.queue.pending_bytes()
}

// Whether a stream has chunks pending.
pub fn pending_contains_stream(h: &Head, cells: &[u64], identifier: u16) -> bool
    ensures { result ≡ has_stream identifier (chunks_of (sender_of h.now cells.now).pending) }
{
    let k = sender_head::table_words(cells);
    let n = cells.len();
    h.queue.pending_contains_stream(&cells[k..n], identifier)
}

// Whether a stream has chunks pending or in flight.
pub fn contains_stream(h: &Head, cells: &[u64], identifier: u16) -> bool
    ensures { result ≡ has_stream identifier (all_chunks (sender_of h.now cells.now).pending (sender_of h.now cells.now).flight) }
{
    let k = sender_head::table_words(cells);
    let n = cells.len();
    h.queue.contains_stream(&cells[k..n], identifier)
}

// The entry of a TSN.
pub fn get(h: &Head, cells: &[u64], tsn: u32) -> Option<Chunk>
    ensures { result ≡ found (in_flight tsn (sender_of h.now cells.now).flight) }
{
    let k = sender_head::table_words(cells);
    let n = cells.len();
    h.queue.get(&cells[k..n], tsn)
}

// No for a TSN that is not in flight.
pub fn is_abandoned(h: &Head, cells: &[u64], tsn: u32) -> bool
    ensures { result ≡ is_abandoned (in_flight tsn (sender_of h.now cells.now).flight) }
{
    let k = sender_head::table_words(cells);
    let n = cells.len();
    h.queue.is_abandoned(&cells[k..n], tsn)
}

// The TSN of the next chunk that is sent.
pub fn next_tsn(h: &Head, cells: &[u64]) -> u32
    ensures { result ≡ next_tsn (sender_of h.now cells.now) }
{
    let k = sender_head::table_words(cells);
    let n = cells.len();
    h.queue.next_tsn(&cells[k..n])
}

pub fn inflight_length(h: &Head, cells: &[u64]) -> usize
    ensures { result ≡ length (sender_of h.now cells.now).flight.entries }
{
    let k = sender_head::table_words(cells);
    let n = cells.len();
    h.queue.inflight_len(&cells[k..n])
}

pub fn inflight_bytes(h: &Head) -> u64
    ensures { (result ≡ h.now.queue.inflight.bytes) × ((ws : List ℕ) → Counted h.now ws → result ≡ bytes (sender_of h.now ws).flight.entries) }
{
    h.queue.inflight_bytes()
}

// The oldest TSN that is neither acknowledged nor abandoned.
pub fn earliest_outstanding(h: &Head, cells: &[u64]) -> Option<u32>
    ensures { result ≡ earliest_outstanding (sender_of h.now cells.now) }
{
    let k = sender_head::table_words(cells);
    let n = cells.len();
    h.queue.earliest_outstanding_tsn(&cells[k..n])
}

// ---- of one open stream

fn stream_of(h: &Head, cells: &[u64], identifier: u16) -> Result<Stream, Refusal>
    ensures { result ≡ open_or_not (find identifier (sender_of h.now cells.now).streams) }
{
    let sought = sender_head::table::seek(h, cells, identifier);
    let (_, stream) = sought.ok_or(Refusal::NotOpen)?;
    Ok(stream)
}

pub fn buffered_amount(h: &Head, cells: &[u64], identifier: u16) -> Result<u64, Refusal>
    ensures { result ≡ amount (find identifier (sender_of h.now cells.now).streams) (λ t. t.buffered) }
{
    Ok(stream_of(h, cells, identifier)?.buffered as u64)
}

pub fn low_threshold(h: &Head, cells: &[u64], identifier: u16) -> Result<u64, Refusal>
    ensures { result ≡ amount (find identifier (sender_of h.now cells.now).streams) (λ t. t.low) }
{
    Ok(stream_of(h, cells, identifier)?.low)
}

pub fn high_threshold(h: &Head, cells: &[u64], identifier: u16) -> Result<u64, Refusal>
    ensures { result ≡ amount (find identifier (sender_of h.now cells.now).streams) (λ t. t.high) }
{
    Ok(stream_of(h, cells, identifier)?.high)
}

// Messages and bytes sent.
pub fn statistics(h: &Head, cells: &[u64], identifier: u16) -> Result<Statistics, Refusal>
    ensures { result ≡ counts (find identifier (sender_of h.now cells.now).streams) }
{
    Ok(stream_of(h, cells, identifier)?.statistics)
}
