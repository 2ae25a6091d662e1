// Every call over a head and the lent cells, its answer flat: what the exported forms are thin over. Each is one call of the layer below and
// the flat reply of its answer; the questions change nothing. Written by tools/thin from tools/calls.table.
#![tactic(auto)]

ghost use Rattle.sender_head.specs.Whole.{room_in};
ghost use Rattle.flat_calls.specs.Says.{Init, OpenStream, SetReliabilityParams, SetBufferedAmountLowThreshold, SetBufferedAmountHighThreshold, OnBufferReleased, Write, StartTimedMessages, SendNext, ExpirePending, ExpirePendingTail, Abandon};
ghost use Rattle.flat_calls.specs.Says.{MarkAsAcked, Pop, HandleSack, MarkAllToRetransmit, ExpiredInflight, DataChunk, Get, IsAbandoned, PeekPending, NextMessageId, NextTsn, PendingLen};
ghost use Rattle.flat_calls.specs.Says.{PendingBytes, InflightLen, InflightBytes, EarliestOutstandingTsn, PendingContainsStream, ContainsStream, BufferedAmount, BufferedAmountLowThreshold, BufferedAmountHighThreshold, Stats, OldestTsn, RingRoom};
ghost use Rattle.flat_calls.specs.Says.{NextDeadline};

use flat::{Counts, Fragment, Freed, Reply, Sacked};
use sender_head::Head;

// A fresh sender, whatever the bytes were: the first chunk takes the TSN `tsn`, the first message the number `number`. The cells stay.
pub fn init(head: &mut Head, cells: &mut [u64], tsn: u32, number: u64) -> Reply
    ensures { Init tsn number head.old cells.old head.new cells.new result }
{
    *head = sender_head::Head::new(tsn, number);
    flat::replies::only(0)
}

// A new stream: ordered, Reliable, and never high. Refusals: 2, 4, 5.
pub fn open_stream(head: &mut Head, cells: &mut [u64], identifier: u16, maximum: u32) -> Reply
    ensures { OpenStream (room_in cells.old) identifier maximum head.old cells.old head.new cells.new result }
{
    let answer = sender_streams::open_stream(head, cells, identifier, maximum);
    flat::replies::done(answer)
}

// How messages that are written from now on are delivered. Refusal: 3.
pub fn set_reliability_params(
    head: &mut Head,
    cells: &mut [u64],
    identifier: u16,
    unordered: bool,
    kind: u8,
    value: u32,
) -> Reply
    ensures { SetReliabilityParams identifier unordered kind value head.old cells.old head.new cells.new result }
{
    let answer = sender_streams::set_reliability(head, cells, identifier, unordered, kind, value);
    flat::replies::done(answer)
}

// A release that brings the buffered amount from above this to it or below is answered yes. Refusal: 3.
pub fn set_buffered_amount_low_threshold(
    head: &mut Head,
    cells: &mut [u64],
    identifier: u16,
    low: u64,
) -> Reply
    ensures { SetBufferedAmountLowThreshold identifier low head.old cells.old head.new cells.new result }
{
    let answer = sender_streams::set_low_threshold(head, cells, identifier, low);
    flat::replies::done(answer)
}

// A message that brings the buffered amount from below this to it or above is answered yes. Refusal: 3.
pub fn set_buffered_amount_high_threshold(
    head: &mut Head,
    cells: &mut [u64],
    identifier: u16,
    high: u64,
) -> Reply
    ensures { SetBufferedAmountHighThreshold identifier high head.old cells.old head.new cells.new result }
{
    let answer = sender_streams::set_high_threshold(head, cells, identifier, high);
    flat::replies::done(answer)
}

// Bytes of a stream have left the sender; `yes` where the amount fell to the low threshold. Refusal: 3.
pub fn on_buffer_released(
    head: &mut Head,
    cells: &mut [u64],
    identifier: u16,
    released: i64,
) -> Reply
    ensures { OnBufferReleased identifier released head.old cells.old head.new cells.new result }
{
    let answer = sender_streams::release(head, cells, identifier, released);
    flat::replies::released(answer)
}

// The caller keeps the bytes: a message is where they begin and how many they are. `yes` where the amount reached the high threshold. Refusals: 3, 6, 1, 7, 8, 9.
pub fn write(
    head: &mut Head,
    cells: &mut [u64],
    identifier: u16,
    protocol: u32,
    offset: u64,
    length: u64,
) -> Reply
    ensures { Write (room_in cells.old) identifier protocol offset length head.old cells.old head.new cells.new result }
{
    let answer = sender_write::write(head, cells, identifier, protocol, offset, length);
    flat::replies::written(answer)
}

// Starts the lifetimes of the messages not yet seen. Refusal: 1.
pub fn start_timed_messages(head: &mut Head, cells: &mut [u64], clock: u64) -> Reply
    ensures { StartTimedMessages (room_in cells.old) clock head.old cells.old head.new cells.new result }
{
    let answer = sender_calls::start_lifetimes(head, cells, clock);
    flat::replies::done(answer)
}

// The next chunk goes to the flight. Refusals: 1; 10 where a chunk is pending.
pub fn send_next(head: &mut Head, cells: &mut [u64], clock: u64) -> Fragment
    ensures { SendNext (room_in cells.old) clock head.old cells.old head.new cells.new result }
{
    let answer = sender_calls::send(head, cells, clock);
    flat::replies::sent(answer)
}

// The message at the head goes if it is due, and takes no TSN. Refusal: 1.
pub fn expire_pending(head: &mut Head, cells: &mut [u64], clock: u64) -> Freed
    ensures { ExpirePending (room_in cells.old) clock head.old cells.old head.new cells.new result }
{
    let answer = sender_calls::expire_pending(head, cells, clock);
    flat::replies::expired(answer)
}

// Abandons the message under way, if its rest has expired. Refusal: 1.
pub fn expire_pending_tail(head: &mut Head, cells: &mut [u64], clock: u64) -> Freed
    ensures { ExpirePendingTail (room_in cells.old) clock head.old cells.old head.new cells.new result }
{
    let answer = sender_calls::expire_pending_tail(head, cells, clock);
    flat::replies::tail(answer)
}

// Abandons the message of a TSN in flight.
pub fn abandon(head: &mut Head, cells: &mut [u64], tsn: u32) -> Freed
    ensures { Abandon (room_in cells.old) tsn head.old cells.old head.new cells.new result }
{
    let answer = sender_calls::abandon(head, cells, tsn);
    flat::replies::abandoned(answer)
}

// The entry of a TSN is acknowledged; the value is the bytes that it held.
pub fn mark_as_acked(head: &mut Head, cells: &mut [u64], tsn: u32) -> Reply
    ensures { MarkAsAcked tsn head.old cells.old head.new cells.new result }
{
    let answer = sender_calls::flight::acknowledge(head, cells, tsn);
    flat::replies::number(answer as u64)
}

// Takes the oldest entry, if it has this TSN.
pub fn pop(head: &mut Head, cells: &mut [u64], tsn: u32) -> Fragment
    ensures { Pop tsn head.old cells.old head.new cells.new result }
{
    let answer = sender_calls::flight::pop(head, cells, tsn);
    flat::replies::found(tsn, answer)
}

// Reads the peer's SACK, of exactly the chunk's bytes: the covered prefix is acknowledged and popped, then the blocks are acknowledged; a stale one changes nothing. Refusals: 13; 14 where it is not stale.
pub fn handle_sack(head: &mut Head, cells: &mut [u64], chunk: &[u8]) -> Sacked
    ensures { HandleSack (room_in cells.old) chunk.now head.old cells.old head.new cells.new result }
{
    let answer = sender_calls::flight::sack(head, cells, chunk);
    flat::replies::sacked(answer)
}

// Every entry that is neither acknowledged nor abandoned is to be retransmitted.
pub fn mark_all_to_retransmit(head: &mut Head, cells: &mut [u64]) -> Reply
    ensures { MarkAllToRetransmit head.old cells.old head.new cells.new result }
{
    sender_calls::flight::mark_all(head, cells);
    flat::replies::only(0)
}

// The TSNs in flight whose message has expired, in the front of the lent list; the value is how many. What is pending and in flight stays. Refusals: 1, 11.
pub fn expired_inflight(head: &mut Head, cells: &mut [u64], list: &mut [u32], clock: u64) -> Reply
    ensures { ExpiredInflight (room_in cells.old) list.old clock head.old cells.old head.new cells.new list.new result }
{
    let answer = sender_calls::flight::expired_inflight(head, cells, clock, list);
    flat::replies::listed(answer)
}

// The DATA chunk of a TSN in flight (RFC 9260, section 3.3.1) in the front of `out`: its payload is copied from `bytes` by the entry's offset and length, and zeros fill it up to a multiple of four; what stands behind stays. The value is how many bytes the chunk takes. Refusals: 15, 16, 17.
pub fn data_chunk(head: &Head, cells: &[u64], bytes: &[u8], out: &mut [u8], tsn: u32) -> Reply
    ensures { DataChunk bytes.now out.old tsn head.now cells.now out.new result }
{
    let answer = sender_asks::chunks::data_chunk(head, cells, bytes, out, tsn);
    flat::replies::laid(answer)
}

// The entry of a TSN.
pub fn get(head: &Head, cells: &[u64], tsn: u32) -> Fragment
    ensures { Get tsn head.now cells.now result }
{
    let answer = sender_asks::get(head, cells, tsn);
    flat::replies::found(tsn, answer)
}

// Whether the message of a TSN was given up. No for a TSN that is not in flight.
pub fn is_abandoned(head: &Head, cells: &[u64], tsn: u32) -> Reply
    ensures { IsAbandoned tsn head.now cells.now result }
{
    let answer = sender_asks::is_abandoned(head, cells, tsn);
    flat::replies::yes_or_no(answer)
}

// The chunk that is sent next; it has no TSN yet.
pub fn peek_pending(head: &Head, cells: &[u64]) -> Fragment
    ensures { PeekPending head.now cells.now result }
{
    let answer = sender_asks::peek_pending(head, cells);
    flat::replies::found(0, answer)
}

// The number of the next message.
pub fn next_message_id(head: &Head, cells: &[u64]) -> Reply
    ensures { NextMessageId head.now cells.now result }
{
    let answer = sender_asks::next_message(head);
    flat::replies::number(answer)
}

// The TSN of the next chunk that is sent.
pub fn next_tsn(head: &Head, cells: &[u64]) -> Reply
    ensures { NextTsn head.now cells.now result }
{
    let answer = sender_asks::next_tsn(head, cells);
    flat::replies::number(answer as u64)
}

// How many chunks are pending.
pub fn pending_len(head: &Head, cells: &[u64]) -> Reply
    ensures { PendingLen head.now cells.now result }
{
    let answer = sender_asks::pending_length(head, cells);
    flat::replies::number(answer as u64)
}

// How many bytes are pending.
pub fn pending_bytes(head: &Head, cells: &[u64]) -> Reply
    ensures { PendingBytes head.now cells.now result }
{
    let answer = sender_asks::pending_bytes(head);
    flat::replies::number(answer)
}

// How many entries the flight has.
pub fn inflight_len(head: &Head, cells: &[u64]) -> Reply
    ensures { InflightLen head.now cells.now result }
{
    let answer = sender_asks::inflight_length(head, cells);
    flat::replies::number(answer as u64)
}

// How many bytes the entries in flight hold.
pub fn inflight_bytes(head: &Head, cells: &[u64]) -> Reply
    ensures { InflightBytes head.now cells.now result }
{
    let answer = sender_asks::inflight_bytes(head);
    flat::replies::number(answer)
}

// The oldest TSN that is neither acknowledged nor abandoned, where `yes` is set.
pub fn earliest_outstanding_tsn(head: &Head, cells: &[u64]) -> Reply
    ensures { EarliestOutstandingTsn head.now cells.now result }
{
    let answer = sender_asks::earliest_outstanding(head, cells);
    flat::replies::earliest(answer)
}

// Whether a stream has chunks pending.
pub fn pending_contains_stream(head: &Head, cells: &[u64], identifier: u16) -> Reply
    ensures { PendingContainsStream identifier head.now cells.now result }
{
    let answer = sender_asks::pending_contains_stream(head, cells, identifier);
    flat::replies::yes_or_no(answer)
}

// Whether a stream has chunks pending or in flight.
pub fn contains_stream(head: &Head, cells: &[u64], identifier: u16) -> Reply
    ensures { ContainsStream identifier head.now cells.now result }
{
    let answer = sender_asks::contains_stream(head, cells, identifier);
    flat::replies::yes_or_no(answer)
}

// How many bytes of a stream are written and not yet released. Refusal: 3.
pub fn buffered_amount(head: &Head, cells: &[u64], identifier: u16) -> Reply
    ensures { BufferedAmount identifier head.now cells.now result }
{
    let answer = sender_asks::buffered_amount(head, cells, identifier);
    flat::replies::amount(answer)
}

// The low threshold of a stream. Refusal: 3.
pub fn buffered_amount_low_threshold(head: &Head, cells: &[u64], identifier: u16) -> Reply
    ensures { BufferedAmountLowThreshold identifier head.now cells.now result }
{
    let answer = sender_asks::low_threshold(head, cells, identifier);
    flat::replies::amount(answer)
}

// The high threshold of a stream. Refusal: 3.
pub fn buffered_amount_high_threshold(head: &Head, cells: &[u64], identifier: u16) -> Reply
    ensures { BufferedAmountHighThreshold identifier head.now cells.now result }
{
    let answer = sender_asks::high_threshold(head, cells, identifier);
    flat::replies::amount(answer)
}

// Messages and bytes sent on a stream. Refusal: 3.
pub fn stats(head: &Head, cells: &[u64], identifier: u16) -> Counts
    ensures { Stats identifier head.now cells.now result }
{
    let answer = sender_asks::statistics(head, cells, identifier);
    flat::replies::counted(answer)
}

// The oldest TSN in flight, acknowledged or abandoned as it may be, where `yes` is set.
pub fn oldest_tsn(head: &Head, cells: &[u64]) -> Reply
    ensures { OldestTsn head.now cells.now result }
{
    let answer = sender_asks::beside::oldest_tsn(head, cells);
    flat::replies::earliest(answer)
}

// How many more chunks the ring of unordered messages takes, or that of ordered ones.
pub fn ring_room(head: &Head, cells: &[u64], unordered: bool) -> Reply
    ensures { RingRoom (room_in cells.now) unordered head.now cells.now result }
{
    let answer = sender_asks::beside::ring_room(head, cells, unordered);
    flat::replies::number(answer as u64)
}

// The earliest deadline of the chunk at the head and of those in flight that are not abandoned, where `yes` is set.
pub fn next_deadline(head: &Head, cells: &[u64]) -> Reply
    ensures { NextDeadline head.now cells.now result }
{
    let answer = sender_asks::beside::next_deadline(head, cells);
    flat::replies::moment(answer)
}
