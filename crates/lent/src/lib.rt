// 01's sender as a host holds it: one struct, and thin functions over a reference to it. Each lends head and cells to a function of the flat
// layer. A host that hands over any bytes at all is safe: each bit pattern of the struct is a sender. Written by tools/thin from tools/calls.table.
#![tactic(auto)]

ghost use Rattle.lent.specs.Says.{Init, OpenStream, SetReliabilityParams, SetBufferedAmountLowThreshold, SetBufferedAmountHighThreshold, OnBufferReleased, Write, StartTimedMessages, SendNext, ExpirePending, ExpirePendingTail, Abandon};
ghost use Rattle.lent.specs.Says.{MarkAsAcked, Pop, HandleSack, MarkAllToRetransmit, ExpiredInflight, DataChunk, Get, IsAbandoned, PeekPending, NextMessageId, NextTsn, PendingLen};
ghost use Rattle.lent.specs.Says.{PendingBytes, InflightLen, InflightBytes, EarliestOutstandingTsn, PendingContainsStream, ContainsStream, BufferedAmount, BufferedAmountLowThreshold, BufferedAmountHighThreshold, Stats, OldestTsn, RingRoom};
ghost use Rattle.lent.specs.Says.{NextDeadline};

use flat::{Counts, Fragment, Freed, Reply, Sacked};
use sender_head::Head;

// 64 streams, and 256 slots in each ring and in the flight.
#[repr(C)]
#[derive(Drop)]
pub struct Sender {
    pub head: Head,
    pub cells: [u64; 6656],
}

// ---- a fresh sender, and its streams

// A fresh sender, whatever the bytes were: the first chunk takes the TSN `tsn`, the first message the number `number`. The cells stay.
#[unsafe(no_mangle)]
pub extern "C" fn girdermoth_init(s: &mut Sender, tsn: u32, number: u64) -> Reply
    ensures { Init tsn number s.old s.new result }
{
    flat_calls::init(&mut s.head, &mut s.cells, tsn, number)
}

// A new stream: ordered, Reliable, and never high. Refusals: 2, 4, 5.
#[unsafe(no_mangle)]
pub extern "C" fn girdermoth_open_stream(s: &mut Sender, identifier: u16, maximum: u32) -> Reply
    ensures { OpenStream identifier maximum s.old s.new result }
{
    flat_calls::open_stream(&mut s.head, &mut s.cells, identifier, maximum)
}

// How messages that are written from now on are delivered. Refusal: 3.
#[unsafe(no_mangle)]
pub extern "C" fn girdermoth_set_reliability_params(
    s: &mut Sender,
    identifier: u16,
    unordered: bool,
    kind: u8,
    value: u32,
) -> Reply
    ensures { SetReliabilityParams identifier unordered kind value s.old s.new result }
{
    flat_calls::set_reliability_params(
        &mut s.head,
        &mut s.cells,
        identifier,
        unordered,
        kind,
        value,
    )
}

// A release that brings the buffered amount from above this to it or below is answered yes. Refusal: 3.
#[unsafe(no_mangle)]
pub extern "C" fn girdermoth_set_buffered_amount_low_threshold(
    s: &mut Sender,
    identifier: u16,
    low: u64,
) -> Reply
    ensures { SetBufferedAmountLowThreshold identifier low s.old s.new result }
{
    flat_calls::set_buffered_amount_low_threshold(&mut s.head, &mut s.cells, identifier, low)
}

// A message that brings the buffered amount from below this to it or above is answered yes. Refusal: 3.
#[unsafe(no_mangle)]
pub extern "C" fn girdermoth_set_buffered_amount_high_threshold(
    s: &mut Sender,
    identifier: u16,
    high: u64,
) -> Reply
    ensures { SetBufferedAmountHighThreshold identifier high s.old s.new result }
{
    flat_calls::set_buffered_amount_high_threshold(&mut s.head, &mut s.cells, identifier, high)
}

// Bytes of a stream have left the sender; `yes` where the amount fell to the low threshold. Refusal: 3.
#[unsafe(no_mangle)]
pub extern "C" fn girdermoth_on_buffer_released(
    s: &mut Sender,
    identifier: u16,
    released: i64,
) -> Reply
    ensures { OnBufferReleased identifier released s.old s.new result }
{
    flat_calls::on_buffer_released(&mut s.head, &mut s.cells, identifier, released)
}

// ---- messages

// The caller keeps the bytes: a message is where they begin and how many they are. `yes` where the amount reached the high threshold. Refusals: 3, 6, 1, 7, 8, 9.
#[unsafe(no_mangle)]
pub extern "C" fn girdermoth_write(
    s: &mut Sender,
    identifier: u16,
    protocol: u32,
    offset: u64,
    length: u64,
) -> Reply
    ensures { Write identifier protocol offset length s.old s.new result }
{
    flat_calls::write(
        &mut s.head,
        &mut s.cells,
        identifier,
        protocol,
        offset,
        length,
    )
}

// Starts the lifetimes of the messages not yet seen. Refusal: 1.
#[unsafe(no_mangle)]
pub extern "C" fn girdermoth_start_timed_messages(s: &mut Sender, clock: u64) -> Reply
    ensures { StartTimedMessages clock s.old s.new result }
{
    flat_calls::start_timed_messages(&mut s.head, &mut s.cells, clock)
}

// The next chunk goes to the flight. Refusals: 1; 10 where a chunk is pending.
#[unsafe(no_mangle)]
pub extern "C" fn girdermoth_send_next(s: &mut Sender, clock: u64) -> Fragment
    ensures { SendNext clock s.old s.new result }
{
    flat_calls::send_next(&mut s.head, &mut s.cells, clock)
}

// The message at the head goes if it is due, and takes no TSN. Refusal: 1.
#[unsafe(no_mangle)]
pub extern "C" fn girdermoth_expire_pending(s: &mut Sender, clock: u64) -> Freed
    ensures { ExpirePending clock s.old s.new result }
{
    flat_calls::expire_pending(&mut s.head, &mut s.cells, clock)
}

// Abandons the message under way, if its rest has expired. Refusal: 1.
#[unsafe(no_mangle)]
pub extern "C" fn girdermoth_expire_pending_tail(s: &mut Sender, clock: u64) -> Freed
    ensures { ExpirePendingTail clock s.old s.new result }
{
    flat_calls::expire_pending_tail(&mut s.head, &mut s.cells, clock)
}

// Abandons the message of a TSN in flight.
#[unsafe(no_mangle)]
pub extern "C" fn girdermoth_abandon(s: &mut Sender, tsn: u32) -> Freed
    ensures { Abandon tsn s.old s.new result }
{
    flat_calls::abandon(&mut s.head, &mut s.cells, tsn)
}

// ---- the flight

// The entry of a TSN is acknowledged; the value is the bytes that it held.
#[unsafe(no_mangle)]
pub extern "C" fn girdermoth_mark_as_acked(s: &mut Sender, tsn: u32) -> Reply
    ensures { MarkAsAcked tsn s.old s.new result }
{
    flat_calls::mark_as_acked(&mut s.head, &mut s.cells, tsn)
}

// Takes the oldest entry, if it has this TSN.
#[unsafe(no_mangle)]
pub extern "C" fn girdermoth_pop(s: &mut Sender, tsn: u32) -> Fragment
    ensures { Pop tsn s.old s.new result }
{
    flat_calls::pop(&mut s.head, &mut s.cells, tsn)
}

// Reads the peer's SACK, of exactly the chunk's bytes: the covered prefix is acknowledged and popped, then the blocks are acknowledged; a stale one changes nothing. Refusals: 13; 14 where it is not stale.
#[unsafe(no_mangle)]
pub extern "C" fn girdermoth_handle_sack(s: &mut Sender, chunk: &[u8]) -> Sacked
    ensures { HandleSack chunk.now s.old s.new result }
{
    flat_calls::handle_sack(&mut s.head, &mut s.cells, chunk)
}

// Every entry that is neither acknowledged nor abandoned is to be retransmitted.
#[unsafe(no_mangle)]
pub extern "C" fn girdermoth_mark_all_to_retransmit(s: &mut Sender) -> Reply
    ensures { MarkAllToRetransmit s.old s.new result }
{
    flat_calls::mark_all_to_retransmit(&mut s.head, &mut s.cells)
}

// The TSNs in flight whose message has expired, in the front of the lent list; the value is how many. What is pending and in flight stays. Refusals: 1, 11.
#[unsafe(no_mangle)]
pub extern "C" fn girdermoth_expired_inflight(s: &mut Sender, list: &mut [u32], clock: u64) -> Reply
    ensures { ExpiredInflight list.old clock s.old s.new list.new result }
{
    flat_calls::expired_inflight(&mut s.head, &mut s.cells, list, clock)
}

// ---- chunks for the wire

// The DATA chunk of a TSN in flight (RFC 9260, section 3.3.1) in the front of `out`: its payload is copied from `bytes` by the entry's offset and length, and zeros fill it up to a multiple of four; what stands behind stays. The value is how many bytes the chunk takes. Refusals: 15, 16, 17.
#[unsafe(no_mangle)]
pub extern "C" fn girdermoth_data_chunk(s: &Sender, bytes: &[u8], out: &mut [u8], tsn: u32) -> Reply
    ensures { DataChunk bytes.now out.old tsn s.now out.new result }
{
    flat_calls::data_chunk(&s.head, &s.cells, bytes, out, tsn)
}

// ---- questions

// The entry of a TSN.
#[unsafe(no_mangle)]
pub extern "C" fn girdermoth_get(s: &Sender, tsn: u32) -> Fragment
    ensures { Get tsn s.now result }
{
    flat_calls::get(&s.head, &s.cells, tsn)
}

// Whether the message of a TSN was given up. No for a TSN that is not in flight.
#[unsafe(no_mangle)]
pub extern "C" fn girdermoth_is_abandoned(s: &Sender, tsn: u32) -> Reply
    ensures { IsAbandoned tsn s.now result }
{
    flat_calls::is_abandoned(&s.head, &s.cells, tsn)
}

// The chunk that is sent next; it has no TSN yet.
#[unsafe(no_mangle)]
pub extern "C" fn girdermoth_peek_pending(s: &Sender) -> Fragment
    ensures { PeekPending s.now result }
{
    flat_calls::peek_pending(&s.head, &s.cells)
}

// The number of the next message.
#[unsafe(no_mangle)]
pub extern "C" fn girdermoth_next_message_id(s: &Sender) -> Reply
    ensures { NextMessageId s.now result }
{
    flat_calls::next_message_id(&s.head, &s.cells)
}

// The TSN of the next chunk that is sent.
#[unsafe(no_mangle)]
pub extern "C" fn girdermoth_next_tsn(s: &Sender) -> Reply
    ensures { NextTsn s.now result }
{
    flat_calls::next_tsn(&s.head, &s.cells)
}

// How many chunks are pending.
#[unsafe(no_mangle)]
pub extern "C" fn girdermoth_pending_len(s: &Sender) -> Reply
    ensures { PendingLen s.now result }
{
    flat_calls::pending_len(&s.head, &s.cells)
}

// How many bytes are pending.
#[unsafe(no_mangle)]
pub extern "C" fn girdermoth_pending_bytes(s: &Sender) -> Reply
    ensures { PendingBytes s.now result }
{
    flat_calls::pending_bytes(&s.head, &s.cells)
}

// How many entries the flight has.
#[unsafe(no_mangle)]
pub extern "C" fn girdermoth_inflight_len(s: &Sender) -> Reply
    ensures { InflightLen s.now result }
{
    flat_calls::inflight_len(&s.head, &s.cells)
}

// How many bytes the entries in flight hold.
#[unsafe(no_mangle)]
pub extern "C" fn girdermoth_inflight_bytes(s: &Sender) -> Reply
    ensures { InflightBytes s.now result }
{
    flat_calls::inflight_bytes(&s.head, &s.cells)
}

// The oldest TSN that is neither acknowledged nor abandoned, where `yes` is set.
#[unsafe(no_mangle)]
pub extern "C" fn girdermoth_earliest_outstanding_tsn(s: &Sender) -> Reply
    ensures { EarliestOutstandingTsn s.now result }
{
    flat_calls::earliest_outstanding_tsn(&s.head, &s.cells)
}

// Whether a stream has chunks pending.
#[unsafe(no_mangle)]
pub extern "C" fn girdermoth_pending_contains_stream(s: &Sender, identifier: u16) -> Reply
    ensures { PendingContainsStream identifier s.now result }
{
    flat_calls::pending_contains_stream(&s.head, &s.cells, identifier)
}

// Whether a stream has chunks pending or in flight.
#[unsafe(no_mangle)]
pub extern "C" fn girdermoth_contains_stream(s: &Sender, identifier: u16) -> Reply
    ensures { ContainsStream identifier s.now result }
{
    flat_calls::contains_stream(&s.head, &s.cells, identifier)
}

// How many bytes of a stream are written and not yet released. Refusal: 3.
#[unsafe(no_mangle)]
pub extern "C" fn girdermoth_buffered_amount(s: &Sender, identifier: u16) -> Reply
    ensures { BufferedAmount identifier s.now result }
{
    flat_calls::buffered_amount(&s.head, &s.cells, identifier)
}

// The low threshold of a stream. Refusal: 3.
#[unsafe(no_mangle)]
pub extern "C" fn girdermoth_buffered_amount_low_threshold(s: &Sender, identifier: u16) -> Reply
    ensures { BufferedAmountLowThreshold identifier s.now result }
{
    flat_calls::buffered_amount_low_threshold(&s.head, &s.cells, identifier)
}

// The high threshold of a stream. Refusal: 3.
#[unsafe(no_mangle)]
pub extern "C" fn girdermoth_buffered_amount_high_threshold(s: &Sender, identifier: u16) -> Reply
    ensures { BufferedAmountHighThreshold identifier s.now result }
{
    flat_calls::buffered_amount_high_threshold(&s.head, &s.cells, identifier)
}

// Messages and bytes sent on a stream. Refusal: 3.
#[unsafe(no_mangle)]
pub extern "C" fn girdermoth_stats(s: &Sender, identifier: u16) -> Counts
    ensures { Stats identifier s.now result }
{
    flat_calls::stats(&s.head, &s.cells, identifier)
}

// ---- questions beside 01's

// The oldest TSN in flight, acknowledged or abandoned as it may be, where `yes` is set.
#[unsafe(no_mangle)]
pub extern "C" fn girdermoth_oldest_tsn(s: &Sender) -> Reply
    ensures { OldestTsn s.now result }
{
    flat_calls::oldest_tsn(&s.head, &s.cells)
}

// How many more chunks the ring of unordered messages takes, or that of ordered ones.
#[unsafe(no_mangle)]
pub extern "C" fn girdermoth_ring_room(s: &Sender, unordered: bool) -> Reply
    ensures { RingRoom unordered s.now result }
{
    flat_calls::ring_room(&s.head, &s.cells, unordered)
}

// The earliest deadline of the chunk at the head and of those in flight that are not abandoned, where `yes` is set.
#[unsafe(no_mangle)]
pub extern "C" fn girdermoth_next_deadline(s: &Sender) -> Reply
    ensures { NextDeadline s.now result }
{
    flat_calls::next_deadline(&s.head, &s.cells)
}
