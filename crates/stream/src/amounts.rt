// What a write, a release and an expiry do to one stream: its SSN, its buffered amount and its statistics.
ghost use Rattle.std.specs.Prelude.{◌≡◌};
ghost use Rattle.model.specs.Streams.{accounted};
ghost use Rattle.model.specs.Messages.{ssn_after, counted_by};
ghost use Rattle.model.specs.Rings.{ssn_before};
ghost use Rattle.stream.specs.Amounts.{overflows, rises, falls, accepting, freeing};

use limits::BUFFERED_MAX;
use model::{Statistics, Stream};

// Payload types.
const STRING: u32 = 51;

const BINARY: u32 = 53;

const STRING_EMPTY: u32 = 56;

const BINARY_EMPTY: u32 = 57;

// An ordered message takes one; behind the last comes 0.
fn ssn_after(unordered: bool, ssn: u16) -> u16
    ensures { result ≡ ssn_after unordered ssn }
{
    if unordered { ssn } else { ssn.wrapping_add(1) }
}

// The statistics behind a message. One of no bytes is not queued, so it does not count. The types for an empty message come with a byte
// that is none of the message's. A counter stops at its last number.
fn sent(statistics: Statistics, protocol: u32, length: u32) -> Statistics
    ensures { result ≡ counted_by protocol length statistics }
{
    if length == 0 {
        return statistics;
    }
    let messages = statistics.messages.saturating_add(1);
    match protocol {
        STRING | BINARY => Statistics {
            messages,
            bytes: statistics.bytes.saturating_add(length as u64),
        },
        STRING_EMPTY | BINARY_EMPTY => Statistics {
            messages,
            ..statistics
        },
        _ => statistics,
    }
}

// Whether the buffered amount would pass its limit: refusal 7.
pub fn would_overflow(stream: &Stream, length: u32) -> bool
    ensures { result ≡ overflows length stream.now }
{
    BUFFERED_MAX < stream.buffered as u64 + length as u64
}

// Whether the amount was below the high threshold and now is not.
fn rises(stream: &Stream, after: u32) -> bool
    ensures { result ≡ rises after stream.now }
{
    (stream.buffered as u64) < stream.high && stream.high <= after as u64
}

// An accepted write; the answer tells whether the amount reached the high threshold. One whose amount would overflow is none: the stream
// stays, and the answer is no.
pub fn written(stream: &mut Stream, protocol: u32, length: u32) -> bool
    ensures { record { stream = stream.new; high = result } ≡ accepting protocol length stream.old }
{
    if would_overflow(stream, length) {
        return false;
    }
    let buffered = stream.buffered + length;
    let high = rises(stream, buffered);
    stream.ssn = ssn_after(super::is_unordered(stream, protocol), stream.ssn);
    stream.buffered = buffered;
    stream.statistics = sent(stream.statistics, protocol, length);
    high
}

// ---- bytes are released

// Whether the amount was above the low threshold and now is not.
fn falls(stream: &Stream, after: u32) -> bool
    ensures { result ≡ falls after stream.now }
{
    stream.low < stream.buffered as u64 && after as u64 <= stream.low
}

// The amount is signed, and one that is not above zero releases nothing; only one that is above is cast. The answer tells whether the
// amount fell to the low threshold.
pub fn on_buffer_released(stream: &mut Stream, released: i64) -> bool
    ensures { record { stream = stream.new; low = result } ≡ freeing released stream.old }
{
    if released <= 0 {
        return false;
    }
    let buffered = (stream.buffered as u64).saturating_sub(released as u64) as u32;
    let low = falls(stream, buffered);
    stream.buffered = buffered;
    low
}

// ---- a message expires before any of it is sent

// The next SSN drops by 1 modulo 2^16: the expired message's is free again.
pub fn lower_ssn(stream: &mut Stream)
    ensures { stream.new ≡ accounted (ssn_before stream.old.ssn) stream.old.buffered stream.old.statistics stream.old }
{
    stream.ssn = stream.ssn.wrapping_sub(1);
}
