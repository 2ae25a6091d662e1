// One stream: its settings, and what the fragments of a message share. What a write, a release and an expiry do to it stands in
// `amounts`, the table of streams in `stream_table`. A message is cut by the caller, who has the ring.
#![tactic(auto)]

pub mod amounts;

ghost use Rattle.std.specs.Prelude.{◌≡◌};
ghost use Rattle.model.specs.Streams.{opened, delivering, thresholds};
ghost use Rattle.model.specs.Messages.{is_unordered, message_of};

use model::{Message, Reliability, Statistics, Stream};

// A payload type.
const DCEP: u32 = 50;

// The largest number: where the statistics stop, and a new stream's high threshold.
pub const UNBOUNDED: u64 = u64::MAX;

// ---- settings

// A stream as it is opened: ordered, Reliable, and never high.
pub fn new(identifier: u16, maximum: u16) -> Stream
    ensures { result ≡ opened identifier maximum }
{
    Stream {
        identifier,
        maximum,
        unordered: false,
        reliability: Reliability { kind: 0, value: 0 },
        ssn: 0,
        buffered: 0,
        low: 0,
        high: UNBOUNDED,
        statistics: Statistics {
            messages: 0,
            bytes: 0,
        },
    }
}

// Messages that are written from now on are delivered so; those that are pending keep what they have.
pub fn set_reliability_params(stream: &mut Stream, unordered: bool, kind: u8, value: u32)
    ensures { stream.new ≡ delivering unordered (record { kind = kind; value = value }) stream.old }
{
    stream.unordered = unordered;
    stream.reliability = Reliability { kind, value };
}

pub fn set_buffered_amount_low_threshold(stream: &mut Stream, low: u64)
    ensures { stream.new ≡ thresholds low stream.old.high stream.old }
{
    stream.low = low;
}

pub fn set_buffered_amount_high_threshold(stream: &mut Stream, high: u64)
    ensures { stream.new ≡ thresholds stream.old.low high stream.old }
{
    stream.high = high;
}

// ---- a message of a stream

// DCEP is always ordered.
pub fn is_unordered(stream: &Stream, protocol: u32) -> bool
    ensures { result ≡ is_unordered protocol stream.now }
{
    protocol != DCEP && stream.unordered
}

// What the fragments of a message share. Its lifetime starts later.
pub fn message(stream: &Stream, protocol: u32, number: u64) -> Message
    ensures { result ≡ message_of protocol number stream.now }
{
    Message {
        stream: stream.identifier,
        ssn: stream.ssn,
        unordered: is_unordered(stream, protocol),
        protocol,
        number,
        reliability: stream.reliability,
        deadline: None,
    }
}
