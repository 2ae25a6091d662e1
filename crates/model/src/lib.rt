// The plain data that every crate of the sender shares. What the calls do with it is said in specs/, after document 01.
#![tactic(auto)]

use limits::Moment;

// How a message is kept alive: kind 1 is Rexmit, 2 is Timed, any other Reliable; the value is a count or a lifetime.
#[derive(Clone, Copy)]
pub struct Reliability {
    pub kind: u8,
    pub value: u32,
}

// What the fragments of a message share. `protocol` is 01's payload type.
#[derive(Clone, Copy)]
pub struct Message {
    pub stream: u16,
    pub ssn: u16,
    pub unordered: bool,
    pub protocol: u32,
    pub number: u64,
    pub reliability: Reliability,
    pub deadline: Moment,
}

// A fragment, pending or in flight. `length` counts the bytes that it still holds; its TSN is its place in the flight.
#[derive(Clone, Copy)]
pub struct Chunk {
    pub message: Message,
    pub beginning: bool,
    pub ending: bool,
    pub offset: u64,
    pub length: u32,
    pub since: Moment,
    pub nsent: u32,
    pub acked: bool,
    pub abandoned: bool,
    pub retransmit: bool,
}

// Messages and bytes sent, as WebRTC's statistics count them.
#[derive(Clone, Copy)]
pub struct Statistics {
    pub messages: u64,
    pub bytes: u64,
}

// An open stream. `maximum` bounds a chunk's payload, `ssn` is the next message's, `low` and `high` are the thresholds.
#[derive(Clone, Copy)]
pub struct Stream {
    pub identifier: u16,
    pub maximum: u16,
    pub unordered: bool,
    pub reliability: Reliability,
    pub ssn: u16,
    pub buffered: u32,
    pub low: u64,
    pub high: u64,
    pub statistics: Statistics,
}

// What an expiry frees: a message of which nothing was sent.
#[derive(Clone, Copy)]
pub struct ExpiredMessage {
    pub stream: u16,
    pub unordered: bool,
    pub bytes: u64,
}

// What the expiry of a tail gives up: the rest of the message under way.
#[derive(Clone, Copy)]
pub struct ExpiredTail {
    pub stream: u16,
    pub number: u64,
    pub bytes: u64,
}

// What an abandonment gives up: the message of a TSN.
#[derive(Clone, Copy)]
pub struct AbandonedMessage {
    pub stream: u16,
    pub bytes: u64,
}

// A gap block of a SACK: it acknowledges the TSNs from `start` to `end` behind the cumulative one.
#[derive(Clone, Copy)]
pub struct Block {
    pub start: u16,
    pub end: u16,
}

// What the bytes of a DATA chunk say; `length` counts the payload, which stands behind the 16 bytes of the header.
#[derive(Clone, Copy)]
pub struct DataChunk {
    pub tsn: u32,
    pub stream: u16,
    pub ssn: u16,
    pub flags: u8,
    pub protocol: u32,
    pub length: u16,
}
