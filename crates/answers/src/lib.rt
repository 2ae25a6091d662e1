// What the calls of the sender answer in a script, as lines on a page: a chunk and a stream here, each call's answer in `sender`, the whole
// state in `state`, and what is of the script's bytes in `arrays`.
#![tactic(auto)]

pub mod arrays;
pub mod sender;
pub mod state;

use lines::{Dashed, Page};
use model::{Chunk, Reliability, Stream};
use std::fmt;

// The five payload types of the Rust by number, and every other by a word.
#[derive(Clone, Copy)]
struct Protocol(u32);

impl fmt::Display for Protocol {
    fn fmt<W: fmt::Write>(&self, f: &mut fmt::Formatter<W>) -> fmt::Result {
        match self.0 {
            50 | 51 | 53 | 56 | 57 => write!(f, "{}", self.0),
            _ => write!(f, "other"),
        }
    }
}

// Kinds that are neither Rexmit nor Timed are the one kind Reliable.
#[derive(Clone, Copy)]
struct Kept(Reliability);

impl fmt::Display for Kept {
    fn fmt<W: fmt::Write>(&self, f: &mut fmt::Formatter<W>) -> fmt::Result {
        let Reliability { kind, value } = self.0;
        match kind {
            1 | 2 => write!(f, "{kind}:{value}"),
            _ => write!(f, "0:{value}"),
        }
    }
}

pub fn chunk(page: &mut Page<impl Print>, tsn: u32, chunk: Chunk) {
    let message = chunk.message;
    let flags = wire::flags::octet(chunk);
    print!(page;
        "tsn={tsn} sid={} ssn={} flags={flags}",
        message.stream, message.ssn
    );
    print!(page; " type={}", Protocol(message.protocol));
    // A chunk that holds no byte has no offset.
    let offset = (chunk.length > 0).then_some(chunk.offset);
    print!(page; " off={} len={}", Dashed(offset), chunk.length);
    print!(page; " msg={} rel={}", message.number, Kept(message.reliability));
    print!(page;
        " deadline={} since={}",
        Dashed(message.deadline),
        Dashed(chunk.since)
    );
    print!(page; " nsent={} acked={}", chunk.nsent, chunk.acked as u8);
    println!(page;
        " aband={} retx={} miss=0",
        chunk.abandoned as u8, chunk.retransmit as u8
    );
}

pub fn stream(page: &mut Page<impl Print>, stream: Stream) {
    let sent = stream.statistics;
    print!(page;
        "sid={} m={} ssn={}",
        stream.identifier, stream.maximum, stream.ssn
    );
    print!(page;
        " u={} rel={}",
        stream.unordered as u8,
        Kept(stream.reliability)
    );
    print!(page;
        " buf={} low={} high={}",
        stream.buffered, stream.low, stream.high
    );
    println!(page; " msgs={} bytes={}", sent.messages, sent.bytes);
}
