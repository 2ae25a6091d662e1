// The flat reply of each answer: 01's number, and the values of its case. In a reply all that its case does not have is 0.
ghost use Rattle.std.specs.Prelude.{◌≡◌};
ghost use Rattle.flat.specs.Replies.{only_number, yes_or_no, number_is, flat_done, flat_written, flat_released, flat_listed, flat_earliest, flat_moment, flat_amount, flat_laid};
ghost use Rattle.flat.specs.Replies.{flat_counted, fragment_of, no_fragment, flat_sent, flat_found, none_freed, flat_expired, flat_tail, flat_abandoned, none_sacked, flat_sacked};

// C hears a number, which is 0 where nothing is refused: so the four that make a reply with nothing else take it as a number. Each answer has a
// function of its own, two of one type as well: tools/calls.table names it, and specs/Replies.antt says its reply.
use super::{Counts, Fragment, Freed, Reply, Sacked};
use limits::{Moment, Refusal};
use model::{AbandonedMessage, Chunk, ExpiredMessage, ExpiredTail, Statistics};

// ---- numbers, yes and no

pub fn only(number: u8) -> Reply
    ensures { result ≡ only_number number }
{
    Reply {
        value: 0,
        refusal: number,
        yes: false,
    }
}

pub fn yes_or_no(b: bool) -> Reply
    ensures { result ≡ yes_or_no b }
{
    Reply {
        value: 0,
        refusal: 0,
        yes: b,
    }
}

pub fn number(n: u64) -> Reply
    ensures { result ≡ number_is n }
{
    Reply {
        value: n,
        refusal: 0,
        yes: true,
    }
}

pub fn done(a: Result<(), Refusal>) -> Reply
    ensures { result ≡ flat_done a }
{
    match a {
        Ok(()) => only(0),
        Err(refusal) => only(refusal.number()),
    }
}

pub fn written(a: Result<bool, Refusal>) -> Reply
    ensures { result ≡ flat_written a }
{
    match a {
        Ok(high) => yes_or_no(high),
        Err(refusal) => only(refusal.number()),
    }
}

pub fn released(a: Result<bool, Refusal>) -> Reply
    ensures { result ≡ flat_released a }
{
    match a {
        Ok(low) => yes_or_no(low),
        Err(refusal) => only(refusal.number()),
    }
}

pub fn listed(a: Result<usize, Refusal>) -> Reply
    ensures { result ≡ flat_listed a }
{
    match a {
        Ok(n) => number(n as u64),
        Err(refusal) => only(refusal.number()),
    }
}

pub fn earliest(a: Option<u32>) -> Reply
    ensures { result ≡ flat_earliest a }
{
    match a {
        Some(t) => number(t as u64),
        None => only(0),
    }
}

pub fn moment(a: Moment) -> Reply
    ensures { result ≡ flat_moment a }
{
    match a {
        None => only(0),
        Some(time) => number(time),
    }
}

pub fn amount(a: Result<u64, Refusal>) -> Reply
    ensures { result ≡ flat_amount a }
{
    match a {
        Ok(n) => number(n),
        Err(refusal) => only(refusal.number()),
    }
}

pub fn laid(a: Result<usize, Refusal>) -> Reply
    ensures { result ≡ flat_laid a }
{
    match a {
        Ok(n) => number(n as u64),
        Err(refusal) => only(refusal.number()),
    }
}

pub fn counted(a: Result<Statistics, Refusal>) -> Counts
    ensures { result ≡ flat_counted a }
{
    match a {
        Ok(sent) => Counts {
            messages: sent.messages,
            bytes: sent.bytes,
            refusal: 0,
        },
        Err(refusal) => Counts {
            messages: 0,
            bytes: 0,
            refusal: refusal.number(),
        },
    }
}

// ---- chunks

fn of_chunk(tsn: u32, c: Chunk) -> Fragment
    ensures { result ≡ fragment_of tsn c }
{
    Fragment {
        message_id: c.message.number,
        offset: c.offset,
        deadline: c.message.deadline.unwrap_or(0),
        since: c.since.unwrap_or(0),
        tsn,
        length: c.length,
        protocol: c.message.protocol,
        value: c.message.reliability.value,
        nsent: c.nsent,
        stream: c.message.stream,
        ssn: c.message.ssn,
        kind: c.message.reliability.kind,
        refusal: 0,
        some: true,
        has_deadline: c.message.deadline.is_some(),
        has_since: c.since.is_some(),
        unordered: c.message.unordered,
        beginning: c.beginning,
        ending: c.ending,
        acked: c.acked,
        abandoned: c.abandoned,
        retransmit: c.retransmit,
    }
}

fn no_fragment(number: u8) -> Fragment
    ensures { result ≡ no_fragment number }
{
    Fragment {
        message_id: 0,
        offset: 0,
        deadline: 0,
        since: 0,
        tsn: 0,
        length: 0,
        protocol: 0,
        value: 0,
        nsent: 0,
        stream: 0,
        ssn: 0,
        kind: 0,
        refusal: number,
        some: false,
        has_deadline: false,
        has_since: false,
        unordered: false,
        beginning: false,
        ending: false,
        acked: false,
        abandoned: false,
        retransmit: false,
    }
}

pub fn sent(a: Result<Option<(u32, Chunk)>, Refusal>) -> Fragment
    ensures { result ≡ flat_sent a }
{
    match a {
        Ok(Some((tsn, chunk))) => of_chunk(tsn, chunk),
        Ok(None) => no_fragment(0),
        Err(refusal) => no_fragment(refusal.number()),
    }
}

// `tsn` is the entry's, or 0 for a chunk that has none yet.
pub fn found(tsn: u32, a: Option<Chunk>) -> Fragment
    ensures { result ≡ flat_found tsn a }
{
    match a {
        Some(c) => of_chunk(tsn, c),
        None => no_fragment(0),
    }
}

// ---- what was freed

fn none_freed(number: u8) -> Freed
    ensures { result ≡ none_freed number }
{
    Freed {
        message_id: 0,
        bytes: 0,
        stream: 0,
        refusal: number,
        some: false,
        unordered: false,
    }
}

pub fn expired(a: Result<Option<ExpiredMessage>, Refusal>) -> Freed
    ensures { result ≡ flat_expired a }
{
    match a {
        Ok(Some(message)) => Freed {
            message_id: 0,
            bytes: message.bytes,
            stream: message.stream,
            refusal: 0,
            some: true,
            unordered: message.unordered,
        },
        Ok(None) => none_freed(0),
        Err(refusal) => none_freed(refusal.number()),
    }
}

pub fn tail(a: Result<Option<ExpiredTail>, Refusal>) -> Freed
    ensures { result ≡ flat_tail a }
{
    match a {
        Ok(Some(tail)) => Freed {
            message_id: tail.number,
            bytes: tail.bytes,
            stream: tail.stream,
            refusal: 0,
            some: true,
            unordered: false,
        },
        Ok(None) => none_freed(0),
        Err(refusal) => none_freed(refusal.number()),
    }
}

pub fn abandoned(a: Option<AbandonedMessage>) -> Freed
    ensures { result ≡ flat_abandoned a }
{
    match a {
        Some(message) => Freed {
            message_id: 0,
            bytes: message.bytes,
            stream: message.stream,
            refusal: 0,
            some: true,
            unordered: false,
        },
        None => none_freed(0),
    }
}

// ---- what a SACK released

fn none_sacked(number: u8) -> Sacked
    ensures { result ≡ none_sacked number }
{
    Sacked {
        bytes: 0,
        low: 0,
        refusal: number,
        stale: number == 0,
    }
}

pub fn sacked(a: Result<Option<u64>, Refusal>) -> Sacked
    ensures { result ≡ flat_sacked a }
{
    match a {
        Ok(Some(bytes)) => Sacked {
            bytes,
            low: 0,
            refusal: 0,
            stale: false,
        },
        Ok(None) => none_sacked(0),
        Err(refusal) => none_sacked(refusal.number()),
    }
}
