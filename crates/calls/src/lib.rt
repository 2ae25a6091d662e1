// Every call of the sender as a value, and one function that takes any of them: what a script or a list of calls is made of. Only the list
// of expired TSNs, for which a list is lent, stays a call of its own. `meant` of specs/ says which of the model's calls a value is, and
// `said` which of its answers.
#![tactic(auto)]

ghost use Rattle.std.specs.Prelude.{◌≡◌, true};
ghost use Rattle.model.specs.Calls.{answer};
ghost use Rattle.sender_head.specs.Whole.{sender_of, Counted};
ghost use Rattle.calls.specs.Meant.{asked, said, kept, asks_sum, Steps};

use limits::Refusal;
use model::{AbandonedMessage, Chunk, ExpiredMessage, ExpiredTail, Statistics};
use sender_head::Head;

// What changes nothing.
#[derive(Clone, Copy)]
pub enum Query {
    Get { tsn: u32 },
    IsAbandoned { tsn: u32 },
    PeekPending,
    NextMessage,
    NextTsn,
    PendingLength,
    PendingBytes,
    InflightLength,
    InflightBytes,
    EarliestOutstanding,
    PendingContainsStream { identifier: u16 },
    ContainsStream { identifier: u16 },
    BufferedAmount { identifier: u16 },
    LowThreshold { identifier: u16 },
    HighThreshold { identifier: u16 },
    Statistics { identifier: u16 },
}

#[derive(Clone, Copy)]
pub enum Call {
    Open {
        identifier: u16,
        maximum: u32,
    },
    SetReliability {
        identifier: u16,
        unordered: bool,
        kind: u8,
        value: u32,
    },
    SetLow {
        identifier: u16,
        threshold: u64,
    },
    SetHigh {
        identifier: u16,
        threshold: u64,
    },
    Write {
        identifier: u16,
        protocol: u32,
        offset: u64,
        length: u64,
    },
    Release {
        identifier: u16,
        released: i64,
    },
    StartLifetimes {
        clock: u64,
    },
    Send {
        clock: u64,
    },
    ExpirePending {
        clock: u64,
    },
    ExpirePendingTail {
        clock: u64,
    },
    Abandon {
        tsn: u32,
    },
    Acknowledge {
        tsn: u32,
    },
    Pop {
        tsn: u32,
    },
    MarkAll,
    Ask(Query),
}

// What a call answers.
#[derive(Clone, Copy)]
pub enum Answer {
    ToDo(Result<(), Refusal>),
    ToWrite(Result<bool, Refusal>),
    ToRelease(Result<bool, Refusal>),
    ToSend(Result<Option<(u32, Chunk)>, Refusal>),
    ToExpire(Result<Option<ExpiredMessage>, Refusal>),
    ToExpireTail(Result<Option<ExpiredTail>, Refusal>),
    ToAbandon(Option<AbandonedMessage>),
    ToFind(Option<Chunk>),
    ToSeek(Option<u32>),
    ToMeasure(Result<u64, Refusal>),
    ToCount(Result<Statistics, Refusal>),
    Number(u64),
    YesNo(bool),
}

// Of every head and every cells the model's answer, but for the two sums of bytes: these are the kept counters, and the model's where the
// counters are sums (`Counted`).
pub fn ask(h: &Head, cells: &[u64], query: Query) -> Answer
    ensures { (said result ≡ kept query h.now (sender_of h.now cells.now)) × ((asks_sum query ≡ true → Counted h.now cells.now) → said result ≡ answer (asked query) (sender_of h.now cells.now)) }
{
    match query {
        Query::Get { tsn } => Answer::ToFind(sender_asks::get(h, cells, tsn)),
        Query::IsAbandoned { tsn } => Answer::YesNo(sender_asks::is_abandoned(h, cells, tsn)),
        Query::PeekPending => Answer::ToFind(sender_asks::peek_pending(h, cells)),
        Query::NextMessage => Answer::Number(sender_asks::next_message(h)),
        Query::NextTsn => Answer::Number(sender_asks::next_tsn(h, cells) as u64),
        Query::PendingLength => Answer::Number(sender_asks::pending_length(h, cells) as u64),
        Query::PendingBytes => Answer::Number(sender_asks::pending_bytes(h)),
        Query::InflightLength => Answer::Number(sender_asks::inflight_length(h, cells) as u64),
        Query::InflightBytes => Answer::Number(sender_asks::inflight_bytes(h)),
        Query::EarliestOutstanding => Answer::ToSeek(sender_asks::earliest_outstanding(h, cells)),
        Query::PendingContainsStream { identifier } => Answer::YesNo(
            sender_asks::pending_contains_stream(h, cells, identifier),
        ),
        Query::ContainsStream { identifier } => Answer::YesNo(sender_asks::contains_stream(
            h, cells, identifier,
        )),
        Query::BufferedAmount { identifier } => Answer::ToMeasure(sender_asks::buffered_amount(
            h, cells, identifier,
        )),
        Query::LowThreshold { identifier } => Answer::ToMeasure(sender_asks::low_threshold(
            h, cells, identifier,
        )),
        Query::HighThreshold { identifier } => Answer::ToMeasure(sender_asks::high_threshold(
            h, cells, identifier,
        )),
        Query::Statistics { identifier } => Answer::ToCount(sender_asks::statistics(
            h, cells, identifier,
        )),
    }
}

// Of every head and every cells what the code does there, and the model's call in every `Good` state.
pub fn step(h: &mut Head, cells: &mut [u64], call: Call) -> Answer
    ensures { Steps call h.old cells.old h.new cells.new result }
{
    match call {
        Call::Open {
            identifier,
            maximum,
        } => Answer::ToDo(sender_streams::open_stream(h, cells, identifier, maximum)),
        Call::SetReliability {
            identifier,
            unordered,
            kind,
            value,
        } => Answer::ToDo(sender_streams::set_reliability(
            h, cells, identifier, unordered, kind, value,
        )),
        Call::SetLow {
            identifier,
            threshold,
        } => Answer::ToDo(sender_streams::set_low_threshold(h, cells, identifier, threshold)),
        Call::SetHigh {
            identifier,
            threshold,
        } => Answer::ToDo(sender_streams::set_high_threshold(h, cells, identifier, threshold)),
        Call::Write {
            identifier,
            protocol,
            offset,
            length,
        } => Answer::ToWrite(sender_write::write(h, cells, identifier, protocol, offset, length)),
        Call::Release {
            identifier,
            released,
        } => Answer::ToRelease(sender_streams::release(h, cells, identifier, released)),
        Call::StartLifetimes { clock } => Answer::ToDo(sender_calls::start_lifetimes(
            h, cells, clock,
        )),
        Call::Send { clock } => Answer::ToSend(sender_calls::send(h, cells, clock)),
        Call::ExpirePending { clock } => Answer::ToExpire(sender_calls::expire_pending(
            h, cells, clock,
        )),
        Call::ExpirePendingTail { clock } => Answer::ToExpireTail(sender_calls::expire_pending_tail(
            h, cells, clock,
        )),
        Call::Abandon { tsn } => Answer::ToAbandon(sender_calls::abandon(h, cells, tsn)),
        Call::Acknowledge { tsn } => Answer::Number(
            sender_calls::flight::acknowledge(h, cells, tsn) as u64,
        ),
        Call::Pop { tsn } => Answer::ToFind(sender_calls::flight::pop(h, cells, tsn)),
        Call::MarkAll => {
            sender_calls::flight::mark_all(h, cells);
            Answer::ToDo(Ok(()))
        }
        Call::Ask(query) => ask(h, cells, query),
    }
}
