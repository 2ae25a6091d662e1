// A request in eight words: which one it is, then its arguments. Any words are one: a number that an argument cannot have is taken modulo
// what it can. A SACK is told by where its bytes stand. specs/Coded.antt has the table.
#![tactic(auto)]

pub mod answers;
pub mod tape;

ghost use Rattle.std.specs.Prelude.{◌≡◌, List, ℕ, ◌%◌, get_or};
ghost use Rattle.coded_calls.specs.Coded.{amount_of, question, change, plain_of, coded, Roomy, request_of};

use calls::{Call, Query};

// The list of expired TSNs needs a list that is lent with it, and a SACK its bytes, so they are apart.
#[derive(Clone, Copy)]
pub enum Coded {
    Plain(Call),
    Expired { clock: u64, room: usize },
    Sack { from: usize, count: usize },
}

// The most TSNs that a listing has room for: as many as 01's flight has entries.
pub const LIST_MAX: usize = 256;

// An identifier.
fn low16(word: u64) -> u16
    ensures { result ≡ word % 65536 }
{
    (word % 65_536) as u16
}

// A TSN, a payload type, a setting.
fn low32(word: u64) -> u32
    ensures { result ≡ word % 4294967296 }
{
    (word % 4_294_967_296) as u32
}

// A number of bytes that may be negative: below zero it is told by how much it is below -1.
fn signed(word: u64, negative: bool) -> i64
    ensures { result ≡ amount_of word negative }
{
    let magnitude = (word % 9_223_372_036_854_775_808) as i64;
    if negative { !magnitude } else { magnitude }
}

// Rows 0 to 13. A row stays a number, since that is what a word holds.
fn change(row: u64, a: u64, b: u64, c: u64, d: u64) -> Call
    ensures { result ≡ change row a b c d }
{
    let identifier = low16(a);
    let tsn = low32(a);
    match row {
        0 => Call::Open {
            identifier,
            maximum: low32(b),
        },
        1 => Call::SetReliability {
            identifier,
            unordered: b % 2 == 1,
            kind: (c % 256) as u8,
            value: low32(d),
        },
        2 => Call::SetLow {
            identifier,
            threshold: b,
        },
        3 => Call::SetHigh {
            identifier,
            threshold: b,
        },
        4 => Call::Write {
            identifier,
            protocol: low32(b),
            offset: c,
            length: d,
        },
        5 => Call::Release {
            identifier,
            released: signed(b, c % 2 == 1),
        },
        6 => Call::StartLifetimes { clock: a },
        7 => Call::Send { clock: a },
        8 => Call::ExpirePending { clock: a },
        9 => Call::ExpirePendingTail { clock: a },
        10 => Call::Abandon { tsn },
        11 => Call::Acknowledge { tsn },
        12 => Call::Pop { tsn },
        _ => Call::MarkAll,
    }
}

// Rows 14 to 29, counted from 0.
fn question(row: u64, a: u64) -> Query
    ensures { result ≡ question row a }
{
    let identifier = low16(a);
    let tsn = low32(a);
    match row {
        0 => Query::Get { tsn },
        1 => Query::IsAbandoned { tsn },
        2 => Query::PeekPending,
        3 => Query::NextMessage,
        4 => Query::NextTsn,
        5 => Query::PendingLength,
        6 => Query::PendingBytes,
        7 => Query::InflightLength,
        8 => Query::InflightBytes,
        9 => Query::EarliestOutstanding,
        10 => Query::PendingContainsStream { identifier },
        11 => Query::ContainsStream { identifier },
        12 => Query::BufferedAmount { identifier },
        13 => Query::LowThreshold { identifier },
        14 => Query::HighThreshold { identifier },
        _ => Query::Statistics { identifier },
    }
}

// Rows 0 to 29.
pub fn plain(row: u64, a: u64, b: u64, c: u64, d: u64) -> Call
    ensures { result ≡ plain_of row a b c d }
{
    match row.checked_sub(14) {
        None => change(row, a, b, c, d),
        Some(asked) => Call::Ask(question(asked, a)),
    }
}

// A word, or 0 where there is none.
fn word(words: &[u64], i: usize) -> u64
    ensures { result ≡ get_or words.now i 0 }
{
    words.get(i).copied().unwrap_or(0)
}

// The request that the words are, whatever the bytes.
pub fn read(words: &[u64]) -> Coded
    ensures { ((bytes : List ℕ) → coded result bytes ≡ request_of words.now bytes) × Roomy result }
{
    let row = word(words, 0);
    let a = word(words, 1);
    let b = word(words, 2);
    match row {
        0..=29 => Coded::Plain(plain(row, a, b, word(words, 3), word(words, 4))),
        31 => Coded::Sack {
            from: a as usize,
            count: b as usize,
        },
        _ => Coded::Expired {
            clock: a,
            room: (b as usize).min(LIST_MAX),
        },
    }
}
