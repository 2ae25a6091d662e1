// What the calls of the sender answer in a script, a line each.
use calls::{Answer, Call, Query};
use limits::Refusal;
use lines::Page;
use model::{AbandonedMessage, ExpiredMessage, ExpiredTail, Stream};
use sender_head::Head;

// ---- the calls of the sender

// The length of a message that is written, which the answer repeats.
fn written(call: Call) -> u64 {
    match call {
        Call::Write { length, .. } => length,
        _ => 0,
    }
}

// The TSN of a chunk that is asked for.
fn asked(call: Call) -> u32 {
    match call {
        Call::Pop { tsn } | Call::Ask(Query::Get { tsn }) => tsn,
        _ => 0,
    }
}

fn refused(page: &mut Page<impl Print>, refusal: Refusal) {
    println!(page; "R {}", refusal.number());
}

// What a call answered. No script asks a stream's amount or counts.
pub fn answered(page: &mut Page<impl Print>, call: Call, answer: Answer) {
    match answer {
        Answer::ToDo(Err(refusal))
        | Answer::ToWrite(Err(refusal))
        | Answer::ToRelease(Err(refusal))
        | Answer::ToSend(Err(refusal))
        | Answer::ToExpire(Err(refusal))
        | Answer::ToExpireTail(Err(refusal)) => refused(page, refusal),
        Answer::ToSend(Ok(None))
        | Answer::ToExpire(Ok(None))
        | Answer::ToExpireTail(Ok(None))
        | Answer::ToAbandon(None)
        | Answer::ToFind(None)
        | Answer::ToSeek(None) => println!(page; "none"),
        Answer::ToDo(Ok(())) => println!(page; "ok"),
        Answer::ToWrite(Ok(high)) => {
            println!(page; "ok len={} high={}", written(call), high as u8)
        }
        Answer::ToRelease(Ok(low)) => println!(page; "ok low={}", low as u8),
        Answer::ToSend(Ok(Some((tsn, chunk)))) => super::chunk(page, tsn, chunk),
        Answer::ToExpire(
            Ok(
                Some(
                    ExpiredMessage {
                        stream,
                        unordered,
                        bytes,
                    },
                ),
            ),
        ) => { println!(page; "sid={stream} u={} bytes={bytes}", unordered as u8) }
        Answer::ToExpireTail(
            Ok(
                Some(
                    ExpiredTail {
                        stream,
                        number,
                        bytes,
                    },
                ),
            ),
        ) => { println!(page; "sid={stream} msg={number} bytes={bytes}") }
        Answer::ToAbandon(Some(AbandonedMessage { stream, bytes })) => {
            println!(page; "sid={stream} bytes={bytes}")
        }
        Answer::ToFind(Some(chunk)) => super::chunk(page, asked(call), chunk),
        Answer::ToSeek(Some(tsn)) => println!(page; "{tsn}"),
        Answer::Number(n) => match call {
            Call::Acknowledge { .. } => println!(page; "bytes={n}"),
            _ => println!(page; "{n}"),
        },
        Answer::YesNo(yes) => println!(page; "{}", yes as u8),
        Answer::ToMeasure(_) | Answer::ToCount(_) => println!(page; "bad"),
    }
}

// ---- the list of expired TSNs

// A room beyond the flight's is the flight's: no more can have expired.
pub fn expired_within(page: &mut Page<impl Print>, h: &Head, cells: &[u64], clock: u64, room: u64) {
    let mut list = [0u32; 256];
    let room = room.min(256) as usize;
    let mut head = *h;
    match sender_calls::flight::expired_inflight(&mut head, cells, clock, &mut list[..room]) {
        Ok(count) => {
            print!(page; "n={count}");
            for tsn in list.iter().take(count) {
                print!(page; " {tsn}");
            }
            println!(page; "");
        }
        Err(refusal) => refused(page, refusal),
    }
}

// ---- one stream, and the sums

pub fn stream(page: &mut Page<impl Print>, h: &Head, cells: &[u64], identifier: u16) {
    let table = &cells[..sender_head::table_words(cells)];
    match stream_table::find(h.streams, table, identifier) {
        Some((_, found)) => super::stream(page, found),
        None => refused(page, Refusal::NotOpen),
    }
}

// A poke of the script: the amount alone changes.
pub fn set_buffered(
    page: &mut Page<impl Print>,
    h: &Head,
    cells: &mut [u64],
    identifier: u16,
    amount: u32,
) {
    let words = sender_head::table_words(cells);
    let table = &mut cells[..words];
    match stream_table::find(h.streams, table, identifier) {
        Some((place, old)) => {
            let changed = Stream {
                buffered: amount,
                ..old
            };
            stream_table::update(h.streams, table, place, changed);
            println!(page; "ok");
        }
        None => refused(page, Refusal::NotOpen),
    }
}

pub fn counts(page: &mut Page<impl Print>, h: &Head, cells: &[u64]) {
    let pending = sender_asks::pending_length(h, cells);
    let flying = sender_asks::inflight_length(h, cells);
    print!(page; "plen={pending} pbytes={}", sender_asks::pending_bytes(h));
    println!(page; " flen={flying} fbytes={}", sender_asks::inflight_bytes(h));
}
