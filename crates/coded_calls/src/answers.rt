// Answers as words, one behind the other on a tape. specs/Words.antt has the table.
ghost use Rattle.std.specs.Prelude.{◌++◌};
ghost use Rattle.limits.specs.Refusals.{refusal_number};
ghost use Rattle.model.specs.Calls.{to_do, to_send, to_expire, to_expire_tail, to_abandon, to_find, to_seek, to_measure, to_count};
ghost use Rattle.model.specs.Requests.{sacked};
ghost use Rattle.calls.specs.Meant.{said};
ghost use Rattle.coded_calls.specs.Tapes.{Puts};
ghost use Rattle.coded_calls.specs.Words.{front, message_words, chunk_words, crossed_words, words, reply_words};

use super::tape::Tape;
use calls::Answer;
use limits::Refusal;
use model::{AbandonedMessage, Chunk, ExpiredMessage, ExpiredTail, Message, Statistics};

// What the fragments of a message share.
fn put_message(tape: &mut Tape, message: Message)
    ensures { Puts tape.old tape.new (message_words message) }
{
    tape.put_all(&[
        message.stream as u64,
        message.ssn as u64,
        cells::bit(message.unordered),
        message.protocol as u64,
        message.number,
        message.reliability.kind as u64,
        message.reliability.value as u64,
        cells::bit(message.deadline.is_some()),
        message.deadline.unwrap_or(0),
        0,
    ])
}

fn put_chunk(tape: &mut Tape, chunk: Chunk)
    ensures { Puts tape.old tape.new (chunk_words chunk) }
{
    put_message(tape, chunk.message);
    tape.put_all(&[
        chunk.offset,
        chunk.length as u64,
        chunk.nsent as u64,
        cells::bit(chunk.since.is_some()),
        chunk.since.unwrap_or(0),
        cells::bit(chunk.beginning),
        cells::bit(chunk.ending),
        cells::bit(chunk.acked),
        cells::bit(chunk.abandoned),
        cells::bit(chunk.retransmit),
    ])
}

// Of any kind.
fn put_refused(tape: &mut Tape, kind: u64, refusal: Refusal)
    ensures { Puts tape.old tape.new (front kind 0 (refusal_number refusal) 0 0) }
{
    tape.put_all(&[kind, 0, refusal.number() as u64, 0, 0])
}

fn put_done(tape: &mut Tape, answer: Result<(), Refusal>)
    ensures { Puts tape.old tape.new (λ us. words (to_do answer) ++ us) }
{
    match answer {
        Err(refusal) => put_refused(tape, 1, refusal),
        Ok(()) => tape.put_all(&[1, 1, 0, 0, 0]),
    }
}

// Whether a write crossed the high threshold, or a release the low one.
fn put_crossed(tape: &mut Tape, kind: u64, answer: Result<bool, Refusal>)
    ensures { Puts tape.old tape.new (λ us. crossed_words kind answer ++ us) }
{
    match answer {
        Err(refusal) => put_refused(tape, kind, refusal),
        Ok(crossed) => tape.put_all(&[kind, 1, cells::bit(crossed), 0, 0]),
    }
}

fn put_yielded(tape: &mut Tape, tsn: u32, chunk: Chunk)
    ensures { Puts tape.old tape.new (λ us. words (to_send (Ok (Some (tsn, chunk)))) ++ us) }
{
    tape.put_all(&[4, 1, tsn as u64, 0, 0]);
    put_chunk(tape, chunk)
}

fn put_sent(tape: &mut Tape, answer: Result<Option<(u32, Chunk)>, Refusal>)
    ensures { Puts tape.old tape.new (λ us. words (to_send answer) ++ us) }
{
    match answer {
        Err(refusal) => put_refused(tape, 4, refusal),
        Ok(Some((tsn, chunk))) => put_yielded(tape, tsn, chunk),
        Ok(None) => tape.put_all(&[4, 2, 0, 0, 0]),
    }
}

fn put_expired(tape: &mut Tape, answer: Result<Option<ExpiredMessage>, Refusal>)
    ensures { Puts tape.old tape.new (λ us. words (to_expire answer) ++ us) }
{
    match answer {
        Err(refusal) => put_refused(tape, 5, refusal),
        Ok(Some(message)) => tape.put_all(&[
            5,
            1,
            message.stream as u64,
            cells::bit(message.unordered),
            message.bytes,
        ]),
        Ok(None) => tape.put_all(&[5, 2, 0, 0, 0]),
    }
}

fn put_tail_expired(tape: &mut Tape, answer: Result<Option<ExpiredTail>, Refusal>)
    ensures { Puts tape.old tape.new (λ us. words (to_expire_tail answer) ++ us) }
{
    match answer {
        Err(refusal) => put_refused(tape, 6, refusal),
        Ok(Some(tail)) => tape.put_all(&[6, 1, tail.stream as u64, tail.number, tail.bytes]),
        Ok(None) => tape.put_all(&[6, 2, 0, 0, 0]),
    }
}

fn put_abandoned(tape: &mut Tape, answer: Option<AbandonedMessage>)
    ensures { Puts tape.old tape.new (λ us. words (to_abandon answer) ++ us) }
{
    match answer {
        None => tape.put_all(&[7, 0, 0, 0, 0]),
        Some(message) => tape.put_all(&[7, 1, message.stream as u64, message.bytes, 0]),
    }
}

fn put_found(tape: &mut Tape, answer: Option<Chunk>)
    ensures { Puts tape.old tape.new (λ us. words (to_find answer) ++ us) }
{
    match answer {
        None => tape.put_all(&[8, 0, 0, 0, 0]),
        Some(chunk) => {
            tape.put_all(&[8, 1, 0, 0, 0]);
            put_chunk(tape, chunk)
        }
    }
}

fn put_earliest(tape: &mut Tape, answer: Option<u32>)
    ensures { Puts tape.old tape.new (λ us. words (to_seek answer) ++ us) }
{
    match answer {
        None => tape.put_all(&[9, 0, 0, 0, 0]),
        Some(tsn) => tape.put_all(&[9, 1, tsn as u64, 0, 0]),
    }
}

fn put_amount(tape: &mut Tape, answer: Result<u64, Refusal>)
    ensures { Puts tape.old tape.new (λ us. words (to_measure answer) ++ us) }
{
    match answer {
        Err(refusal) => put_refused(tape, 10, refusal),
        Ok(amount) => tape.put_all(&[10, 1, amount, 0, 0]),
    }
}

fn put_counted(tape: &mut Tape, answer: Result<Statistics, Refusal>)
    ensures { Puts tape.old tape.new (λ us. words (to_count answer) ++ us) }
{
    match answer {
        Err(refusal) => put_refused(tape, 11, refusal),
        Ok(sent) => tape.put_all(&[11, 1, sent.messages, sent.bytes, 0]),
    }
}

// The answer of a call.
pub fn put_answer(tape: &mut Tape, answer: Answer)
    ensures { Puts tape.old tape.new (λ us. words (said answer) ++ us) }
{
    match answer {
        Answer::ToDo(inner) => put_done(tape, inner),
        Answer::ToWrite(inner) => put_crossed(tape, 2, inner),
        Answer::ToRelease(inner) => put_crossed(tape, 3, inner),
        Answer::ToSend(inner) => put_sent(tape, inner),
        Answer::ToExpire(inner) => put_expired(tape, inner),
        Answer::ToExpireTail(inner) => put_tail_expired(tape, inner),
        Answer::ToAbandon(inner) => put_abandoned(tape, inner),
        Answer::ToFind(inner) => put_found(tape, inner),
        Answer::ToSeek(inner) => put_earliest(tape, inner),
        Answer::ToMeasure(inner) => put_amount(tape, inner),
        Answer::ToCount(inner) => put_counted(tape, inner),
        Answer::Number(number) => tape.put_all(&[13, 1, number, 0, 0]),
        Answer::YesNo(yes) => tape.put_all(&[14, 1, cells::bit(yes), 0, 0]),
    }
}

// The answer to a SACK.
pub fn put_sacked(tape: &mut Tape, answer: Result<Option<u64>, Refusal>)
    ensures { Puts tape.old tape.new (λ us. reply_words (sacked answer) ++ us) }
{
    match answer {
        Err(refusal) => put_refused(tape, 15, refusal),
        Ok(Some(bytes)) => tape.put_all(&[15, 1, bytes, 0, 0]),
        Ok(None) => tape.put_all(&[15, 2, 0, 0, 0]),
    }
}
