// What has expired goes: a wholly unsent message as if it had never been written, the rest of one that was sent in part behind a terminator. A
// message's leading run in each ring goes: in the states that calls reach that is all of it, so there each call is the model's (`Does`: what it
// does of any state at all, and that in a `Good` one this is 01's).
ghost use Rattle.std.specs.Prelude.{◌≡◌};
ghost use Rattle.model.specs.Rings.{overdue, expires, tail_expires, expire_pending_tail};
ghost use Rattle.model.specs.Told.{told_tail};
ghost use Rattle.outbound_abandon.specs.LeanExpiry.{ExpiresHeadOrStays, lean_expire_tail};
ghost use Rattle.outbound_queue.specs.Calls.{LeansInOrStays};

use limits::Refusal;
use model::{Chunk, ExpiredMessage, ExpiredTail};
use outbound_queue::OutboundQueue;

// Not of type 50, and at or past its deadline.
fn is_overdue(chunk: Chunk, clock: u64) -> bool
    ensures { result ≡ overdue clock chunk }
{
    chunk.message.protocol != 50 && limits::reached(chunk.message.deadline, clock)
}

// A first fragment that is not empty and is overdue.
fn is_expired(chunk: Chunk, clock: u64) -> bool
    ensures { result ≡ expires clock chunk }
{
    chunk.beginning && 0 < chunk.length && is_overdue(chunk, clock)
}

// A wholly unsent message at the head goes, and takes no TSN; behind an ordered one the SSNs of its stream close the gap. The stream's own
// next SSN is the caller's to lower (`dropped`).
pub fn expire_pending(
    q: &mut OutboundQueue,
    cells: &mut [u64],
    clock: u64,
) -> Result<Option<ExpiredMessage>, Refusal>
    ensures { ExpiresHeadOrStays clock q.old cells.old q.new cells.new result }
{
    if limits::CLOCK_MAX < clock {
        return Err(Refusal::BeyondLimit);
    }
    let Some(chunk) = q.peek_pending(cells) else {
        return Ok(None);
    };
    if !is_expired(chunk, clock) {
        return Ok(None);
    }
    let message = chunk.message;
    let removed = q.remove_pending(cells, message.number);
    if !message.unordered {
        q.lower_ssns(cells, message.stream);
    }
    Ok(Some(ExpiredMessage {
        stream: message.stream,
        unordered: message.unordered,
        bytes: removed.bytes,
    }))
}

// No first fragment, and overdue.
fn tail_is_expired(chunk: Chunk, clock: u64) -> bool
    ensures { result ≡ tail_expires clock chunk }
{
    !chunk.beginning && is_overdue(chunk, clock)
}

// Gives up the message under way, if its rest has expired: its entries are the newest in flight.
pub fn expire_pending_tail(
    q: &mut OutboundQueue,
    cells: &mut [u64],
    clock: u64,
) -> Result<Option<ExpiredTail>, Refusal>
    ensures { LeansInOrStays told_tail (λ room. lean_expire_tail room clock) (λ room. expire_pending_tail clock) q.old cells.old q.new cells.new result }
{
    if limits::CLOCK_MAX < clock {
        return Err(Refusal::BeyondLimit);
    }
    let Some(chunk) = q.peek_pending(cells) else {
        return Ok(None);
    };
    if !tail_is_expired(chunk, clock) {
        return Ok(None);
    }
    let message = chunk.message;
    let near = q.inflight_len(cells);
    let bytes = super::give_up(q, cells, near, message.number);
    Ok(Some(ExpiredTail {
        stream: message.stream,
        number: message.number,
        bytes,
    }))
}
