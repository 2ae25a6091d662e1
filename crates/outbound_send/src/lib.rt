// Lifetimes start, and the head of what is pending goes to the flight. Lifetimes start at the ends of the rings alone, and none where every
// message was seen: in the states that calls reach these are all that is not yet seen, so there each call is the model's (`Does`: what it
// does of any state at all, and that in a `Good` one this is 01's).
#![tactic(auto)]

pub mod push;

ghost use Rattle.std.specs.Prelude.{◌≡◌};
ghost use Rattle.model.specs.Rings.{head, start_lifetimes, send};
ghost use Rattle.model.specs.Told.{told_done, told_sent};
ghost use Rattle.outbound_queue.specs.Outbound.{ring_room};
ghost use Rattle.outbound_send.specs.Lean.{lean_start, lean_send};
ghost use Rattle.outbound_send.specs.Sends.{blocked};
ghost use Rattle.outbound_queue.specs.Calls.{waiting_in, flying_in, LeansOrStays, LeansInOrStays};

use limits::Refusal;
use model::Chunk;
use outbound_queue::OutboundQueue;

// Starts the lifetimes of the messages not yet seen.
pub fn start_timed_messages(
    q: &mut OutboundQueue,
    cells: &mut [u64],
    clock: u64,
) -> Result<(), Refusal>
    ensures { LeansOrStays told_done (lean_start clock) (start_lifetimes clock) q.old cells.old q.new cells.new result }
{
    if limits::CLOCK_MAX < clock {
        return Err(Refusal::BeyondLimit);
    }
    q.start_rings(cells, clock);
    Ok(())
}

// Whether there is a chunk to send, and no room for it. The room is asked for first: it is a number, and a chunk has to be unpacked.
fn is_blocked(q: &OutboundQueue, cells: &[u64]) -> bool
    ensures { result ≡ blocked (head (waiting_in q.now cells.now)) (ring_room cells.now) (flying_in q.now cells.now).entries }
{
    if !q.is_full(cells) {
        return false;
    }
    q.peek_pending(cells).is_some()
}

// The head goes to the flight, with lifetimes started. What is refused is refused before the first store.
pub fn send_next(
    q: &mut OutboundQueue,
    cells: &mut [u64],
    clock: u64,
) -> Result<Option<(u32, Chunk)>, Refusal>
    ensures { LeansInOrStays told_sent (λ room. lean_send room clock) (λ room. send room clock) q.old cells.old q.new cells.new result }
{
    if limits::CLOCK_MAX < clock {
        return Err(Refusal::BeyondLimit);
    }
    if is_blocked(q, cells) {
        return Err(Refusal::FlightFull);
    }
    let tsn = q.next_tsn(cells);
    q.start_rings(cells, clock);
    let Some(words) = q.take_head(cells) else {
        return Ok(None);
    };
    let stamped = chunk_slot::stamped(words, clock);
    q.file(cells, stamped);
    Ok(Some((tsn, chunk_slot::unpack(stamped))))
}
