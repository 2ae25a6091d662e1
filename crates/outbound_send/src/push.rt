// A message is pushed: cut into fragments, with the next number, behind the other chunks of its ring.
ghost use Rattle.std.specs.Prelude.{◌≡◌, ◌&&◌, ◌+◌, ◌≤◌, length, leb, ltb, eqb};
ghost use Rattle.limits.specs.Limits.{number_max};
ghost use Rattle.model.specs.State.{at, lane_of};
ghost use Rattle.model.specs.Told.{told_done};
ghost use Rattle.outbound_queue.specs.Outbound.{ring_room};
ghost use Rattle.outbound_send.specs.Pushes.{pushing};
ghost use Rattle.outbound_queue.specs.Calls.{waiting_in, GoesOrStays};

use limits::Refusal;
use model::Message;
use outbound_queue::OutboundQueue;

// The last number, which no message takes.
const LAST_NUMBER: u64 = 18_446_744_073_709_551_615;

// Whether a message of this many fragments finds no number.
fn is_spent(fragments: usize, number: u64) -> bool
    ensures { (result ≡ (leb 1 fragments && eqb number number_max)) × (number ≤ number_max) }
{
    0 < fragments && number == LAST_NUMBER
}

// Whether a ring has no room for this many more.
fn lacks_room(q: OutboundQueue, cells: &[u64], unordered: bool, fragments: usize) -> bool
    requires { fragments ≤ 4295032829 }
    ensures { result ≡ ltb (ring_room cells.now) (length (at (lane_of unordered) (waiting_in q cells.now)) + fragments) }
{
    let k = cells.len() / 24 * 8;
    if unordered {
        let room = cells::room(&cells[0..k]);
        return room < q.pending.unordered.count(&cells[0..k]) + fragments;
    }
    let room = cells::room(&cells[k..k + k]);
    room < q.pending.ordered.count(&cells[k..k + k]) + fragments
}

// A message in fragments joins the back of its ring, with the next number, which it takes if there is a fragment.
pub fn push(
    q: &mut OutboundQueue,
    cells: &mut [u64],
    message: Message,
    maximum: u16,
    offset: u64,
    length: u32,
) -> Result<(), Refusal>
    ensures { GoesOrStays told_done (pushing (ring_room cells.old) message maximum offset length) q.old cells.old q.new cells.new result }
{
    if limits::OFFSET_MAX < offset {
        return Err(Refusal::BeyondLimit);
    }
    let fragments = pending_queue::cutting::fragments(length, maximum);
    if lacks_room(*q, cells, message.unordered, fragments) {
        return Err(Refusal::RingFull);
    }
    let number = q.next_message_id;
    if is_spent(fragments, number) {
        return Err(Refusal::NumbersSpent);
    }
    let ready = Message { number, ..message };
    q.add_fragments(cells, ready, maximum, offset, length);
    if fragments < 1 {
        return Ok(());
    }
    q.next_message_id = number + 1;
    Ok(())
}
