// Questions beside 01's, which hosts missed. They are no calls of the model: what each answers of its sender, of every head and every cells, is
// said in specs/Beside.
ghost use Rattle.std.specs.Prelude.{◌≡◌, ◌-◌, length};
ghost use Rattle.model.specs.State.{at, lane_of};
ghost use Rattle.ring.specs.Held.{held};
ghost use Rattle.outbound_queue.specs.Outbound.{ring_room};
ghost use Rattle.outbound_queue.specs.Calls.{waiting_in, flying_in};
ghost use Rattle.sender_head.specs.Whole.{room_in, sender_of};
ghost use Rattle.sender_asks.specs.Beside.{oldest_tsn, ring_left, front_deadline, entry_deadline, soonest, next_deadline};

use limits::Moment;
use model::Chunk;
use outbound_queue::OutboundQueue;
use ring::Ring;
use sender_head::Head;

// The oldest TSN in flight, acknowledged or abandoned as it may be.
pub fn oldest_tsn(h: &Head, cells: &[u64]) -> Option<u32>
    ensures { result ≡ oldest_tsn (sender_of h.now cells.now) }
{
    let n = super::inflight_length(h, cells);
    if n < 1 {
        None
    } else {
        Some(h.queue.inflight.oldest)
    }
}

// ---- room

// The same of the queue's own words.
fn left_in(q: OutboundQueue, cells: &[u64], unordered: bool) -> usize
    ensures { result ≡ ring_room cells.now - length (at (lane_of unordered) (waiting_in q cells.now)) }
{
    let k = cells.len() / 24 * 8;
    if unordered {
        let room = cells::room(&cells[0..k]);
        return room - q.pending.unordered.count(&cells[0..k]);
    }
    let room = cells::room(&cells[k..k + k]);
    room - q.pending.ordered.count(&cells[k..k + k])
}

// How many more chunks the ring of unordered messages takes, or that of ordered ones.
pub fn ring_room(h: &Head, cells: &[u64], unordered: bool) -> usize
    ensures { result ≡ ring_left (room_in cells.now) unordered (sender_of h.now cells.now) }
{
    let k = sender_head::table_words(cells);
    let n = cells.len();
    left_in(h.queue, &cells[k..n], unordered)
}

// ---- deadlines

fn front_deadline(front: Option<Chunk>) -> Moment
    ensures { result ≡ front_deadline front }
{
    front?.message.deadline
}

// That of an entry, unless it is abandoned.
fn entry_deadline(chunk: Chunk) -> Moment
    ensures { result ≡ entry_deadline chunk }
{
    if chunk.abandoned {
        None
    } else {
        chunk.message.deadline
    }
}

fn soonest_of(ring: Ring, cells: &[u64]) -> Moment
    ensures { result ≡ soonest (held ring cells.now) }
{
    let mut due = None;
    for i in 0..ring.count(cells) {
        due = limits::earlier(due, entry_deadline(ring.nth(cells, i)));
    }
    due
}

// The soonest in flight, of the queue's own words.
fn flight_deadline(q: OutboundQueue, cells: &[u64]) -> Moment
    ensures { result ≡ soonest (flying_in q cells.now).entries }
{
    let k = cells.len() / 24 * 8;
    soonest_of(q.inflight.ring, &cells[k + k..k + k + k])
}

// The earlier of the head's deadline and of those in flight. Before it, no call finds that a message has expired.
pub fn next_deadline(h: &Head, cells: &[u64]) -> Moment
    ensures { result ≡ next_deadline (sender_of h.now cells.now) }
{
    let front = super::peek_pending(h, cells);
    let first = front_deadline(front);
    let k = sender_head::table_words(cells);
    let n = cells.len();
    let flying = flight_deadline(h.queue, &cells[k..n]);
    limits::earlier(first, flying)
}
