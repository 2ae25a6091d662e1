// The TSNs in flight whose message has expired. In the states that calls reach the message under way is the only one that is also pending, so
// there the list is the model's (`Finds`: what the call lists of any state at all, and that in a `Good` one whose numbers are kept this is 01's).
ghost use Rattle.std.specs.Prelude.{◌≡◌};
ghost use Rattle.demands.specs.Words.{number_under_way};
ghost use Rattle.outbound_abandon.specs.LeanListing.{named, Finds};
ghost use Rattle.outbound_queue.specs.Calls.{waiting_in};

use limits::Refusal;
use outbound_queue::OutboundQueue;
use payload_queue::Pending;

// The message under way: the only one that can be both in flight and pending.
fn under_way(q: &OutboundQueue, cells: &[u64]) -> Pending
    ensures { result ≡ named (number_under_way (waiting_in q.now cells.now)) }
{
    if q.pending.selected == 0 {
        return None;
    }
    let chunk = q.peek_pending(cells)?;
    Some(chunk.message.number)
}

// The TSNs in flight whose message has expired, oldest first, in the front of the lent list; the rest of that stays. Before the bound of the
// deadlines there is none, and the message under way need not be asked for. The bound may be another behind it.
pub fn expired_inflight(
    q: &mut OutboundQueue,
    cells: &[u64],
    clock: u64,
    out: &mut [u32],
) -> Result<usize, Refusal>
    ensures { Finds clock q.old cells.now out.old out.new q.new result }
{
    if limits::CLOCK_MAX < clock {
        return Err(Refusal::BeyondLimit);
    }
    if clock < q.inflight.due {
        return Ok(0);
    }
    let awaited = under_way(q, cells);
    let k = cells.len() / 24 * 8;
    q.inflight
        .expired(&cells[k + k..k + k + k], clock, awaited, out)
}
