// What has expired in flight: the TSNs whose entry is at or past its deadline, in the front of a lent list. Before the bound of the
// deadlines nothing is looked for; behind a walk the bound is the least of them again.
ghost use Rattle.std.specs.Prelude.{◌≡◌, ◌+◌, ◌<◌, ◌≤◌, true, length, nat_lt, slice_set};
ghost use Rattle.model.specs.Lists.{when◌then◌else◌};
ghost use Rattle.rows.specs.Walks.{count};
ghost use Rattle.ring.specs.Held.{held};
ghost use Rattle.payload_queue.specs.Queue.{flight_of, Finds, is_awaited, least_due, overdue_entry, overdue_tsns, Writes};

use super::{PayloadQueue, Pending};
use limits::Refusal;
use model::Chunk;

fn is_awaited(pending: Pending, number: u64) -> bool
    ensures { result ≡ is_awaited pending number }
{
    pending.is_some_and(|under_way| number == under_way)
}

// Not abandoned, at or past its deadline, and unacknowledged or of the message that is still pending.
fn is_overdue(chunk: Chunk, clock: u64, pending: Pending) -> bool
    ensures { result ≡ overdue_entry clock pending chunk }
{
    !chunk.abandoned
        && limits::reached(chunk.message.deadline, clock)
        && (!chunk.acked || is_awaited(pending, chunk.message.number))
}

fn one(yes: bool) -> usize
    ensures { (result ≡ (when yes then 1 else 0)) × (result ≤ 1) }
{
    yes as usize
}

// One more in the list, if so it is.
fn note(out: &mut [u32], k: usize, tsn: u32, yes: bool) -> usize
    requires { yes ≡ true → k < length out.old }
    ensures { (result ≡ k + (when yes then 1 else 0)) × (out.new ≡ (when yes then slice_set out.old k tsn else out.old)) }
{
    if yes {
        out[k] = tsn;
        k + 1
    } else {
        k
    }
}

impl PayloadQueue {
    fn count_overdue(&self, cells: &[u64], clock: u64, pending: Pending) -> usize
        ensures { result ≡ count (overdue_entry clock pending) (held self.now.ring cells.now) }
    {
        let mut k: usize = 0;
        for i in 0..self.len(cells) {
            k += one(is_overdue(self.ring.nth(cells, i), clock, pending));
        }
        k
    }

    // Whether the overdue entries outnumber the places of a list. Places for all of the flight are enough, and only where there are fewer the
    // overdue are counted.
    fn is_short(&self, cells: &[u64], clock: u64, pending: Pending, places: usize) -> bool
        ensures { result ≡ nat_lt places (count (overdue_entry clock pending) (held self.now.ring cells.now)) }
    {
        places < self.len(cells) && places < self.count_overdue(cells, clock, pending)
    }

    // The TSNs of the overdue entries, oldest first, in the front of the lent list, which has places for them.
    fn list_all(&self, cells: &[u64], clock: u64, pending: Pending, out: &mut [u32]) -> usize
        requires { count (overdue_entry clock pending) (held self.now.ring cells.now) ≤ length out.old }
        ensures { Writes (overdue_tsns clock pending (flight_of self.now cells.now)) out.old out.new result }
    {
        // The ring's two numbers once, since the loop stores.
        let ring = self.ring;
        let mut tsn = self.oldest;
        let mut k: usize = 0;
        for i in 0..ring.count(cells) {
            let chunk = ring.nth(cells, i);
            k = note(out, k, tsn, is_overdue(chunk, clock, pending));
            tsn = tsn.wrapping_add(1);
        }
        k
    }

    // The least deadline of the entries that are not abandoned.
    fn least_deadline(&self, cells: &[u64]) -> u64
        ensures { result ≡ least_due (held self.now.ring cells.now) }
    {
        let mut due = super::NEVER;
        for i in 0..self.len(cells) {
            due = super::lowered(due, self.ring.nth(cells, i));
        }
        due
    }

    // The TSNs of the overdue entries, oldest first, in the front of the lent list. Whether they fit is asked first, since a list that was
    // written in could not be put back.
    pub fn expired(
        &mut self,
        cells: &[u64],
        clock: u64,
        pending: Pending,
        out: &mut [u32],
    ) -> Result<usize, Refusal>
        ensures { Finds clock pending self.old cells.now out.old out.new self.new result }
    {
        if clock < self.due {
            return Ok(0);
        }
        if self.is_short(cells, clock, pending, out.len()) {
            return Err(Refusal::ListShort);
        }
        let k = self.list_all(cells, clock, pending, out);
        self.due = self.least_deadline(cells);
        Ok(k)
    }
}
