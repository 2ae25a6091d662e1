// A message leaves what is pending: its leading run in each ring goes, and the SSNs behind it close the gap. The counter of bytes stays the sum.
ghost use Rattle.std.specs.Prelude.{◌≡◌};
ghost use Rattle.limits.specs.Flags.{is_set};
ghost use Rattle.ring.specs.Held.{held};
ghost use Rattle.pending_queue.specs.Queue.{under_way_of, pending_in};
ghost use Rattle.pending_queue.specs.Runs.{Removes, LeadingRun, ClosesGap, without_runs};

use super::PendingQueue;
use model::Chunk;
use ring::Ring;

// `bytes` is what the removed chunks held, and `last` the last of them.
#[derive(Clone, Copy)]
pub struct Removed {
    pub bytes: u64,
    pub last: Option<Chunk>,
}

// The leading run of a message leaves a ring.
fn remove_run(ring: &mut Ring, cells: &[u64], number: u64) -> Removed
    ensures { LeadingRun number (held ring.old cells.now) (held ring.new cells.now) result.bytes result.last }
{
    let mut bytes: u64 = 0;
    let mut last = None;
    for _ in 0..ring.count(cells) {
        let chunk = ring.nth(cells, 0);
        if chunk.message.number != number {
            return Removed { bytes, last };
        }
        bytes += chunk.length as u64;
        last = Some(chunk);
        ring.drop_first(cells);
    }
    Removed { bytes, last }
}

impl PendingQueue {
    // Whether a message is still under way without this one.
    fn still_selected(&self, unordered: &[u64], ordered: &[u64], number: u64) -> u8
        ensures { under_way_of (is_set result) (is_set self.now.unordered_is_selected) ≡ (without_runs number (pending_in self.now unordered.now ordered.now)).under_way }
    {
        let Some(chunk) = self.peek(unordered, ordered) else {
            return self.selected;
        };
        if chunk.message.number == number {
            0
        } else {
            self.selected
        }
    }

    // Removes the leading run of a message from each ring. In every state that calls reach, a message at the head or in flight has no other
    // chunks pending.
    pub fn remove_message(&mut self, unordered: &[u64], ordered: &[u64], number: u64) -> Removed
        ensures { Removes number self.old unordered.now ordered.now self.new result.bytes result.last }
    {
        self.selected = self.still_selected(unordered, ordered, number);
        let one = remove_run(&mut self.ordered, ordered, number);
        let other = remove_run(&mut self.unordered, unordered, number);
        let bytes = one.bytes + other.bytes;
        self.bytes = self.bytes.wrapping_sub(bytes);
        Removed {
            bytes,
            last: other.last.or(one.last),
        }
    }

    // Closes the gap in a stream's SSNs behind an ordered message that leaves wholly unsent.
    pub fn compact_ordered_ssns(&self, ordered: &mut [u64], stream: u16)
        ensures { ClosesGap stream self.now ordered.old ordered.new }
    {
        for i in 0..self.ordered.count(ordered) {
            self.ordered.lower_nth(ordered, i, stream);
        }
    }
}
