// The entries that a cumulative TSN covers go at once: one word of each is read, and none is written.
ghost use Rattle.std.specs.Prelude.{◌≡◌, ◌+◌, drop};
ghost use Rattle.model.specs.Rings.{bytes};
ghost use Rattle.ring.specs.Held.{held};
ghost use Rattle.outbound_sack.specs.Covers.{Frees, without};

use payload_queue::PayloadQueue;
use ring::Ring;

// What the first k hold together. An entry past the end holds nothing; a SACK never covers more than there are.
fn sum(ring: Ring, cells: &[u64], k: u32) -> u64
    ensures { result + bytes (drop k (held ring cells.now)) ≡ bytes (held ring cells.now) }
{
    let mut sum: u64 = 0;
    for i in 0..k as usize {
        sum += ring.nth_length(cells, i) as u64;
    }
    sum
}

// The first k entries go; the answer is the bytes that they held. The bound of the deadlines stays: fewer entries have no earlier one.
pub fn cover(q: &mut PayloadQueue, cells: &[u64], k: u32) -> u64
    ensures { Frees (without k) q.old cells.now q.new cells.now result }
{
    let released = sum(q.ring, cells, k);
    q.ring.drop_front(cells, k as usize);
    q.oldest = q.oldest.wrapping_add(k);
    q.bytes = q.bytes.wrapping_sub(released);
    released
}
