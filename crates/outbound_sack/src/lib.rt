// What the peer's SACK does to the queue: the entries that its cumulative TSN covers go (`cover`), and of the others those that its blocks
// cover are acknowledged (`gaps`). The sender behind it and the answer are the model's `sack`, for every queue, every cells and every bytes.
#![tactic(auto)]

pub mod cover;
pub mod gaps;

ghost use Rattle.std.specs.Prelude.{◌≡◌, ◌+◌, ◌-◌, ◌%◌};
ghost use Rattle.limits.specs.Limits.{Room, tsns};
ghost use Rattle.model.specs.Told.{told_sacked};
ghost use Rattle.model.specs.Sack.{blocks_from};
ghost use Rattle.model.specs.Sacks.{sack};
ghost use Rattle.outbound_queue.specs.Calls.{GoesOrStays};
ghost use Rattle.outbound_sack.specs.Reads.{Accepts, Reads};

use limits::Refusal;
use outbound_queue::OutboundQueue;
use payload_queue::PayloadQueue;
use wire::sack::FIXED;

// How many entries a cumulative TSN covers; more than there are, where it is not from the one before the oldest to the newest.
fn covered(oldest: u32, cumulative: u32) -> u32
    ensures { result ≡ (cumulative + 1 + tsns - oldest) % tsns }
{
    let next = std::num::wrapping_add_u32(cumulative, 1);
    std::num::wrapping_sub_u32(next, oldest)
}

// The first k entries go, and of the others those that one of the first `count` blocks covers are acknowledged; `part` is the packet from
// byte 16 on.
fn accept(q: &mut PayloadQueue, cells: &mut [u64], part: &[u8], count: u16, k: u32) -> u64
    ensures { Accepts k (blocks_from count 0 part.now) q.old cells.old q.new cells.new result }
{
    let front = cover::cover(q, cells, k);
    if count == 0 {
        return front;
    }
    let gaps = gaps::acknowledge_blocks(q.ring, cells, part, count);
    q.bytes = q.bytes.wrapping_sub(gaps);
    front + gaps
}

// Of the flight alone: 13; stale; 14; then what it covers goes. What is refused is refused before the first store.
fn read(q: &mut PayloadQueue, cells: &mut [u64], packet: &[u8]) -> Result<Option<u64>, Refusal>
    ensures { Reads packet.now q.old cells.old q.new cells.new result }
{
    let Some(layout) = wire::sack::read(packet) else {
        return Err(Refusal::BadSack);
    };
    let n = q.len(cells);
    let k = covered(q.oldest, layout.cumulative);
    if n == 0 {
        return Ok(None);
    }
    if n < k as usize {
        return Ok(None);
    }
    let part = &packet[FIXED..];
    let left = n - k as usize;
    if !wire::sack::all_within(part, layout.blocks, left) {
        return Err(Refusal::BadBlock);
    }
    Ok(Some(accept(q, cells, part, layout.blocks, k)))
}

// Reads the peer's SACK, of exactly the chunk's bytes. Refusals: 13; 14 where it is not stale.
pub fn handle_sack(
    q: &mut OutboundQueue,
    cells: &mut [u64],
    packet: &[u8],
) -> Result<Option<u64>, Refusal>
    ensures { (room : Room) → GoesOrStays told_sacked (sack room packet.now) q.old cells.old q.new cells.new result }
{
    let k = cells.len() / 24 * 8;
    read(&mut q.inflight, &mut cells[k + k..k + k + k], packet)
}
