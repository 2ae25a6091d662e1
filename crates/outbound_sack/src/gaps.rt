// The entries that a SACK's blocks cover are acknowledged, in one walk over the entries and one over the blocks for each window of entries,
// however the blocks overlap: for each TSN of the window the furthest end of the blocks that start there is noted, and an entry is covered
// exactly if the furthest end so far reaches it.
ghost use Rattle.std.specs.Prelude.{◌≡◌, ◌+◌, ◌-◌, min, max};
ghost use Rattle.model.specs.Sack.{blocks_from};
ghost use Rattle.ring.specs.Held.{held};
ghost use Rattle.outbound_sack.specs.Ends.{noted, noted_all};
ghost use Rattle.outbound_sack.specs.Walks.{AcknowledgesIf, WalksOver};
ghost use Rattle.outbound_sack.specs.Windows.{blank, Acknowledges};

use model::Block;
use ring::Ring;

// The TSNs of a window.
const WINDOW: usize = 256;

// ---- the blocks

// The end of a block, at its start in the window of the TSNs from `from + 1` on.
fn note(ends: &mut [u16], from: usize, block: Block)
    ensures { ends.new ≡ noted (from + 1) block ends.old }
{
    let start = block.start as usize;
    if start <= from {
        return;
    }
    let k = start - from - 1;
    if ends.len() <= k {
        return;
    }
    if block.end <= ends[k] {
        return;
    }
    ends[k] = block.end;
}

// The ends of the first `count` blocks; `part` is the packet from byte 16 on.
fn note_ends(part: &[u8], count: u16, from: usize, ends: &mut [u16])
    ensures { ends.new ≡ noted_all (from + 1) (blocks_from count 0 part.now) ends.old }
{
    for i in 0..count as usize {
        note(ends, from, wire::sack::block(part, i));
    }
}

// ---- the entries

// The furthest end so far, and the bytes that were held.
#[derive(Clone, Copy)]
struct Walked {
    top: u16,
    bytes: u64,
}

// The i-th entry is acknowledged, if it is covered; the answer is the bytes that it held then.
fn acknowledge_if(ring: Ring, cells: &mut [u64], i: usize, covered: bool) -> u32
    ensures { AcknowledgesIf covered i (held ring cells.old) (held ring cells.new) result }
{
    if !covered {
        return 0;
    }
    ring.acknowledge_nth(cells, i)
}

// One walk over the entries of a window: `ends` are its furthest ends, and `top` is the furthest of the blocks that start before it.
fn walk(ring: Ring, cells: &mut [u64], ends: &[u16], from: usize, top: u16) -> Walked
    ensures { WalksOver ends.now from top (held ring cells.old) (held ring cells.new) result.top result.bytes }
{
    let stop = ends.len().min(ring.count(cells).saturating_sub(from));
    let mut furthest = top;
    let mut sum: u64 = 0;
    for i in 0..stop {
        furthest = furthest.max(ends[i]);
        let at = from + i;
        let held = acknowledge_if(ring, cells, at, at < furthest as usize);
        sum += held as u64;
    }
    Walked {
        top: furthest,
        bytes: sum,
    }
}

// The window of entries from place `from` on.
fn window(ring: Ring, cells: &mut [u64], part: &[u8], count: u16, from: usize, top: u16) -> Walked
    ensures { WalksOver (noted_all (from + 1) (blocks_from count 0 part.now) blank) from top (held ring cells.old) (held ring cells.new) result.top result.bytes }
{
    let mut ends = [0u16; WINDOW];
    note_ends(part, count, from, &mut ends);
    walk(ring, cells, &ends, from, top)
}

// Every entry that one of the first `count` blocks covers is acknowledged; `part` is the packet from byte 16 on. The answer is the bytes that
// they held.
pub fn acknowledge_blocks(ring: Ring, cells: &mut [u64], part: &[u8], count: u16) -> u64
    ensures { Acknowledges (blocks_from count 0 part.now) (held ring cells.old) (held ring cells.new) result }
{
    let n = ring.count(cells);
    let mut top: u16 = 0;
    let mut sum: u64 = 0;
    let mut from: usize = 0;
    // A window a turn: `step_by` would be no plainer, since each turn goes on from what the last one found.
    while from < n {
        let walked = window(ring, cells, part, count, from, top);
        top = walked.top;
        sum += walked.bytes;
        from += WINDOW;
    }
    sum
}
