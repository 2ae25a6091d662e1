// A SACK, as RFC 9260, section 3.3.4, lays it out. `read` says whether the bytes lent are one; the block reader takes the part from byte 16
// on, and gives blocks by value.
ghost use Rattle.std.specs.Prelude.{◌≡◌};
ghost use Rattle.model.specs.Sack.{block_at, blocks_from, within, all_within};
ghost use Rattle.wire.specs.SackReads.{layout_of};

use model::Block;

// The chunk type.
const SACK: u8 = 3;
// The bytes before the first block.
pub const FIXED: usize = 16;

// What a SACK's bytes say of it.
#[derive(Clone, Copy)]
pub struct Layout {
    pub cumulative: u32,
    pub blocks: u16,
}

// None where the bytes lent are no SACK.
pub fn read(packet: &[u8]) -> Option<Layout>
    ensures { result ≡ layout_of packet.now }
{
    // Asked first, so that no field behind it is tested for its place.
    if packet.len() < FIXED || octets::byte(packet, 0) != SACK {
        return None;
    }
    let length = octets::short(packet, 2) as usize;
    let blocks = octets::short(packet, 12);
    let duplicates = octets::short(packet, 14);
    let whole = length == FIXED + (blocks as usize + duplicates as usize) * 4
        && length == packet.len();
    whole.then_some(Layout {
        cumulative: octets::long(packet, 4),
        blocks,
    })
}

// The i-th block of the part from byte 16 on; past its end a block of zeros.
pub fn block(part: &[u8], i: usize) -> Block
    ensures { result ≡ block_at i part.now }
{
    if part.len() / 4 < i {
        return Block { start: 0, end: 0 };
    }
    let at = i * 4;
    Block {
        start: octets::short(part, at),
        end: octets::short(part, at + 2),
    }
}

fn is_within(block: Block, left: usize) -> bool
    ensures { result ≡ within left block }
{
    1 <= block.start && block.start <= block.end && block.end as usize <= left
}

// Whether each of the first `count` blocks lies within the `left` TSNs behind the cumulative one.
pub fn all_within(part: &[u8], count: u16, left: usize) -> bool
    ensures { result ≡ all_within left (blocks_from count 0 part.now) }
{
    (0..count as usize).all(|i| is_within(block(part, i), left))
}
