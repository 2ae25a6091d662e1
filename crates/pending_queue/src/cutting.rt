// A message is cut into fragments, and these join the back of a ring in lent cells: all of them, or none.
ghost use Rattle.std.specs.Prelude.{◌≡◌, ◌+◌, ◌-◌, ◌≤◌, true, ◌++◌};
ghost use Rattle.model.specs.Messages.{pieces, piece, cut};
ghost use Rattle.cells.specs.Slots.{room_of};
ghost use Rattle.ring.specs.Held.{held};
ghost use Rattle.model.specs.Lists.{when◌then◌else◌};
ghost use Rattle.pending_queue.specs.Fragments.{Brings, bytes_of, fits};
ghost use Rattle.pending_queue.specs.Adding.{Joins};

use super::PendingQueue;
use model::{Chunk, Message};
use ring::Ring;

// How many there are: none where the maximum is 0.
pub fn fragments(length: u32, maximum: u16) -> usize
    ensures { (result ≡ pieces length maximum) × (result ≤ 4295032829) }
{
    if maximum == 0 {
        return 0;
    }
    let most = maximum as u64;
    ((length as u64 + (most - 1)) / most) as usize
}

// The bytes of all of them.
fn fragments_bytes(length: u32, maximum: u16) -> u64
    ensures { result ≡ bytes_of length maximum }
{
    if maximum == 0 { 0 } else { length as u64 }
}

// The bytes of the next one: the last has the rest.
fn size(ending: bool, maximum: u16, left: u32) -> u32
    ensures { result ≡ (when ending then left else maximum) }
{
    if ending { left } else { maximum as u32 }
}

fn fragment(message: Message, beginning: bool, ending: bool, offset: u64, length: u32) -> Chunk
    ensures { result ≡ piece message beginning ending offset length }
{
    Chunk {
        message,
        beginning,
        ending,
        offset,
        length,
        since: None,
        nsent: 0,
        acked: false,
        abandoned: false,
        retransmit: false,
    }
}

// Whether they are added: all or none.
fn fitting(ring: &Ring, cells: &[u64], maximum: u16, offset: u64, length: u32) -> bool
    ensures { result ≡ fits (room_of cells.now) maximum offset length (held ring.now cells.now) }
{
    offset <= limits::OFFSET_MAX
        && ring.count(cells) + fragments(length, maximum) <= cells::room(cells)
}

// Each fragment goes to the end of the ring.
fn cut_into(
    ring: &mut Ring,
    cells: &mut [u64],
    message: Message,
    maximum: u16,
    offset: u64,
    length: u32,
)
    requires { fits (room_of cells.old) maximum offset length (held ring.old cells.old) ≡ true }
    ensures { held ring.new cells.new ≡ held ring.old cells.old ++ cut message true (pieces length maximum) maximum offset length }
{
    let mut from = offset;
    let mut left = length;
    let mut first = true;
    for k in (0..fragments(length, maximum)).rev() {
        let ending = k == 0;
        let chunk = fragment(message, first, ending, from, size(ending, maximum, left));
        ring.push(cells, chunk_slot::pack(chunk));
        from += maximum as u64;
        left = left.saturating_sub(maximum as u32);
        first = false;
    }
}

// A message's fragments join the back of a ring, and the answer is the bytes that they bring. Where there is no room for all of them, or
// the offset is beyond its limit, nothing changes: the caller has refused such a message before.
pub fn push_fragments(
    ring: &mut Ring,
    cells: &mut [u64],
    message: Message,
    maximum: u16,
    offset: u64,
    length: u32,
) -> Option<u64>
    ensures { Brings (room_of cells.old) message maximum offset length (held ring.old cells.old) (held ring.new cells.new) result }
{
    if !fitting(ring, cells, maximum, offset, length) {
        return None;
    }
    cut_into(ring, cells, message, maximum, offset, length);
    Some(fragments_bytes(length, maximum))
}

impl PendingQueue {
    // A message's fragments join the back of its ring, whose cells are lent: all or none, and the answer is whether they do.
    pub fn add_fragments(
        &mut self,
        cells: &mut [u64],
        message: Message,
        maximum: u16,
        offset: u64,
        length: u32,
    ) -> bool
        ensures { Joins message maximum offset length self.old cells.old self.new cells.new result }
    {
        let added = if message.unordered {
            push_fragments(&mut self.unordered, cells, message, maximum, offset, length)
        } else {
            push_fragments(&mut self.ordered, cells, message, maximum, offset, length)
        };
        self.bytes = self.bytes.wrapping_add(added.unwrap_or(0));
        added.is_some()
    }
}
