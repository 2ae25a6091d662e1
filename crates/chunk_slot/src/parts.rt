// A chunk's slot in part: a loop over many slots reads and rewrites only the words that it needs.
ghost use Rattle.std.specs.Prelude.{◌≡◌, min, get_or};
ghost use Rattle.limits.specs.Limits.{clock_max};
ghost use Rattle.model.specs.Lists.{adjust};
ghost use Rattle.model.specs.Rings.{given_up, lowered, started};
ghost use Rattle.model.specs.Flight.{acknowledged, to_retransmit};
ghost use Rattle.chunk_slot.specs.Chunks.{chunks, blank_chunk};
ghost use Rattle.chunk_slot.specs.Changes.{held_of};

use super::marks::{KIND, SSN};
use cells::HIGH;
use limits::CLOCK_MAX;

// ---- one field

// The message number of slot i.
pub fn number_at(cells: &[u64], i: usize) -> u64
    ensures { result ≡ (get_or (chunks cells.now) i blank_chunk).message.number }
{
    if cells::room(cells) <= i {
        return 0;
    }
    cells[i * 8]
}

// The stream of slot i.
pub fn stream_at(cells: &[u64], i: usize) -> u16
    ensures { result ≡ (get_or (chunks cells.now) i blank_chunk).message.stream }
{
    if cells::room(cells) <= i {
        return 0;
    }
    (cells[i * 8 + 6] % SSN) as u16
}

// The bytes that the chunk of slot i holds.
pub fn length_at(cells: &[u64], i: usize) -> u32
    ensures { result ≡ (get_or (chunks cells.now) i blank_chunk).length }
{
    if cells::room(cells) <= i {
        return 0;
    }
    (cells[i * 8 + 5] % HIGH) as u32
}

// ---- one change

// Slot i is to be retransmitted, if it is neither acknowledged nor abandoned.
pub fn mark_at(cells: &mut [u64], i: usize)
    ensures { chunks cells.new ≡ adjust to_retransmit i (chunks cells.old) }
{
    if cells::room(cells) <= i {
        return;
    }
    let at = i * 8 + 6;
    let marks = super::marks::sent_again(cells[at]);
    cells[at] = marks;
}

// Slot i is acknowledged, and holds nothing from then on; the answer is the bytes that it held.
pub fn acknowledge_at(cells: &mut [u64], i: usize) -> u32
    ensures { (result ≡ (get_or (chunks cells.old) i blank_chunk).length) × (chunks cells.new ≡ adjust acknowledged i (chunks cells.old)) }
{
    if cells::room(cells) <= i {
        return 0;
    }
    let at = i * 8;
    let sizes = cells[at + 5];
    let length = sizes % HIGH;
    let marks = super::marks::acknowledged(cells[at + 6]);
    cells[at + 5] = sizes - length;
    cells[at + 6] = marks;
    length as u32
}

// Slot i is given up, if it is of the message; the answer is the bytes that it held of it.
pub fn give_up_at(cells: &mut [u64], i: usize, number: u64) -> u32
    ensures { (result ≡ held_of number (get_or (chunks cells.old) i blank_chunk)) × (chunks cells.new ≡ adjust (given_up number) i (chunks cells.old)) }
{
    if cells::room(cells) <= i {
        return 0;
    }
    let at = i * 8;
    if cells[at] != number {
        return 0;
    }
    let sizes = cells[at + 5];
    let held = sizes % HIGH;
    let marks = super::marks::left_off(cells[at + 6]);
    cells[at + 5] = sizes - held;
    cells[at + 6] = marks;
    held as u32
}

// The SSN of slot i drops by 1 modulo 2^16, if it is of the stream.
pub fn lower_at(cells: &mut [u64], i: usize, stream: u16)
    ensures { chunks cells.new ≡ adjust (lowered stream) i (chunks cells.old) }
{
    if cells::room(cells) <= i {
        return;
    }
    let at = i * 8 + 6;
    let marks = cells[at];
    if marks % SSN != stream as u64 {
        return;
    }
    let lower = super::marks::one_lower(marks);
    cells[at] = lower;
}

// The lifetime of slot i starts, if its message has one and is not yet seen. A clock beyond its limit is taken as the limit.
pub fn start_at(cells: &mut [u64], i: usize, clock: u64, unstarted: u64)
    ensures { chunks cells.new ≡ adjust (started (min clock clock_max) unstarted) i (chunks cells.old) }
{
    if cells::room(cells) <= i {
        return;
    }
    let at = i * 8;
    if cells[at] < unstarted {
        return;
    }
    let marks = cells[at + 6];
    if marks / KIND % 256 != 2 {
        return;
    }
    let types = cells[at + 4];
    if types % HIGH == 50 {
        return;
    }
    let deadline = clock.min(CLOCK_MAX) + types / HIGH;
    let timed = super::marks::with_deadline(marks);
    cells[at + 1] = deadline;
    cells[at + 6] = timed;
}
