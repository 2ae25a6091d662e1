// The sender's calls on the flight alone: each lends the queue's half of the cells to the crate below, and the table of streams stays. Each
// equals the model's call of every head and every cells; the list of what has expired promises by `Finds` what it lists in states that no
// call makes, and the model's list in every `Good` state whose numbers are kept.
ghost use Rattle.model.specs.Flight.{acknowledge, pop, mark_all};
ghost use Rattle.model.specs.Sacks.{sack};
ghost use Rattle.model.specs.Told.{told_sacked};
ghost use Rattle.sender_head.specs.Whole.{room_in};
ghost use Rattle.sender_head.specs.Calls.{Goes, Becomes, GoesOrStays};
ghost use Rattle.sender_calls.specs.Listing.{Finds};

use limits::Refusal;
use model::Chunk;
use sender_head::Head;

// The entry of a TSN is acknowledged, and holds nothing from then on.
pub fn acknowledge(h: &mut Head, cells: &mut [u64], tsn: u32) -> u32
    ensures { Goes (acknowledge tsn) h.old cells.old h.new cells.new result }
{
    let k = sender_head::table_words(cells);
    let n = cells.len();
    h.queue.mark_as_acked(&mut cells[k..n], tsn)
}

// Takes the oldest entry, if it has this TSN.
pub fn pop(h: &mut Head, cells: &[u64], tsn: u32) -> Option<Chunk>
    ensures { Goes (pop tsn) h.old cells.now h.new cells.now result }
{
    let k = sender_head::table_words(cells);
    let n = cells.len();
    h.queue.pop(&cells[k..n], tsn)
}

// Reads the peer's SACK, of exactly the chunk's bytes: the covered prefix is acknowledged and popped, then the blocks are acknowledged. In
// this order: 13; stale; 14.
pub fn sack(h: &mut Head, cells: &mut [u64], packet: &[u8]) -> Result<Option<u64>, Refusal>
    ensures { GoesOrStays told_sacked (sack (room_in cells.old) packet.now) h.old cells.old h.new cells.new result }
{
    let k = sender_head::table_words(cells);
    let n = cells.len();
    outbound_sack::handle_sack(&mut h.queue, &mut cells[k..n], packet)
}

// Every entry that is neither acknowledged nor abandoned is to be retransmitted. The head stays.
pub fn mark_all(h: &Head, cells: &mut [u64])
    ensures { Becomes mark_all h.now cells.old h.now cells.new }
{
    let k = sender_head::table_words(cells);
    let n = cells.len();
    h.queue.mark_all_to_retransmit(&mut cells[k..n])
}

// The TSNs in flight whose message has expired, in the front of the lent list; the rest of that stays. Refusals: 1, 11.
pub fn expired_inflight(
    h: &mut Head,
    cells: &[u64],
    clock: u64,
    out: &mut [u32],
) -> Result<usize, Refusal>
    ensures { Finds (room_in cells.now) clock h.old cells.now out.old out.new h.new result }
{
    let k = sender_head::table_words(cells);
    let n = cells.len();
    outbound_abandon::overdue::expired_inflight(&mut h.queue, &cells[k..n], clock, out)
}
