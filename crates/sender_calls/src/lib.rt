// The sender's calls on lifetimes, sending, expiry and abandonment: each lends the queue's half of the cells to the crate below, and the table
// of streams stays but for the next SSN behind an ordered message that expires whole. Each promises by `Does` what it does in states that no
// call makes, and 01's call in every `Good` state; a refusal leaves the head and every word.
#![tactic(auto)]

pub mod flight;

ghost use Rattle.model.specs.Rings.{start_lifetimes, send, expire_pending_tail, abandon, expire_pending};
ghost use Rattle.outbound_send.specs.Lean.{lean_start, lean_send};
ghost use Rattle.outbound_abandon.specs.Lean.{lean_abandon};
ghost use Rattle.outbound_abandon.specs.LeanExpiry.{lean_expire_tail, lean_expire};
ghost use Rattle.sender_head.specs.Whole.{room_in};
ghost use Rattle.model.specs.Told.{told_done, told_sent, told_expired, told_tail};
ghost use Rattle.sender_head.specs.Calls.{Leans, LeansOrStays};
ghost use Rattle.sender_calls.specs.Behind.{LowersBehind};

use limits::Refusal;
use model::{AbandonedMessage, Chunk, ExpiredMessage, ExpiredTail};
use sender_head::Head;

// Starts the lifetimes of the messages not yet seen. Refusal: 1.
pub fn start_lifetimes(h: &mut Head, cells: &mut [u64], clock: u64) -> Result<(), Refusal>
    ensures { LeansOrStays told_done (lean_start clock) (start_lifetimes clock) h.old cells.old h.new cells.new result }
{
    let k = sender_head::table_words(cells);
    let n = cells.len();
    outbound_send::start_timed_messages(&mut h.queue, &mut cells[k..n], clock)
}

// The next chunk goes to the flight. Refusals: 1; 10 where a chunk is pending.
pub fn send(h: &mut Head, cells: &mut [u64], clock: u64) -> Result<Option<(u32, Chunk)>, Refusal>
    ensures { LeansOrStays told_sent (lean_send (room_in cells.old) clock) (send (room_in cells.old) clock) h.old cells.old h.new cells.new result }
{
    let k = sender_head::table_words(cells);
    let n = cells.len();
    outbound_send::send_next(&mut h.queue, &mut cells[k..n], clock)
}

// Abandons the message under way, if its rest has expired. Refusal: 1.
pub fn expire_pending_tail(
    h: &mut Head,
    cells: &mut [u64],
    clock: u64,
) -> Result<Option<ExpiredTail>, Refusal>
    ensures { LeansOrStays told_tail (lean_expire_tail (room_in cells.old) clock) (expire_pending_tail clock) h.old cells.old h.new cells.new result }
{
    let k = sender_head::table_words(cells);
    let n = cells.len();
    outbound_abandon::expiry::expire_pending_tail(&mut h.queue, &mut cells[k..n], clock)
}

// Abandons the message of a TSN in flight.
pub fn abandon(h: &mut Head, cells: &mut [u64], tsn: u32) -> Option<AbandonedMessage>
    ensures { Leans (lean_abandon (room_in cells.old) tsn) (abandon tsn) h.old cells.old h.new cells.new result }
{
    let k = sender_head::table_words(cells);
    let n = cells.len();
    outbound_abandon::abandon(&mut h.queue, &mut cells[k..n], tsn)
}

// Behind an ordered message the next SSN of its stream drops.
fn lower_behind(h: &Head, cells: &mut [u64], answer: Result<Option<ExpiredMessage>, Refusal>)
    ensures { LowersBehind answer h.now cells.old cells.new }
{
    let Ok(freed) = answer else {
        return;
    };
    let Some(message) = freed else {
        return;
    };
    if message.unordered {
        return;
    }
    sender_streams::lower_next_ssn(&h, cells, message.stream)
}

// The message at the head goes if it is due, and takes no TSN. Refusal: 1.
pub fn expire_pending(
    h: &mut Head,
    cells: &mut [u64],
    clock: u64,
) -> Result<Option<ExpiredMessage>, Refusal>
    ensures { LeansOrStays told_expired (lean_expire clock) (expire_pending clock) h.old cells.old h.new cells.new result }
{
    let k = sender_head::table_words(cells);
    let n = cells.len();
    let expired = outbound_abandon::expiry::expire_pending(&mut h.queue, &mut cells[k..n], clock);
    lower_behind(h, cells, expired);
    expired
}
