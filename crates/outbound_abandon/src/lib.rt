// A message is abandoned: one that was sent in part is cut off behind a terminator. The run of its entries around a place of the flight is given
// up, and its leading run in each ring goes: in the states that calls reach that is all of it (`Does`: what the call does of any state at all, and
// that in a `Good` one this is 01's).
#![tactic(auto)]

pub mod expiry;
pub mod overdue;

ghost use Rattle.std.specs.Prelude.{◌≡◌};
ghost use Rattle.model.specs.Rings.{terminator, abandon};
ghost use Rattle.outbound_abandon.specs.Lean.{GivesUp, lean_abandon};
ghost use Rattle.outbound_queue.specs.Calls.{LeansIn};

use model::{AbandonedMessage, Chunk};
use outbound_queue::OutboundQueue;

// What ends a message in flight whose last fragments are not sent: it holds nothing.
fn terminate(chunk: Chunk) -> Chunk
    ensures { result ≡ terminator chunk }
{
    Chunk {
        beginning: false,
        ending: true,
        length: 0,
        since: None,
        nsent: 0,
        abandoned: true,
        retransmit: false,
        ..chunk
    }
}

// A message is given up in flight, around a place, and what is pending of it goes; a terminator stands for that. The bytes are all that it held.
pub fn give_up(q: &mut OutboundQueue, cells: &mut [u64], near: usize, number: u64) -> u64
    ensures { GivesUp number near q.old cells.old q.new cells.new result }
{
    let freed = q.give_up_entries(cells, near, number);
    let removed = q.remove_pending(cells, number);
    let bytes = freed + removed.bytes;
    let Some(last) = removed.last else {
        return bytes;
    };
    let words = chunk_slot::pack(terminate(last));
    q.file(cells, words);
    bytes
}

// Gives up the message of a TSN in flight, whatever its reliability.
pub fn abandon(q: &mut OutboundQueue, cells: &mut [u64], tsn: u32) -> Option<AbandonedMessage>
    ensures { LeansIn (λ room. lean_abandon room tsn) (λ room. abandon tsn) q.old cells.old q.new cells.new result }
{
    let chunk = q.get(cells, tsn)?;
    let message = chunk.message;
    if chunk.abandoned {
        return Some(AbandonedMessage {
            stream: message.stream,
            bytes: 0,
        });
    }
    let near = q.inflight.place(tsn);
    let bytes = give_up(q, cells, near, message.number);
    Some(AbandonedMessage {
        stream: message.stream,
        bytes,
    })
}
