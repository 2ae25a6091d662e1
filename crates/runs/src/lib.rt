// Runs a lent list of coded requests, calls and SACKs, on the code's own functions, from a fresh sender in lent cells, and writes every
// answer on a tape. What comes of it is what the model says of that list; so what holds of the model over any requests holds of the code,
// demand 3 first of all.
#![tactic(auto)]

ghost use Rattle.std.specs.Prelude.{◌≡◌, ◌++◌, min, length};
ghost use Rattle.model.specs.State.{fresh};
ghost use Rattle.model.specs.Rings.{expired_inflight};
ghost use Rattle.model.specs.Calls.{to_list};
ghost use Rattle.model.specs.Requests.{ReadSack, served};
ghost use Rattle.demands.specs.Demand3.{Demand3};
ghost use Rattle.outbound_queue.specs.Outbound.{Good};
ghost use Rattle.sender_head.specs.Whole.{room_in, sender_of, Counted};
ghost use Rattle.coded_calls.specs.Coded.{packet_in, request_of};
ghost use Rattle.coded_calls.specs.Tapes.{Puts};
ghost use Rattle.coded_calls.specs.Words.{words};
ghost use Rattle.runs.specs.Runs.{requests_in, Serves, Taped};

use coded_calls::tape::Tape;
use coded_calls::{Coded, LIST_MAX};
use sender_head::Head;

// By way of a lent list. The head stays as it is, and with it the bound of the deadlines.
fn list_into(h: &Head, cells: &[u64], clock: u64, list: &mut [u32], tape: &mut Tape)
    ensures { Counted h.now cells.now → Good (room_in cells.now) (sender_of h.now cells.now) → Puts tape.old tape.new (λ us. words (to_list (expired_inflight clock (length list.old) (sender_of h.now cells.now))) ++ us) }
{
    let mut head = *h;
    match sender_calls::flight::expired_inflight(&mut head, cells, clock, list) {
        Err(refusal) => tape.put_all(&[12, 0, refusal.number() as u64, 0, 0]),
        Ok(n) => {
            tape.put_all(&[12, 1, n as u64, 0, 0]);
            tape.put_list(&list[..n])
        }
    }
}

// With a list of so much room, at most 256.
fn list_expired(h: &Head, cells: &[u64], clock: u64, room: usize, tape: &mut Tape)
    ensures { Counted h.now cells.now → Good (room_in cells.now) (sender_of h.now cells.now) → Puts tape.old tape.new (λ us. words (to_list (expired_inflight clock (min room 256) (sender_of h.now cells.now))) ++ us) }
{
    let mut list = [0u32; LIST_MAX];
    list_into(h, cells, clock, &mut list[..room.min(LIST_MAX)], tape)
}

// A SACK, of its bytes.
fn sack(h: &mut Head, cells: &mut [u64], packet: &[u8], tape: &mut Tape)
    ensures same_reference { tape.new.words.ghost_name ≡ tape.old.words.ghost_name }
    ensures served { Serves (ReadSack packet.now) h.old cells.old h.new cells.new tape.old.words.now tape.new.words.now tape.old.at tape.new.at }
{
    let answer = sender_calls::flight::sack(h, cells, packet);
    coded_calls::answers::put_sacked(tape, answer)
}

// The part of the bytes that the words name; none of them where it does not lie within them.
fn part_of(bytes: &[u8], from: usize, count: usize) -> &[u8]
    ensures { result.now ≡ packet_in from count bytes.now }
{
    let rest = bytes.get(from..).unwrap_or(&[]);
    rest.get(..count).unwrap_or(&[])
}

// One request, of the words that it is coded in.
fn one(h: &mut Head, cells: &mut [u64], coded: &[u64], bytes: &[u8], tape: &mut Tape)
    ensures same_reference { Good (room_in cells.old) (sender_of h.old cells.old) → Counted h.old cells.old → tape.new.words.ghost_name ≡ tape.old.words.ghost_name }
    ensures served { Good (room_in cells.old) (sender_of h.old cells.old) → Counted h.old cells.old → Serves (request_of coded.now bytes.now) h.old cells.old h.new cells.new tape.old.words.now tape.new.words.now tape.old.at tape.new.at }
{
    match coded_calls::read(coded) {
        Coded::Plain(call) => {
            let answer = calls::step(h, cells, call);
            coded_calls::answers::put_answer(tape, answer)
        }
        Coded::Expired { clock, room } => list_expired(h, cells, clock, room, tape),
        Coded::Sack { from, count } => sack(h, cells, part_of(bytes, from, count), tape),
    }
}

// The requests of the list, one after the other; the SACKs are parts of the bytes. The head comes back; the cells and the tape are as the
// requests left them.
pub fn run(
    cells: &mut [u64],
    tsn: u32,
    number: u64,
    coded: &[u64],
    bytes: &[u8],
    tape: &mut [u64],
) -> Head
    ensures { (sender_of result cells.new ≡ served (room_in cells.old) (requests_in coded.now bytes.now) (fresh tsn number)) × Taped (room_in cells.old) (requests_in coded.now bytes.now) (fresh tsn number) tape.old tape.new × Counted result cells.new × Demand3 (room_in cells.old) (sender_of result cells.new) }
{
    let mut head = Head::new(tsn, number);
    let mut tape = Tape { words: tape, at: 0 };
    for words in coded.chunks_exact(8) {
        one(&mut head, cells, words, bytes, &mut tape);
    }
    head
}
