// A chunk in a slot: its words are, in order, the message number, the deadline, the since, the offset, the payload type with the
// reliability's value, the length with nsent, and the marks. The eighth is left, and a store leaves it as it is.
#![tactic(auto)]

pub mod marks;
pub mod parts;

ghost use Rattle.std.specs.Prelude.{◌≡◌, ◌≤◌, get_or, set};
ghost use Rattle.model.specs.Rings.{sent_at};
ghost use Rattle.chunk_slot.specs.Chunks.{Packed, chunks, blank_chunk};
ghost use Rattle.chunk_slot.specs.Meaning.{chunk_for};

use cells::HIGH;
use marks::{ABANDONED, ACKED, BEGINNING, ENDING, KIND, RETRANSMIT, SENT, SSN, TIMED, UNORDERED};
use model::{Chunk, Message, Reliability};

// The words of a slot that a chunk has.
#[derive(Clone, Copy)]
pub struct Words {
    pub number: u64,
    pub deadline: u64,
    pub since: u64,
    pub offset: u64,
    pub types: u64,
    pub sizes: u64,
    pub marks: u64,
}

// ---- words

// The small fields in a word; `pending` and `flying` are four flags each.
fn marks_of(stream: u16, ssn: u16, kind: u8, pending: u64, flying: u64) -> u64
    requires { (pending ≤ 15) × (flying ≤ 15) }
    ensures { Packed stream ssn kind pending flying result }
{
    stream as u64 + ssn as u64 * SSN + kind as u64 * KIND + pending * UNORDERED + flying * ABANDONED
}

// A chunk's words.
pub fn pack(chunk: Chunk) -> Words
    ensures { chunk_for result ≡ chunk }
{
    let message = chunk.message;
    let reliability = message.reliability;
    let types = cells::pair(message.protocol, reliability.value);
    let sizes = cells::pair(chunk.length, chunk.nsent);
    let pending = cells::flags(
        message.unordered,
        chunk.beginning,
        chunk.ending,
        chunk.acked,
    );
    let flying = cells::flags(
        chunk.abandoned,
        chunk.retransmit,
        message.deadline.is_some(),
        chunk.since.is_some(),
    );
    let marks = marks_of(
        message.stream,
        message.ssn,
        reliability.kind,
        pending,
        flying,
    );
    Words {
        number: message.number,
        deadline: message.deadline.unwrap_or(0),
        since: chunk.since.unwrap_or(0),
        offset: chunk.offset,
        types,
        sizes,
        marks,
    }
}

// Every seven words are some chunk.
pub fn unpack(words: Words) -> Chunk
    ensures { result ≡ chunk_for words }
{
    let Words {
        types,
        sizes,
        marks,
        ..
    } = words;
    let reliability = Reliability {
        kind: (marks / KIND % 256) as u8,
        value: (types / HIGH) as u32,
    };
    let message = Message {
        stream: (marks % SSN) as u16,
        ssn: (marks / SSN % 65_536) as u16,
        unordered: marks / UNORDERED % 2 == 1,
        protocol: (types % HIGH) as u32,
        number: words.number,
        reliability,
        deadline: (marks / TIMED % 2 == 1).then_some(words.deadline),
    };
    Chunk {
        message,
        beginning: marks / BEGINNING % 2 == 1,
        ending: marks / ENDING % 2 == 1,
        offset: words.offset,
        length: (sizes % HIGH) as u32,
        since: (marks / SENT % 2 == 1).then_some(words.since),
        nsent: (sizes / HIGH) as u32,
        acked: marks / ACKED % 2 == 1,
        abandoned: marks / ABANDONED % 2 == 1,
        retransmit: marks / RETRANSMIT % 2 == 1,
    }
}

// ---- words in part, for what moves a chunk from slot to slot

// The bytes that the chunk holds.
pub fn length_of(words: Words) -> u32
    ensures { result ≡ (chunk_for words).length }
{
    (words.sizes % HIGH) as u32
}

// Whether the chunk ends its message.
pub fn is_ending(words: Words) -> bool
    ensures { result ≡ (chunk_for words).ending }
{
    words.marks / ENDING % 2 == 1
}

// The chunk sent now, for the first time.
pub fn stamped(words: Words, clock: u64) -> Words
    ensures { chunk_for result ≡ sent_at clock (chunk_for words) }
{
    Words {
        since: clock,
        sizes: words.sizes % HIGH + HIGH,
        marks: marks::with_since(words.marks),
        ..words
    }
}

// ---- a slot

// The words of slot i, and 0s past the end.
pub fn read(cells: &[u64], i: usize) -> Words
    ensures { chunk_for result ≡ get_or (chunks cells.now) i blank_chunk }
{
    if cells::room(cells) <= i {
        return Words {
            number: 0,
            deadline: 0,
            since: 0,
            offset: 0,
            types: 0,
            sizes: 0,
            marks: 0,
        };
    }
    let at = i * 8;
    Words {
        number: cells[at],
        deadline: cells[at + 1],
        since: cells[at + 2],
        offset: cells[at + 3],
        types: cells[at + 4],
        sizes: cells[at + 5],
        marks: cells[at + 6],
    }
}

// The words go into slot i.
pub fn write(cells: &mut [u64], i: usize, words: Words)
    ensures { chunks cells.new ≡ set (chunks cells.old) i (chunk_for words) }
{
    cells::write(
        cells,
        i,
        words.number,
        words.deadline,
        words.since,
        words.offset,
        words.types,
        words.sizes,
        words.marks,
    );
}

// The chunk in slot i.
pub fn load(cells: &[u64], i: usize) -> Chunk
    ensures { result ≡ get_or (chunks cells.now) i blank_chunk }
{
    unpack(read(cells, i))
}
