// The sender's head: numbers alone. All its slots stand in one lent slice: the table of streams in the first 512 words, then the two
// rings and the flight of its queue. `sender_of` of specs/ reads the model's sender from the two, for every head and every cells; with too
// few words there is room for fewer streams, or for no chunk.
#![tactic(auto)]

pub mod table;

ghost use Rattle.std.specs.Prelude.{◌≡◌, List, ℕ, ◌≤◌, length};
ghost use Rattle.model.specs.State.{fresh};
ghost use Rattle.sender_head.specs.Whole.{table_words, sender_of, Counted};

use outbound_queue::OutboundQueue;

// `streams` is how many are open.
#[repr(C)]
#[derive(Clone, Copy)]
pub struct Head {
    pub queue: OutboundQueue,
    pub streams: usize,
}

// The words of 64 streams.
const TABLE_WORDS: usize = 512;

impl Head {
    // A fresh sender, whatever the cells are: the first chunk takes the TSN `tsn`, the first message the number `number`.
    pub fn new(tsn: u32, number: u64) -> Self
        ensures { (ws : List ℕ) → (sender_of result ws ≡ fresh tsn number) × Counted result ws }
    {
        Head {
            queue: OutboundQueue::new(tsn, number),
            streams: 0,
        }
    }
}

// How many of the words are the table's.
pub fn table_words(cells: &[u64]) -> usize
    ensures { (result ≡ table_words cells.now) × (result ≤ length cells.now) }
{
    // By a test, and not by `min`: of an export's cells the compiler then knows how many these are, and so each ring's room, before anything is built in.
    if cells.len() < TABLE_WORDS {
        cells.len()
    } else {
        TABLE_WORDS
    }
}
