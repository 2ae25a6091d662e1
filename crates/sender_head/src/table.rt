// The table of streams, in the cells of the whole sender: the queue's words stay as they are.
ghost use Rattle.std.specs.Prelude.{◌≡◌, set};
ghost use Rattle.model.specs.State.{with_streams};
ghost use Rattle.stream_table.specs.Tables.{sought};
ghost use Rattle.sender_head.specs.Whole.{sender_of};
ghost use Rattle.sender_head.specs.Calls.{Becomes, Joins};

use super::Head;
use model::Stream;

// Where the stream of an identifier stands.
pub fn seek(h: &Head, cells: &[u64], identifier: u16) -> Option<(usize, Stream)>
    ensures { result ≡ sought identifier (sender_of h.now cells.now).streams }
{
    let k = super::table_words(cells);
    stream_table::find(h.streams, &cells[0..k], identifier)
}

// The stream at a place is replaced. The head's numbers stay.
pub fn replace(h: &Head, cells: &mut [u64], place: usize, stream: Stream)
    ensures { Becomes (λ s. with_streams (set s.streams place stream) s) h.now cells.old h.now cells.new }
{
    let k = super::table_words(cells);
    stream_table::update(h.streams, &mut cells[0..k], place, stream)
}

// One more at the end, where there is room, which is the answer; else the head and every word stay.
pub fn join(h: &mut Head, cells: &mut [u64], stream: Stream) -> bool
    ensures { Joins stream h.old cells.old h.new cells.new result }
{
    let k = super::table_words(cells);
    stream_table::open(&mut h.streams, &mut cells[0..k], stream)
}
