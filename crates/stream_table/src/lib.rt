// The open streams, in the order of opening: one to each of the first `count` slots of lent cells (all of them, where that is more). What
// the slots hold is the list `table_of`, for every count and every words, so no call asks anything of its caller.
#![tactic(auto)]

pub mod slot;

ghost use Rattle.std.specs.Prelude.{◌≡◌, false, length, set, ltb};
ghost use Rattle.cells.specs.Slots.{room_of};
ghost use Rattle.rows.specs.Joins.{pushed};
ghost use Rattle.rows.specs.Spared.{Stays};
ghost use Rattle.stream_table.specs.Tables.{table_of, sought};

use model::Stream;

// How many are open.
pub fn len(count: usize, cells: &[u64]) -> usize
    ensures { result ≡ length (table_of count cells.now) }
{
    count.min(cells::room(cells))
}

// The first stream with the identifier: where it stands, and the stream.
pub fn find(count: usize, cells: &[u64], identifier: u16) -> Option<(usize, Stream)>
    ensures { result ≡ sought identifier (table_of count cells.now) }
{
    for i in 0..len(count, cells) {
        let stream = slot::load(cells, i);
        if stream.identifier == identifier {
            return Some((i, stream));
        }
    }
    None
}

// One more at the end, where there is room, which is the answer; else the count and every word stay.
pub fn open(count: &mut usize, cells: &mut [u64], stream: Stream) -> bool
    ensures { (table_of count.new cells.new ≡ pushed (room_of cells.old) (table_of count.old cells.old) stream) × (result ≡ ltb (length (table_of count.old cells.old)) (room_of cells.old)) × (result ≡ false → Stays count.old cells.old count.new cells.new) }
{
    if cells::room(cells) <= *count {
        return false;
    }
    slot::store(cells, *count, stream);
    *count += 1;
    true
}

// The stream at a place is replaced, where there is one.
pub fn update(count: usize, cells: &mut [u64], place: usize, stream: Stream)
    ensures { table_of count cells.new ≡ set (table_of count cells.old) place stream }
{
    if place < count {
        slot::store(cells, place, stream);
    }
}
