// The calls that concern the streams alone, over a head and the lent cells. Each finds its stream in the table, changes it and puts it back;
// the queue's cells are never lent. The contracts are 01's, for every head and every cells; a refusal leaves the head and every word.
#![tactic(auto)]

ghost use Rattle.std.specs.Fn.{FnOnceReturnsAtMut};
ghost use Rattle.model.specs.State.{with_streams};
ghost use Rattle.model.specs.Streams.{find, open_stream, set_reliability, set_low, set_high, release};
ghost use Rattle.model.specs.Rings.{drop_ssn};
ghost use Rattle.model.specs.Told.{told_done, told_released};
ghost use Rattle.sender_head.specs.Whole.{room_in};
ghost use Rattle.sender_head.specs.Calls.{GoesOrStays, Becomes};
ghost use Rattle.sender_streams.specs.Changes.{Altered};

use limits::Refusal;
use model::Stream;
use sender_head::Head;

// ---- opening

// A new stream: ordered, Reliable, and never high.
pub fn open_stream(
    h: &mut Head,
    cells: &mut [u64],
    identifier: u16,
    maximum: u32,
) -> Result<(), Refusal>
    ensures { GoesOrStays told_done (open_stream (room_in cells.old) identifier maximum) h.old cells.old h.new cells.new result }
{
    if maximum < 1 || limits::PAYLOAD_MAX < maximum {
        return Err(Refusal::BadBounds);
    }
    if sender_head::table::seek(h, cells, identifier).is_some() {
        return Err(Refusal::AlreadyOpen);
    }
    let fresh = stream::new(identifier, maximum as u16);
    if sender_head::table::join(h, cells, fresh) {
        Ok(())
    } else {
        Err(Refusal::StreamsFull)
    }
}

// ---- a change of one open stream

// What the change answers; where the stream is not open, every word stays.
fn change<A, F: FnOnce(&mut Stream) -> A>(
    h: &Head,
    cells: &mut [u64],
    identifier: u16,
    f: F,
) -> Result<A, Refusal>
    requires { F.IsAlwaysCallable f }
    ensures { Altered (λ t a x. FnOnceReturnsAtMut F.FnOnce f t a x) identifier h.now cells.old cells.new result }
{
    let sought = sender_head::table::seek(h, cells, identifier);
    let (place, mut stream) = sought.ok_or(Refusal::NotOpen)?;
    let answer = f(&mut stream);
    sender_head::table::replace(h, cells, place, stream);
    Ok(answer)
}

// How messages that are written from now on are delivered. Any values are taken, as for the thresholds.
pub fn set_reliability(
    h: &Head,
    cells: &mut [u64],
    identifier: u16,
    unordered: bool,
    kind: u8,
    value: u32,
) -> Result<(), Refusal>
    ensures { GoesOrStays told_done (set_reliability identifier unordered kind value) h.now cells.old h.now cells.new result }
{
    change(h, cells, identifier, |stream| {
        stream::set_reliability_params(stream, unordered, kind, value)
    })
}

pub fn set_low_threshold(
    h: &Head,
    cells: &mut [u64],
    identifier: u16,
    low: u64,
) -> Result<(), Refusal>
    ensures { GoesOrStays told_done (set_low identifier low) h.now cells.old h.now cells.new result }
{
    change(h, cells, identifier, |stream| {
        stream::set_buffered_amount_low_threshold(stream, low)
    })
}

pub fn set_high_threshold(
    h: &Head,
    cells: &mut [u64],
    identifier: u16,
    high: u64,
) -> Result<(), Refusal>
    ensures { GoesOrStays told_done (set_high identifier high) h.now cells.old h.now cells.new result }
{
    change(h, cells, identifier, |stream| {
        stream::set_buffered_amount_high_threshold(stream, high)
    })
}

// Bytes of a stream have left the sender. The answer tells whether the amount fell to the low threshold.
pub fn release(h: &Head, cells: &mut [u64], identifier: u16, released: i64) -> Result<bool, Refusal>
    ensures { GoesOrStays told_released (release identifier released) h.now cells.old h.now cells.new result }
{
    change(h, cells, identifier, |stream| {
        stream::amounts::on_buffer_released(stream, released)
    })
}

// An ordered message has left wholly unsent, so the next one takes its SSN. A stream that is not open has none.
pub fn lower_next_ssn(h: &Head, cells: &mut [u64], identifier: u16)
    ensures { Becomes (λ s. with_streams (drop_ssn (find identifier s.streams) s.streams) s) h.now cells.old h.now cells.new }
{
    let _ = change(
        h,
        cells,
        identifier,
        |stream| stream::amounts::lower_ssn(stream),
    );
}
