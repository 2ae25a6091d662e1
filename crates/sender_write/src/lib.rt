// A message is written: refusals 3, 6, 1, 7, 8, 9 of 01 in that order, and then its fragments join their ring and its stream counts it. A refusal
// leaves the head and every word.
#![tactic(auto)]

ghost use Rattle.model.specs.Messages.{message_of, write};
ghost use Rattle.model.specs.Told.{told_done, told_written};
ghost use Rattle.outbound_send.specs.Pushes.{pushing};
ghost use Rattle.sender_head.specs.Whole.{room_in};
ghost use Rattle.sender_head.specs.Calls.{GoesOrStays};

use limits::Refusal;
use model::Stream;
use sender_head::Head;

// The message joins its ring, or is refused with 1, 8 or 9. The streams stay as they are.
fn enqueue(
    h: &mut Head,
    cells: &mut [u64],
    stream: &Stream,
    protocol: u32,
    offset: u64,
    length: u32,
) -> Result<(), Refusal>
    ensures { GoesOrStays told_done (pushing (room_in cells.old).ring (message_of protocol h.old.queue.next_message_id stream.now) stream.now.maximum offset length) h.old cells.old h.new cells.new result }
{
    let k = sender_head::table_words(cells);
    let n = cells.len();
    let message = stream::message(stream, protocol, h.queue.next_message_id);
    outbound_send::push::push(
        &mut h.queue,
        &mut cells[k..n],
        message,
        stream.maximum,
        offset,
        length,
    )
}

// The caller keeps the bytes: a message is where they begin and how many they are. Told is whether the buffered amount reached the high
// threshold.
pub fn write(
    h: &mut Head,
    cells: &mut [u64],
    identifier: u16,
    protocol: u32,
    offset: u64,
    length: u64,
) -> Result<bool, Refusal>
    ensures { GoesOrStays told_written (write (room_in cells.old) identifier protocol offset length) h.old cells.old h.new cells.new result }
{
    let Some((place, mut stream)) = sender_head::table::seek(h, cells, identifier) else {
        return Err(Refusal::NotOpen);
    };
    if limits::MESSAGE_MAX < length {
        return Err(Refusal::MessageLong);
    }
    if limits::OFFSET_MAX < offset {
        return Err(Refusal::BeyondLimit);
    }
    let bytes = length as u32;
    if stream::amounts::would_overflow(&stream, bytes) {
        return Err(Refusal::BufferFull);
    }
    enqueue(h, cells, &stream, protocol, offset, bytes)?;
    let high = stream::amounts::written(&mut stream, protocol, bytes);
    sender_head::table::replace(h, cells, place, stream);
    Ok(high)
}
