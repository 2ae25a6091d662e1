// A stream in a slot: its words are, in order, the low and the high threshold, the messages and the bytes of its statistics, the
// reliability's value with the buffered amount, and its settings. Two are left: a store writes 0 to the seventh, and leaves the eighth.
ghost use Rattle.std.specs.Prelude.{◌≡◌, get_or, set};
ghost use Rattle.stream_table.specs.Streams.{Packed, stream_of, streams, blank_stream};

use cells::HIGH;
use model::{Reliability, Statistics, Stream};

// What the settings count in their word: the identifier below 2^16, then these.
const MAXIMUM: u64 = 65_536;

const SSN: u64 = 4_294_967_296;

const KIND: u64 = 281_474_976_710_656;

const UNORDERED: u64 = 72_057_594_037_927_936;

fn settings_of(identifier: u16, maximum: u16, ssn: u16, kind: u8, unordered: bool) -> u64
    ensures { Packed identifier maximum ssn kind unordered result }
{
    let bit = cells::bit(unordered);
    identifier as u64
        + maximum as u64 * MAXIMUM
        + ssn as u64 * SSN
        + kind as u64 * KIND
        + bit * UNORDERED
}

// Every six words are some stream.
fn unpacked(low: u64, high: u64, messages: u64, bytes: u64, amounts: u64, settings: u64) -> Stream
    ensures { result ≡ stream_of low high messages bytes amounts settings }
{
    Stream {
        identifier: (settings % MAXIMUM) as u16,
        maximum: (settings / MAXIMUM % 65_536) as u16,
        unordered: settings / UNORDERED % 2 == 1,
        reliability: Reliability {
            kind: (settings / KIND % 256) as u8,
            value: (amounts % HIGH) as u32,
        },
        ssn: (settings / SSN % 65_536) as u16,
        buffered: (amounts / HIGH) as u32,
        low,
        high,
        statistics: Statistics { messages, bytes },
    }
}

// The stream in slot i.
pub fn load(cells: &[u64], i: usize) -> Stream
    ensures { result ≡ get_or (streams cells.now) i blank_stream }
{
    if cells::room(cells) <= i {
        return unpacked(0, 0, 0, 0, 0, 0);
    }
    let at = i * 8;
    unpacked(
        cells[at],
        cells[at + 1],
        cells[at + 2],
        cells[at + 3],
        cells[at + 4],
        cells[at + 5],
    )
}

// The stream goes into slot i.
pub fn store(cells: &mut [u64], i: usize, stream: Stream)
    ensures { streams cells.new ≡ set (streams cells.old) i stream }
{
    let amounts = cells::pair(stream.reliability.value, stream.buffered);
    let settings = settings_of(
        stream.identifier,
        stream.maximum,
        stream.ssn,
        stream.reliability.kind,
        stream.unordered,
    );
    cells::write(
        cells,
        i,
        stream.low,
        stream.high,
        stream.statistics.messages,
        stream.statistics.bytes,
        amounts,
        settings,
        0,
    );
}
