// Document 01, "Numbers" and "What the caller hears": each limit and each refusal, once, by name; and a moment of the clock.
#![tactic(auto)]

ghost use Rattle.std.specs.Prelude.{◌≡◌};
ghost use Rattle.limits.specs.Moments.{passed, ahead, beyond, earlier};
ghost use Rattle.limits.specs.Refusals.{refusal_number};

// The clock, in milliseconds; also a deadline that is set directly.
pub const CLOCK_MAX: u64 = 1_099_511_627_776;
// Intervals, RTO settings and measured round-trip times, in milliseconds.
pub const SETTING_MAX: u64 = 4_294_967_295;
// Expiries that a timer counts.
pub const COUNT_MAX: u32 = 4_294_967_295;
// Bytes of a chunk's payload.
pub const PAYLOAD_MAX: u32 = 65_515;
// Bytes of a message.
pub const MESSAGE_MAX: u64 = 65_536;
// The offset at which a message is given.
pub const OFFSET_MAX: u64 = 4_294_967_295;
// The buffered amount of a stream, in bytes.
pub const BUFFERED_MAX: u64 = 4_294_967_295;

// Why a call is refused. A C caller hears the number.
#[derive(Clone, Copy, Debug, PartialEq, Eq)]
pub enum Refusal {
    // A number is beyond its limit, and no other line names it.
    BeyondLimit = 1,
    // The payload maximum is outside 1 to 65,515, or the RTO minimum is above the maximum.
    BadBounds = 2,
    // The stream is not open.
    NotOpen = 3,
    // The stream is already open.
    AlreadyOpen = 4,
    // All the streams that there is room for are open.
    StreamsFull = 5,
    // The message is too long.
    MessageLong = 6,
    // The buffered amount would pass its limit.
    BufferFull = 7,
    // The message's ring lacks room for all its fragments.
    RingFull = 8,
    // The message has a fragment, and the last message number is taken.
    NumbersSpent = 9,
    // The flight has room for no more than a terminator, and a chunk is pending.
    FlightFull = 10,
    // The lent list is shorter than the list of expired TSNs.
    ListShort = 11,
    // An expiry that would be counted finds the timer's count at its limit.
    CountFull = 12,
    // The bytes are no SACK: under 16 of them, the type is wrong, or the length field is not 16 plus 4 for each block and duplicate, or not the bytes lent.
    BadSack = 13,
    // A block of a SACK that is not stale has start 0, its start above its end, or its end beyond the newest entry.
    BadBlock = 14,
    // No entry in flight has the TSN, or the one that has it is acknowledged or abandoned.
    NoEntry = 15,
    // The entry's payload is not within the bytes lent.
    PayloadOutside = 16,
    // The chunk is longer than the output lent, its padding counted.
    OutputShort = 17,
}

impl Refusal {
    pub fn number(self) -> u8
        ensures { result ≡ refusal_number self }
    {
        self as u8
    }
}

// A moment of the clock, in milliseconds, that may be missing: a deadline, or the time of a send.
pub type Moment = Option<u64>;

// A deadline is passed at its own millisecond.
pub fn reached(deadline: Moment, clock: u64) -> bool
    ensures { result ≡ passed clock deadline }
{
    deadline.is_some_and(|time| time <= clock)
}

// Whether a timer with this deadline still runs, for a restart: one at `clock` does.
pub fn ahead(deadline: Moment, clock: u64) -> bool
    ensures { result ≡ ahead clock deadline }
{
    deadline.is_some_and(|time| clock <= time)
}

pub fn beyond(moment: Moment, limit: u64) -> bool
    ensures { result ≡ beyond limit moment }
{
    moment.is_some_and(|time| limit < time)
}

pub fn earlier(one: Moment, other: Moment) -> Moment
    ensures { result ≡ earlier one other }
{
    match (one, other) {
        (Some(first), Some(second)) => Some(first.min(second)),
        _ => one.or(other),
    }
}
