// What a line of a script is, and which call a row of the table is, of words: the calls of the sender are coded calls, and the others stand
// here.
ghost use Rattle.std.specs.Prelude.{◌≡◌};
ghost use Rattle.script.specs.Commands.{put_of, own_of, timer_of, optional_of, clock_of, estimate_of, made_of, given_of, command_in};

use super::arguments::Words;
use super::table::{Clock, Estimate, Means, Own};
use calls::Call;
use clock_calls::{RtoCall, TimerCall};
use timer::Timer;
use words::Token;

// What a line is; `SetBuffered` is the script's own. `Blank` has no word and gets no answer; `Bad` is no call. `List` asks for the expired TSNs; `ListWithin` names the room of that list.
// `Wipe`, `Put` and `Look` are of the wire, an array of bytes of the script; `Sack` reads one from its front. `Fill` and `Read` are of the memory,
// another; `Lend` says how much of it is lent, and `Data` writes to the wire's front a chunk whose payload is there.
#[derive(Clone, Copy)]
pub enum Command {
    Blank,
    Bad,
    Sender {
        tsn: u32,
        number: u64,
    },
    Run(Call),
    List {
        clock: u64,
    },
    ListWithin {
        clock: u64,
        room: u64,
    },
    Counts,
    Stream {
        identifier: u16,
    },
    SetBuffered {
        identifier: u16,
        amount: u32,
    },
    Wipe {
        byte: u8,
    },
    Put {
        at: u64,
        width: u64,
        value: u64,
    },
    Look {
        at: u64,
        count: u64,
    },
    Sack {
        length: u64,
    },
    Fill {
        seed: u8,
    },
    Lend {
        count: u64,
    },
    Read {
        at: u64,
        count: u64,
    },
    Data {
        tsn: u32,
        room: u64,
    },
    Clock(TimerCall),
    Estimate(RtoCall),
    State {
        sender: bool,
        timers: bool,
        rto: bool,
    },
}

// The last bytes of a number, one to all eight, for a place of the wire.
fn put(at: u64, width: u64, value: u64) -> Command
    ensures { result ≡ put_of at width value }
{
    match width {
        1..=8 => Command::Put { at, width, value },
        _ => Command::Bad,
    }
}

// The script's own.
fn own(call: Own, a: u64, b: u64, c: u64) -> Command
    ensures { result ≡ own_of call a b c }
{
    match call {
        Own::Sender => Command::Sender {
            tsn: (a % 4_294_967_296) as u32,
            number: b,
        },
        Own::List => Command::List { clock: a },
        Own::ListWithin => Command::ListWithin { clock: a, room: b },
        Own::Counts => Command::Counts,
        Own::Stream => Command::Stream {
            identifier: (a % 65_536) as u16,
        },
        Own::SetBuffered => Command::SetBuffered {
            identifier: (a % 65_536) as u16,
            amount: (b % 4_294_967_296) as u32,
        },
        Own::State => Command::State {
            sender: true,
            timers: true,
            rto: true,
        },
        Own::Parts => Command::State {
            sender: a % 2 == 1,
            timers: a / 2 % 2 == 1,
            rto: a / 4 % 2 == 1,
        },
        Own::Wipe => Command::Wipe {
            byte: (a % 256) as u8,
        },
        Own::Put => put(a, b, c),
        Own::Look => Command::Look { at: a, count: b },
        Own::Sack => Command::Sack { length: a },
        Own::Fill => Command::Fill {
            seed: (a % 256) as u8,
        },
        Own::Lend => Command::Lend { count: a },
        Own::Read => Command::Read { at: a, count: b },
        Own::Data => Command::Data {
            tsn: (a % 4_294_967_296) as u32,
            room: b,
        },
    }
}

fn timer(place: u64) -> Timer
    ensures { result ≡ timer_of place }
{
    Timer::VALUES[(place % 6) as usize]
}

// A maximum or a moment; there is none, where it is marked.
fn optional(value: u64, mark: u64) -> Option<u64>
    ensures { result ≡ optional_of value mark }
{
    (mark != 1).then_some(value)
}

// The timers'.
fn clock(call: Clock, a: u64, b: u64, c: u64, d: u64, e: u64) -> TimerCall
    ensures { result ≡ clock_of call a b c d e }
{
    let timer = timer(a);
    match call {
        Clock::Make => TimerCall::Make {
            init: optional(a, b),
            data: optional(c, d),
            longest: e,
        },
        Clock::NextTimeout => TimerCall::NextTimeout,
        Clock::Set => TimerCall::Set {
            timer,
            time: optional(b, c),
        },
        Clock::Get => TimerCall::Get { timer },
        Clock::Start => TimerCall::Start {
            timer,
            clock: b,
            interval: c,
        },
        Clock::Restart => TimerCall::Restart {
            timer,
            clock: b,
            interval: c,
        },
        Clock::Stop => TimerCall::Stop { timer },
        Clock::Reset => TimerCall::Reset { timer },
        Clock::Suppress => TimerCall::Suppress { timer },
        Clock::IsExpired => TimerCall::IsExpired { timer, clock: b },
        Clock::SetCount => TimerCall::SetCount {
            timer,
            count: (b % 4_294_967_296) as u32,
        },
    }
}

// The estimator's.
fn estimate(call: Estimate, a: u64, b: u64, c: u64) -> RtoCall
    ensures { result ≡ estimate_of call a b c }
{
    match call {
        Estimate::Make => RtoCall::Make {
            initial: a,
            least: b,
            most: c,
        },
        Estimate::Measure => RtoCall::Measure { rtt: a },
        Estimate::Reset => RtoCall::Reset,
        Estimate::Set => RtoCall::Set {
            rto: a,
            kept: b % 2 == 1,
        },
        Estimate::Get => RtoCall::Get,
    }
}

// The call of a row of any of the four. A part of a state is none.
fn made(call: Means, given: Words) -> Command
    ensures { result ≡ made_of call given }
{
    let Words(a, b, c, d, e) = given;
    match call {
        Means::Sender(row) => Command::Run(coded_calls::plain(row, a, b, c, d)),
        Means::Own(own) => self::own(own, a, b, c),
        Means::Clock(clock) => Command::Clock(self::clock(clock, a, b, c, d, e)),
        Means::Estimate(estimate) => Command::Estimate(self::estimate(estimate, a, b, c)),
        Means::Part(_) => Command::Bad,
    }
}

// The call of so many words, where the table has one.
fn given(count: u8, words: [Token; 5]) -> Option<Command>
    ensures { result ≡ given_of count words }
{
    let row = super::table::find(words[0].code(), count)?;
    let given = super::arguments::words_of(row.2, words)?;
    Some(made(row.3, given))
}

// The call of a line's words: so many of them, of which the first is its name. What stands in a place beyond them is not looked at.
pub fn called(count: u8, words: [Token; 5]) -> Command
    ensures { result ≡ command_in count words }
{
    if count == 0 {
        return Command::Blank;
    }
    given(count, words).unwrap_or(Command::Bad)
}
