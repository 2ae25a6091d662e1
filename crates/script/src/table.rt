// The script's table: the name of a line, how many words it has, the kinds of its arguments, and which call it is. A name is held as two octal
// digits a letter. specs/Table.antt has the same table in words.
ghost use Rattle.std.specs.Prelude.{◌≡◌};
ghost use Rattle.script.specs.Table.{named, found, row_of};

use self::Kind::{Flag, Long, Middle, Octet, Optional, Parts, Short, Signed, Timer};

// What an argument has to be. A signed and an optional one are two words of a call, and each other is one.
#[derive(Clone, Copy, PartialEq, Eq)]
pub enum Kind {
    // A number of 64, 32, 16, 8 bits.
    Long,
    Middle,
    Short,
    Octet,
    // No or yes.
    Flag,
    // The place of a timer.
    Timer,
    // The parts of a state.
    Parts,
    // A number that may be below zero.
    Signed,
    // A number of 64 bits, or a dash.
    Optional,
}

// The script's own calls.
#[derive(Clone, Copy)]
pub enum Own {
    Sender,
    List,
    ListWithin,
    Counts,
    Stream,
    SetBuffered,
    State,
    Parts,
    Wipe,
    Put,
    Look,
    Sack,
    Fill,
    Lend,
    Read,
    Data,
}

// The timers' calls.
#[derive(Clone, Copy)]
pub enum Clock {
    Make,
    NextTimeout,
    Set,
    Get,
    Start,
    Restart,
    Stop,
    Reset,
    Suppress,
    IsExpired,
    SetCount,
}

// The estimator's calls.
#[derive(Clone, Copy)]
pub enum Estimate {
    Make,
    Measure,
    Reset,
    Set,
    Get,
}

// Which call a line is; the sender's is a row of the coded calls. A part is no line but the word of one for a state: a sum of 1 for the sender,
// 2 for the timers, 4 for the estimator.
#[derive(Clone, Copy)]
pub enum Means {
    Sender(u64),
    Own(Own),
    Clock(Clock),
    Estimate(Estimate),
    Part(u64),
}

// The name, the words of a line with it, the kinds of the arguments, the call.
#[derive(Clone, Copy)]
pub struct Row(pub u64, pub u8, pub [Option<Kind>; 4], pub Means);

// A row from the kinds that it has.
macro_rules! row {
    ($name:literal => $call:expr) => {
        Row($name, 1, [None, None, None, None], $call)
    };
    ($name:literal $one:ident => $call:expr) => {
        Row($name, 2, [Some($one), None, None, None], $call)
    };
    ($name:literal $one:ident $two:ident => $call:expr) => {
        Row($name, 3, [Some($one), Some($two), None, None], $call)
    };
    ($name:literal $one:ident $two:ident $three:ident => $call:expr) => {
        Row($name, 4, [Some($one), Some($two), Some($three), None], $call)
    };
    ($name:literal $one:ident $two:ident $three:ident $four:ident => $call:expr) => {
        Row($name, 5, [Some($one), Some($two), Some($three), Some($four)], $call)
    };
    (part $name:literal => $sum:literal) => {
        Row($name, 0, [None, None, None, None], Means::Part($sum))
    };
}

const TABLE: [Row; 61] = [
    // the sender's
    row!(0o17_20_05_16 Short Middle => Means::Sender(0)), // open
    row!(0o22_05_14 Short Flag Octet Middle => Means::Sender(1)), // rel
    row!(0o14_17_27 Short Long => Means::Sender(2)), // low
    row!(0o10_11_07_10 Short Long => Means::Sender(3)), // high
    row!(0o27_22_11_24_05 Short Middle Long Long => Means::Sender(4)), // write
    row!(0o22_05_14_05_01_23_05_04 Short Signed => Means::Sender(5)), // released
    row!(0o14_11_06_05_24_11_15_05_23 Long => Means::Sender(6)), // lifetimes
    row!(0o23_05_16_04 Long => Means::Sender(7)), // send
    row!(0o05_30_20_11_22_05 Long => Means::Sender(8)), // expire
    row!(0o24_01_11_14 Long => Means::Sender(9)), // tail
    row!(0o01_02_01_16_04_17_16 Middle => Means::Sender(10)), // abandon
    row!(0o01_03_13 Middle => Means::Sender(11)), // ack
    row!(0o20_17_20 Middle => Means::Sender(12)), // pop
    row!(0o15_01_22_13_01_14_14 => Means::Sender(13)), // markall
    row!(0o07_05_24 Middle => Means::Sender(14)), // get
    row!(0o11_23_01_02 Middle => Means::Sender(15)), // isab
    row!(0o20_05_05_13 => Means::Sender(16)), // peek
    row!(0o16_05_30_24_15_23_07 => Means::Sender(17)), // nextmsg
    row!(0o16_05_30_24_24_23_16 => Means::Sender(18)), // nexttsn
    row!(0o05_01_22_14_11_05_23_24 => Means::Sender(23)), // earliest
    row!(0o10_01_23_20_05_16_04 Short => Means::Sender(24)), // haspend
    row!(0o10_01_23 Short => Means::Sender(25)), // has
    // the script's own
    row!(0o23_05_16_04_05_22 Middle Long => Means::Own(Own::Sender)), // sender
    row!(0o05_30_20_11_22_05_04 Long => Means::Own(Own::List)), // expired
    row!(0o05_30_20_11_22_05_04 Long Long => Means::Own(Own::ListWithin)), // expired
    row!(0o03_17_25_16_24_23 => Means::Own(Own::Counts)), // counts
    row!(0o23_24_22_05_01_15 Short => Means::Own(Own::Stream)), // stream
    row!(0o23_05_24_02_25_06 Short Middle => Means::Own(Own::SetBuffered)), // setbuf
    row!(0o23_24_01_24_05 => Means::Own(Own::State)), // state
    row!(0o23_24_01_24_05 Parts => Means::Own(Own::Parts)), // state
    row!(0o27_11_20_05 Octet => Means::Own(Own::Wipe)), // wipe
    row!(0o20_25_24 Long Long Long => Means::Own(Own::Put)), // put
    row!(0o14_17_17_13 Long Long => Means::Own(Own::Look)), // look
    row!(0o23_01_03_13 Long => Means::Own(Own::Sack)), // sack
    row!(0o06_11_14_14 Octet => Means::Own(Own::Fill)), // fill
    row!(0o14_05_16_04 Long => Means::Own(Own::Lend)), // lend
    row!(0o22_05_01_04 Long Long => Means::Own(Own::Read)), // read
    row!(0o04_01_24_01 Middle Long => Means::Own(Own::Data)), // data
    // the timers'
    row!(0o24_11_15_05_22_23 Optional Optional Long => Means::Clock(Clock::Make)), // timers
    row!(0o24_16_05_30_24 => Means::Clock(Clock::NextTimeout)), // tnext
    row!(0o24_23_05_24 Timer Optional => Means::Clock(Clock::Set)), // tset
    row!(0o24_07_05_24 Timer => Means::Clock(Clock::Get)), // tget
    row!(0o24_23_24_01_22_24 Timer Long Long => Means::Clock(Clock::Start)), // tstart
    row!(0o24_22_05_23_24_01_22_24 Timer Long Long => Means::Clock(Clock::Restart)), // trestart
    row!(0o24_23_24_17_20 Timer => Means::Clock(Clock::Stop)), // tstop
    row!(0o24_22_05_23_05_24 Timer => Means::Clock(Clock::Reset)), // treset
    row!(0o24_23_25_20_20_22_05_23_23 Timer => Means::Clock(Clock::Suppress)), // tsuppress
    row!(0o24_05_30_20_11_22_05_04 Timer Long => Means::Clock(Clock::IsExpired)), // texpired
    row!(0o23_05_24_03_17_25_16_24 Timer Middle => Means::Clock(Clock::SetCount)), // setcount
    // the estimator's
    row!(0o22_24_17 Long Long Long => Means::Estimate(Estimate::Make)), // rto
    row!(0o15_05_01_23_25_22_05 Long => Means::Estimate(Estimate::Measure)), // measure
    row!(0o22_22_05_23_05_24 => Means::Estimate(Estimate::Reset)), // rreset
    row!(0o23_05_24_22_24_17 Long Flag => Means::Estimate(Estimate::Set)), // setrto
    row!(0o07_05_24_22_24_17 => Means::Estimate(Estimate::Get)), // getrto
    // the parts of a state, which are no lines
    row!(part 0o23 => 1), // s
    row!(part 0o24 => 2), // t
    row!(part 0o22 => 4), // r
    row!(part 0o23_24 => 3), // st
    row!(part 0o23_22 => 5), // sr
    row!(part 0o24_22 => 6), // tr
    row!(part 0o23_24_22 => 7), // str
];

impl Row {
    fn is(&self, name: u64, words: u8) -> bool
        ensures { result ≡ named self.now name words }
    {
        self.1 == words && self.0 == name
    }
}

// The first row of a name with so many words.
fn first(rows: &[Row], name: u64, words: u8) -> Option<Row>
    ensures { result ≡ found rows.now name words }
{
    for row in rows {
        if row.is(name, words) {
            return Some(*row);
        }
    }
    None
}

// The row of a name with so many words.
pub fn find(name: u64, words: u8) -> Option<Row>
    ensures { result ≡ row_of name words }
{
    first(&TABLE, name, words)
}
