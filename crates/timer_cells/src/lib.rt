// The six timers in 18 words that the caller lends, three to a timer: the deadline, the maximum, and the marks, which are the count below 2^32 and a
// byte each for whether there is a deadline, a maximum, a suppression. So the words are, byte for byte, the timers of include/girdermoth.h. A call
// reads and writes the words of the timer that it names. Every words mean a table (`table_of` of specs/), and a refusal leaves every word; words of
// another number than 18 are refused. Only `new` changes the head, and a call that does not read it takes the words alone: what it says holds beside
// every head.
#![tactic(auto)]

ghost use Rattle.std.specs.Prelude.{◌≡◌, true, false, cond, ◌+◌, ◌*◌, ◌/◌, ◌%◌, ◌<◌, length, set, MatchResult};
ghost use Rattle.timer.specs.Entries.{idle_entry};
ghost use Rattle.timer.specs.Timers.{with_count, with_suppression};
ghost use Rattle.timer.specs.Calls.{number_of};
ghost use Rattle.timer_cells.specs.declared.Head.{Head};
ghost use Rattle.timer_cells.specs.Words.{is_set, moment_of, maximum_of, entry_in, entries_in, with_time, Marked};
ghost use Rattle.timer_cells.specs.Says.{due_told, expired_of, Stands, Missing, Expires, Creates, Sets, Starts, Restarts, Stops, Resets, Suppresses, Gets, Checks, NextTimeout};

use limits::{Moment, Refusal};
use timer::{Entry, Expiry, TIMER_COUNT};

// How many words the six have.
pub const WORDS: usize = 18;

// What the three bytes of the marks count.
const DEADLINE: u64 = 4_294_967_296;

const MAXIMUM: u64 = 1_099_511_627_776;

const SUPPRESSION: u64 = 281_474_976_710_656;

// What is kept beside the words.
#[repr(C)]
#[derive(Clone, Copy)]
pub struct Head {
    pub rto_max: u32,
}

// A time, where `yes` is set. A flag and two numbers for C's layout.
#[repr(C)]
#[derive(Clone, Copy)]
pub struct Due {
    pub value: u64,
    pub refusal: u8,
    pub yes: bool,
}

// What an expiry tells. A refusal's number beside it for C's layout.
#[repr(C)]
#[derive(Clone, Copy)]
pub struct Expired {
    pub count: u32,
    pub refusal: u8,
    pub expired: bool,
    pub failure: bool,
}

// ---- replies

impl From<Result<Moment, Refusal>> for Due {
    fn from(answer: Result<Moment, Refusal>) -> Due
        ensures { result ≡ due_told answer }
    {
        match answer {
            Ok(deadline) => Due {
                value: deadline.unwrap_or(0),
                refusal: 0,
                yes: deadline.is_some(),
            },
            Err(refusal) => Due {
                value: 0,
                refusal: refusal.number(),
                yes: false,
            },
        }
    }
}

impl From<Result<Expiry, Refusal>> for Expired {
    fn from(answer: Result<Expiry, Refusal>) -> Expired
        ensures { result ≡ expired_of answer }
    {
        match answer {
            Ok(
                Expiry {
                    expired,
                    failure,
                    count,
                },
            ) => Expired {
                count,
                refusal: 0,
                expired,
                failure,
            },
            Err(refusal) => Expired {
                count: 0,
                refusal: refusal.number(),
                expired: false,
                failure: false,
            },
        }
    }
}

// ---- one timer

// Where the words of a timer begin. Refusal: 1.
fn first_word(cells: &[u64], timer: usize) -> Result<usize, Refusal>
    ensures { MatchResult result (λ at. Stands (length cells.now) timer at) (λ r. Missing (length cells.now) timer r) }
{
    if cells.len() != WORDS || timer >= TIMER_COUNT {
        return Err(Refusal::BeyondLimit);
    }
    Ok(timer * 3)
}

fn deadline(time: u64, marks: u64) -> Moment
    ensures { result ≡ moment_of (is_set (marks / 4294967296 % 256)) time }
{
    (marks / DEADLINE % 256 != 0).then_some(time)
}

fn unpacked(time: u64, most: u64, marks: u64) -> Entry
    ensures { result ≡ entry_in time most marks }
{
    let bytes = marks / DEADLINE;
    Entry {
        deadline: deadline(time, marks),
        retrans: (marks % DEADLINE) as u32,
        maximum: (bytes / 256 % 256 != 0).then_some(most),
        suppressed: bytes / 256 / 256 % 256 != 0,
    }
}

// The marks of a timer that has a deadline, or has none.
fn timed(marks: u64, is: bool) -> u64
    ensures { Marked (λ d e. with_time e (moment_of is d)) marks result }
{
    let byte = marks / DEADLINE % 256;
    if !is {
        marks - byte * DEADLINE
    } else if byte == 0 {
        marks + DEADLINE
    } else {
        marks
    }
}

// The marks of a timer that is idle, with the maximum that it has.
fn stopped(marks: u64) -> u64
    ensures { Marked (λ d e. idle_entry e.maximum) marks result }
{
    marks / DEADLINE / 256 % 256 * MAXIMUM
}

// The marks with nothing counted.
fn uncounted(marks: u64) -> u64
    ensures { Marked (λ d e. with_count e 0) marks result }
{
    marks / DEADLINE * DEADLINE
}

// The marks with a suppression.
fn suppressed(marks: u64) -> u64
    ensures { Marked (λ d e. with_suppression e true) marks result }
{
    if marks / DEADLINE / 256 / 256 % 256 == 0 {
        marks + SUPPRESSION
    } else {
        marks
    }
}

// The marks without a suppression.
fn lifted(marks: u64) -> u64
    ensures { Marked (λ d e. with_suppression e false) marks result }
{
    marks - marks / DEADLINE / 256 / 256 % 256 * SUPPRESSION
}

// A suppressed expiry clears the suppression; another is counted.
fn expiry(time: u64, most: u64, marks: &mut u64, clock: u64) -> Result<Expiry, Refusal>
    ensures { Expires time most marks.old clock marks.new (expired_of result) }
{
    let before = unpacked(time, most, *marks);
    let mut after = before;
    let told = after.expire(clock)?;
    if !told.expired {
        return Ok(told);
    }
    *marks = if before.suppressed {
        lifted(*marks)
    } else {
        *marks + 1
    };
    Ok(told)
}

// The marks of a timer that is idle, with a maximum or with none.
fn limited(is: bool) -> u64
    ensures { result ≡ cond is 1099511627776 0 }
{
    if is { MAXIMUM } else { 0 }
}

// Makes a timer idle.
fn idle(cells: &mut [u64], timer: usize, is: bool, most: u64)
    requires timer_bound { timer < 6 }
    requires cells_len { length cells.old ≡ 18 }
    ensures { entries_in cells.new ≡ set (entries_in cells.old) timer (idle_entry (maximum_of is most)) }
{
    let at = timer * 3;
    cells[at] = 0;
    cells[at + 1] = most;
    cells[at + 2] = limited(is);
}

// ---- the six

// Six idle timers. T2Shutdown and Ack have no maximum, T3RTX the data maximum, the others the init maximum. Refusal: 1.
// A flag and a number each, and no Option: C's struct gets the number in its word, whatever the flag is.
pub fn new(
    head: &mut Head,
    cells: &mut [u64],
    has_init: bool,
    init: u64,
    has_data: bool,
    data: u64,
    rto_max: u64,
) -> Result<(), Refusal>
    ensures { Creates (length cells.old) has_init init has_data «data» rto_max head.old cells.old head.new cells.new (number_of result) }
{
    if cells.len() != WORDS || rto_max > limits::SETTING_MAX {
        return Err(Refusal::BeyondLimit);
    }
    idle(cells, 0, has_init, init);
    idle(cells, 1, has_init, init);
    idle(cells, 2, false, 0);
    idle(cells, 3, has_data, data);
    idle(cells, 4, has_init, init);
    idle(cells, 5, false, 0);
    head.rto_max = rto_max as u32;
    Ok(())
}

// Sets or clears the deadline alone. Refusal: 1. A flag and a number, as in `new`.
pub fn set(cells: &mut [u64], timer: usize, is: bool, time: u64) -> Result<(), Refusal>
    ensures { (head : Head) → Sets (length cells.old) timer is time head cells.old head cells.new (number_of result) }
{
    let at = first_word(cells, timer)?;
    if limits::beyond(is.then_some(time), limits::CLOCK_MAX) {
        return Err(Refusal::BeyondLimit);
    }
    let marks = timed(cells[at + 2], is);
    cells[at] = time;
    cells[at + 2] = marks;
    Ok(())
}

// Refusal: 1.
pub fn start(
    head: Head,
    cells: &mut [u64],
    timer: usize,
    clock: u64,
    interval: u64,
) -> Result<(), Refusal>
    ensures { Starts (length cells.old) timer clock interval head cells.old head cells.new (number_of result) }
{
    let at = first_word(cells, timer)?;
    if !timer::startable(clock, interval) {
        return Err(Refusal::BeyondLimit);
    }
    let marks = cells[at + 2];
    let count = (marks % DEADLINE) as u32;
    let time = clock + timer::wait(timer, interval as u32, count, head.rto_max);
    let rest = timed(marks, true);
    cells[at] = time;
    cells[at + 2] = rest;
    Ok(())
}

// Leaves a deadline at or after `clock` alone; the arguments are tested all the same. Refusal: 1.
pub fn restart_if_stale(
    head: Head,
    cells: &mut [u64],
    timer: usize,
    clock: u64,
    interval: u64,
) -> Result<(), Refusal>
    ensures { Restarts (length cells.old) timer clock interval head cells.old head cells.new (number_of result) }
{
    let at = first_word(cells, timer)?;
    let until = deadline(cells[at], cells[at + 2]);
    if timer::startable(clock, interval) && limits::ahead(until, clock) {
        return Ok(());
    }
    start(head, cells, timer, clock, interval)
}

// Clears deadline, count and suppression. Refusal: 1.
pub fn stop(cells: &mut [u64], timer: usize) -> Result<(), Refusal>
    ensures { (head : Head) → Stops (length cells.old) timer head cells.old head cells.new (number_of result) }
{
    let at = first_word(cells, timer)?;
    cells[at + 2] = stopped(cells[at + 2]);
    Ok(())
}

// Forgets the expiries counted so far; the deadline stays. Refusal: 1.
pub fn reset_retrans(cells: &mut [u64], timer: usize) -> Result<(), Refusal>
    ensures { (head : Head) → Resets (length cells.old) timer head cells.old head cells.new (number_of result) }
{
    let at = first_word(cells, timer)?;
    cells[at + 2] = uncounted(cells[at + 2]);
    Ok(())
}

// The next expiry of the timer is not counted. Refusal: 1.
pub fn suppress_error_count(cells: &mut [u64], timer: usize) -> Result<(), Refusal>
    ensures { (head : Head) → Suppresses (length cells.old) timer head cells.old head cells.new (number_of result) }
{
    let at = first_word(cells, timer)?;
    cells[at + 2] = suppressed(cells[at + 2]);
    Ok(())
}

// Asking counts: every call at or after the deadline is an expiry of its own, and the deadline stays. Refusals: 1, 12.
pub fn is_expired(cells: &mut [u64], timer: usize, clock: u64) -> Result<Expiry, Refusal>
    ensures { (head : Head) → Checks (length cells.old) timer clock head cells.old head cells.new (expired_of result) }
{
    let at = first_word(cells, timer)?;
    expiry(cells[at], cells[at + 1], &mut cells[at + 2], clock)
}

// The deadline of a timer. Refusal: 1.
pub fn get(cells: &[u64], timer: usize) -> Result<Moment, Refusal>
    ensures { (head : Head) → Gets (length cells.now) timer head cells.now (due_told result) }
{
    let at = first_word(cells, timer)?;
    Ok(deadline(cells[at], cells[at + 2]))
}

// The smallest deadline of the six, if any has one. Refusal: 1.
pub fn next_timeout(cells: &[u64]) -> Result<Moment, Refusal>
    ensures { (head : Head) → NextTimeout (length cells.now) head cells.now (due_told result) }
{
    if cells.len() != WORDS {
        return Err(Refusal::BeyondLimit);
    }
    let mut next = None;
    for timer in 0..TIMER_COUNT {
        let at = timer * 3;
        next = limits::earlier(next, deadline(cells[at], cells[at + 2]));
    }
    Ok(next)
}
