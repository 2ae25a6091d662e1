// The six timers as a host holds them: one struct, and thin functions over a reference to it. Each lends the words to a function of `timer_cells`,
// and tells what it answers as C hears it. A host that hands over any bytes at all is safe: each bit pattern of the struct is a table of timers. A timer is
// named by its place in `Timer::VALUES`, and a place beyond the six is refused with 1. A call touches only the timer that it names, and a refused
// one leaves every word. A call that changes the timers answers a refusal's number, or 0.
#![tactic(auto)]

ghost use Rattle.std.specs.Prelude.{◌≡◌};
ghost use Rattle.timer.specs.Calls.{number_of};
ghost use Rattle.lent_timer.specs.Says.{New, NextTimeout, Get, Set, Start, RestartIfStale, Stop, ResetRetrans, SuppressErrorCount, IsExpired};

use limits::Refusal;
use timer_cells::{Due, Expired, Head};

// Three words to a timer: byte for byte the six `girdermoth_timer`s of include/girdermoth.h, and `rto_max` after them.
#[repr(C)]
#[derive(Drop)]
pub struct Timers {
    pub cells: [u64; 18],
    pub head: Head,
}

// What C hears of a call that changes the timers: a refusal's number, or 0.
fn number(answer: Result<(), Refusal>) -> u8
    ensures { result ≡ number_of answer }
{
    match answer {
        Ok(()) => 0,
        Err(refusal) => refusal.number(),
    }
}

// Six idle timers, whatever the bytes were: with a maximum of init retransmissions, of data retransmissions, or none; `rto_max` in milliseconds.
// Refusal: 1.
#[unsafe(no_mangle)]
pub extern "C" fn girdermoth_timers_new(
    s: &mut Timers,
    has_init: bool,
    init: u64,
    has_data: bool,
    data: u64,
    rto_max: u64,
) -> u8
    ensures { New has_init init has_data «data» rto_max s.old s.new result }
{
    number(timer_cells::new(
        &mut s.head,
        &mut s.cells,
        has_init,
        init,
        has_data,
        data,
        rto_max,
    ))
}

// The smallest deadline of the six, if any has one.
#[unsafe(no_mangle)]
pub extern "C" fn girdermoth_timers_next_timeout(s: &Timers) -> Due
    ensures { NextTimeout s.now result }
{
    Due::from(timer_cells::next_timeout(&s.cells))
}

// The deadline of a timer. Refusal: 1.
#[unsafe(no_mangle)]
pub extern "C" fn girdermoth_timer_get(s: &Timers, timer: usize) -> Due
    ensures { Get timer s.now result }
{
    Due::from(timer_cells::get(&s.cells, timer))
}

// Sets or clears the deadline alone. Refusal: 1.
#[unsafe(no_mangle)]
pub extern "C" fn girdermoth_timer_set(s: &mut Timers, timer: usize, is: bool, time: u64) -> u8
    ensures { Set timer is time s.old s.new result }
{
    number(timer_cells::set(&mut s.cells, timer, is, time))
}

// Refusal: 1.
#[unsafe(no_mangle)]
pub extern "C" fn girdermoth_timer_start(
    s: &mut Timers,
    timer: usize,
    clock: u64,
    interval: u64,
) -> u8
    ensures { Start timer clock interval s.old s.new result }
{
    number(timer_cells::start(s.head, &mut s.cells, timer, clock, interval))
}

// Leaves a deadline at or after `clock` alone; the arguments are tested all the same. Refusal: 1.
#[unsafe(no_mangle)]
pub extern "C" fn girdermoth_timer_restart_if_stale(
    s: &mut Timers,
    timer: usize,
    clock: u64,
    interval: u64,
) -> u8
    ensures { RestartIfStale timer clock interval s.old s.new result }
{
    number(timer_cells::restart_if_stale(s.head, &mut s.cells, timer, clock, interval))
}

// Clears deadline, count and suppression. Refusal: 1.
#[unsafe(no_mangle)]
pub extern "C" fn girdermoth_timer_stop(s: &mut Timers, timer: usize) -> u8
    ensures { Stop timer s.old s.new result }
{
    number(timer_cells::stop(&mut s.cells, timer))
}

// Forgets the expiries counted so far; the deadline stays. Refusal: 1.
#[unsafe(no_mangle)]
pub extern "C" fn girdermoth_timer_reset_retrans(s: &mut Timers, timer: usize) -> u8
    ensures { ResetRetrans timer s.old s.new result }
{
    number(timer_cells::reset_retrans(&mut s.cells, timer))
}

// The next expiry of the timer is not counted. Refusal: 1.
#[unsafe(no_mangle)]
pub extern "C" fn girdermoth_timer_suppress_error_count(s: &mut Timers, timer: usize) -> u8
    ensures { SuppressErrorCount timer s.old s.new result }
{
    number(timer_cells::suppress_error_count(&mut s.cells, timer))
}

// Asking counts: every call at or after the deadline is an expiry of its own, and the deadline stays. Refusals: 1, 12.
#[unsafe(no_mangle)]
pub extern "C" fn girdermoth_timer_is_expired(s: &mut Timers, timer: usize, clock: u64) -> Expired
    ensures { IsExpired timer clock s.old s.new result }
{
    Expired::from(timer_cells::is_expired(&mut s.cells, timer, clock))
}
