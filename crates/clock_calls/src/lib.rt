// The calls of the timers and of the estimator in a script: as values, made, and answered by lines on a page.
#![tactic(auto)]

use limits::{Moment, Refusal};
use lines::{Dashed, Page};
use rto::RtoManager;
use timer::{Expiry, Maximum, Timer, TimerTable};

// The calls of the timers; `SetCount` is the script's own.
#[derive(Clone, Copy)]
pub enum TimerCall {
    Make {
        init: Maximum,
        data: Maximum,
        longest: u64,
    },
    Set {
        timer: Timer,
        time: Moment,
    },
    Get {
        timer: Timer,
    },
    NextTimeout,
    Start {
        timer: Timer,
        clock: u64,
        interval: u64,
    },
    Restart {
        timer: Timer,
        clock: u64,
        interval: u64,
    },
    Stop {
        timer: Timer,
    },
    Reset {
        timer: Timer,
    },
    Suppress {
        timer: Timer,
    },
    IsExpired {
        timer: Timer,
        clock: u64,
    },
    SetCount {
        timer: Timer,
        count: u32,
    },
}

// The calls of the estimator.
#[derive(Clone, Copy)]
pub enum RtoCall {
    Make { initial: u64, least: u64, most: u64 },
    Measure { rtt: u64 },
    Reset,
    Set { rto: u64, kept: bool },
    Get,
}

fn refused(page: &mut Page<impl Print>, refusal: Refusal) {
    println!(page; "R {}", refusal.number());
}

fn done(page: &mut Page<impl Print>, answer: Result<(), Refusal>) {
    match answer {
        Ok(()) => println!(page; "ok"),
        Err(refusal) => refused(page, refusal),
    }
}

// ---- the timers

// The calls that answer no more than that they are done. A refusal leaves the table that was; `SetCount` pokes the count alone.
fn change(table: &mut TimerTable, call: TimerCall) -> Result<(), Refusal> {
    match call {
        TimerCall::Make {
            init,
            data,
            longest,
        } => *table = TimerTable::new(init, data, longest)?,
        TimerCall::Set { timer, time } => table.set(timer, time)?,
        TimerCall::Start {
            timer,
            clock,
            interval,
        } => table.start(timer, clock, interval)?,
        TimerCall::Restart {
            timer,
            clock,
            interval,
        } => table.restart_if_stale(timer, clock, interval)?,
        TimerCall::Stop { timer } => table.stop(timer),
        TimerCall::Reset { timer } => table.reset_retrans(timer),
        TimerCall::Suppress { timer } => table.suppress_error_count(timer),
        TimerCall::SetCount { timer, count } => table.entries[timer.index()].retrans = count,
        TimerCall::Get { .. } | TimerCall::NextTimeout | TimerCall::IsExpired { .. } => {}
    }
    Ok(())
}

pub fn clock_call(page: &mut Page<impl Print>, table: &mut TimerTable, call: TimerCall) {
    match call {
        TimerCall::Get { timer } => println!(page; "{}", Dashed(table.get(timer))),
        TimerCall::NextTimeout => println!(page; "{}", Dashed(table.next_timeout())),
        TimerCall::IsExpired { timer, clock } => match table.is_expired(timer, clock) {
            Ok(
                Expiry {
                    expired,
                    failure,
                    count,
                },
            ) => {
                println!(page;
                    "expired={} failure={} count={count}",
                    expired as u8, failure as u8
                )
            }
            Err(refusal) => refused(page, refusal),
        },
        _ => done(page, change(table, call)),
    }
}

// ---- the estimator

// The calls that answer no more than that they are done. A refusal leaves the estimator that was.
fn adjust(manager: &mut RtoManager, call: RtoCall) -> Result<(), Refusal> {
    match call {
        RtoCall::Make {
            initial,
            least,
            most,
        } => *manager = RtoManager::new(initial, least, most)?,
        RtoCall::Reset => manager.reset(),
        RtoCall::Set { rto, kept } => manager.set_rto(rto, kept)?,
        RtoCall::Measure { .. } | RtoCall::Get => {}
    }
    Ok(())
}

pub fn estimate_call(page: &mut Page<impl Print>, manager: &mut RtoManager, call: RtoCall) {
    match call {
        RtoCall::Get => estimate(page, manager),
        RtoCall::Measure { rtt } => match manager.set_new_rtt(rtt) {
            Ok(srtt) => println!(page; "srtt={srtt}"),
            Err(refusal) => refused(page, refusal),
        },
        _ => done(page, adjust(manager, call)),
    }
}

// ---- the whole state

pub fn timers_state(page: &mut Page<impl Print>, table: &TimerTable) {
    println!(page; "timers rto_max={}", table.rto_max);
    for timer in Timer::VALUES {
        let entry = table.entries[timer.index()];
        print!(page;
            "timer {} {timer:?} deadline={}",
            timer.index(),
            Dashed(entry.deadline)
        );
        print!(page; " count={} max={}", entry.retrans, Dashed(entry.maximum));
        println!(page; " suppressed={}", entry.suppressed as u8);
    }
}

// The bits of a float; the estimator's spread is never a NaN, which has none.
fn bits(value: f64) -> u64 {
    if value.is_nan() { 0 } else { value.to_bits() }
}

pub fn estimate(page: &mut Page<impl Print>, manager: &RtoManager) {
    print!(page; "rto={} srtt={}", manager.rto, manager.srtt);
    print!(page;
        " rttvar={:016x} no_update={}",
        bits(manager.rttvar),
        manager.no_update as u8
    );
    print!(page; " initial={} min={}", manager.rto_initial, manager.rto_min);
    println!(page; " max={}", manager.rto_max);
}
