// The six timers of an association: deadlines, counts of expiries, and the back-off between them. Times are milliseconds.
// The contracts hold for every table, made by these calls or not; a refused call leaves the table as it was. What holds over any calls stands in
// specs/Claims.antt.
#![tactic(auto)]

ghost use Rattle.std.specs.Prelude.{◌≡◌, ◌≤◌, ◌<◌, cond, eqb};
ghost use Rattle.timer.specs.Entries.{place, timer_at, idle_entry, fails_at};
ghost use Rattle.limits.specs.Limits.{setting_max};
ghost use Rattle.timer.specs.Timers.{backoff};
ghost use Rattle.timer.specs.Calls.{changed, checked, fresh, unmade, made, new_of, created_of, set_of, get_of, next_timeout_of, startable, start_of, restart_if_stale_of, stop_of, reset_retrans_of, suppress_error_count_of, is_expired_of, answer_of, left_of};

use limits::{Moment, Refusal};

pub const TIMER_COUNT: usize = 6;

#[derive(Clone, Copy, Debug, PartialEq, Eq)]
pub enum Timer {
    T1Init,
    T1Cookie,
    T2Shutdown,
    T3RTX,
    Reconfig,
    Ack,
}

// How many expiries a timer may count before one is a failure; with none there is no maximum.
pub type Maximum = Option<u64>;

// One timer. `suppressed` exempts the next expiry from the count.
#[derive(Clone, Copy)]
pub struct Entry {
    pub deadline: Moment,
    pub retrans: u32,
    pub maximum: Maximum,
    pub suppressed: bool,
}

// `rto_max` has 32 bits, so that a deadline fits for every table at all.
#[derive(Clone, Copy)]
pub struct TimerTable {
    pub entries: [Entry; TIMER_COUNT],
    pub rto_max: u32,
}

// What an expiry tells: whether there is one, whether it is a failure, and how many are counted.
#[derive(Clone, Copy, Debug, PartialEq, Eq)]
pub struct Expiry {
    pub expired: bool,
    pub failure: bool,
    pub count: u32,
}

impl Timer {
    pub const VALUES: [Timer; TIMER_COUNT] = [
        Timer::T1Init,
        Timer::T1Cookie,
        Timer::T2Shutdown,
        Timer::T3RTX,
        Timer::Reconfig,
        Timer::Ack,
    ];
    // Where Ack, the one timer with no back-off, stands in VALUES.
    pub const ACK: usize = Timer::Ack as usize;

    pub fn index(self) -> usize
        ensures exact { result ≡ place self }
        ensures below { result < 6 }
    {
        self as usize
    }

    pub fn at(index: usize) -> Option<Timer>
        ensures { result ≡ timer_at index }
    {
        Timer::VALUES.get(index).copied()
    }
}

// Whether this count is a failure.
pub fn exceeded(maximum: Maximum, count: u32) -> bool
    ensures { result ≡ fails_at maximum count }
{
    maximum.is_some_and(|most| most < count as u64)
}

impl Entry {
    // No deadline, nothing counted, nothing suppressed.
    pub fn idle(maximum: Maximum) -> Entry
        ensures { result ≡ idle_entry maximum }
    {
        Entry {
            deadline: None,
            retrans: 0,
            maximum,
            suppressed: false,
        }
    }

    // Asking counts: every call at or after the deadline is an expiry of its own, and the deadline stays. A suppressed expiry ends the suppression, and
    // another is counted.
    pub fn expire(&mut self, clock: u64) -> Result<Expiry, Refusal>
        ensures answer { result ≡ answer_of self.old clock }
        ensures left { self.new ≡ left_of self.old clock }
    {
        if clock > limits::CLOCK_MAX {
            return Err(Refusal::BeyondLimit);
        }
        if !limits::reached(self.deadline, clock) {
            return Ok(Expiry {
                expired: false,
                failure: false,
                count: self.retrans,
            });
        }
        if self.suppressed {
            self.suppressed = false;
            return Ok(Expiry {
                expired: true,
                failure: false,
                count: self.retrans,
            });
        }
        if self.retrans >= limits::COUNT_MAX {
            return Err(Refusal::CountFull);
        }
        self.retrans += 1;
        Ok(Expiry {
            expired: true,
            failure: exceeded(self.maximum, self.retrans),
            count: self.retrans,
        })
    }
}

// Whether a start takes these arguments; a restart asks the same.
pub fn startable(now: u64, interval: u64) -> bool
    ensures { result ≡ startable now interval }
{
    now <= limits::CLOCK_MAX && interval <= limits::SETTING_MAX
}

// The wait before the next expiry: the interval, doubled for each one counted, up to `rto_max`. From 31 counted on it is `rto_max` for every interval,
// even for 0, which doubling leaves 0.
pub fn calculate_next_timeout(rto: u32, n_rtos: u32, rto_max: u32) -> u64
    ensures { result ≡ backoff rto n_rtos rto_max }
{
    let ceiling = rto_max as u64;
    if n_rtos >= 31 {
        return ceiling;
    }
    let mut wait = rto as u64;
    let mut left = n_rtos;
    // Doubling stops once `rto_max` is reached: that is the ceiling, and no wait is longer. So the turns are not counted to an end, and no `for`.
    while wait < ceiling {
        if left == 0 {
            return wait;
        }
        wait += wait;
        left -= 1;
    }
    ceiling
}

// How long the timer at a place waits once it is started, after `count` expiries; short enough that no clock overflows.
pub fn wait(place: usize, interval: u32, count: u32, rto_max: u32) -> u64
    ensures exact { result ≡ cond (eqb place 5) interval (backoff interval count rto_max) }
    ensures short { result ≤ setting_max }
{
    if place == Timer::ACK {
        interval as u64
    } else {
        calculate_next_timeout(interval, count, rto_max)
    }
}

impl TimerTable {
    pub fn new(
        max_init_retransmits: Maximum,
        max_data_retransmits: Maximum,
        rto_max: u64,
    ) -> Result<TimerTable, Refusal>
        ensures created { result ≡ created_of max_init_retransmits max_data_retransmits rto_max }
        ensures beside { made result ≡ new_of max_init_retransmits max_data_retransmits rto_max }
    {
        if rto_max > limits::SETTING_MAX {
            return Err(Refusal::BeyondLimit);
        }
        Ok(TimerTable::fresh(max_init_retransmits, max_data_retransmits, rto_max as u32))
    }

    // The table beside a refused creation, for a caller that has to have one: no deadline, no maximum, `rto_max` 0.
    pub fn unmade() -> TimerTable
        ensures { result ≡ unmade }
    {
        TimerTable::fresh(None, None, 0)
    }

    pub fn set(&mut self, timer: Timer, time: Moment) -> Result<(), Refusal>
        ensures { changed result self.new ≡ set_of self.old timer time }
    {
        if limits::beyond(time, limits::CLOCK_MAX) {
            return Err(Refusal::BeyondLimit);
        }
        self.entries[timer.index()].deadline = time;
        Ok(())
    }

    pub fn get(&self, timer: Timer) -> Moment
        ensures { result ≡ get_of self.now timer }
    {
        self.entries[timer.index()].deadline
    }

    // The smallest deadline of the six, if any has one.
    pub fn next_timeout(&self) -> Moment
        ensures { result ≡ next_timeout_of self.now }
    {
        Timer::VALUES
            .iter()
            .map(|timer| self.get(*timer))
            .fold(None, limits::earlier)
    }

    pub fn start(&mut self, timer: Timer, now: u64, interval: u64) -> Result<(), Refusal>
        ensures { changed result self.new ≡ start_of self.old timer now interval }
    {
        if !startable(now, interval) {
            return Err(Refusal::BeyondLimit);
        }
        let place = timer.index();
        let count = self.entries[place].retrans;
        let time = now + wait(place, interval as u32, count, self.rto_max);
        self.entries[place].deadline = Some(time);
        Ok(())
    }

    // Leaves a deadline at or after `now` alone; the arguments are tested all the same.
    pub fn restart_if_stale(&mut self, timer: Timer, now: u64, interval: u64) -> Result<(), Refusal>
        ensures { changed result self.new ≡ restart_if_stale_of self.old timer now interval }
    {
        if startable(now, interval) && limits::ahead(self.get(timer), now) {
            return Ok(());
        }
        self.start(timer, now, interval)
    }

    pub fn stop(&mut self, timer: Timer)
        ensures { self.new ≡ stop_of self.old timer }
    {
        let entry = &mut self.entries[timer.index()];
        *entry = Entry::idle(entry.maximum);
    }

    // Forgets the expiries counted so far; the deadline stays.
    pub fn reset_retrans(&mut self, timer: Timer)
        ensures { self.new ≡ reset_retrans_of self.old timer }
    {
        self.entries[timer.index()].retrans = 0;
    }

    // The next expiry of `timer` is not counted.
    pub fn suppress_error_count(&mut self, timer: Timer)
        ensures { self.new ≡ suppress_error_count_of self.old timer }
    {
        self.entries[timer.index()].suppressed = true;
    }

    // Asking counts: every call at or after the deadline is an expiry of its own, and the deadline stays.
    pub fn is_expired(&mut self, timer: Timer, after: u64) -> Result<Expiry, Refusal>
        ensures { checked result self.new ≡ is_expired_of self.old timer after }
    {
        self.entries[timer.index()].expire(after)
    }

    fn fresh(max_init: Maximum, max_data: Maximum, rto_max: u32) -> TimerTable
        ensures { result ≡ fresh max_init max_data rto_max }
    {
        let init = Entry::idle(max_init);
        let data = Entry::idle(max_data);
        let unlimited = Entry::idle(None);
        TimerTable {
            entries: [init, init, unlimited, data, init, unlimited],
            rto_max,
        }
    }
}
