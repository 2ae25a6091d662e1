// The round-trip estimator of document 01, "Leaves first" (RFC 4960, section 6.3.1).
// Every call is total: a record that no call makes, with a NaN or a minimum above the maximum, gets an answer too.
// What holds over any calls stands in specs/.
#![tactic(auto)]

ghost use Rattle.std.specs.Prelude.{◌≡◌, ◌+◌, ◌≤◌, cond, Ok, Err};
ghost use Rattle.std.specs.Float.{binary64};
ghost use Rattle.std.specs.Float.Ieee.{add, mul, div};
ghost use Rattle.limits.specs.Limits.{setting_max};
ghost use Rattle.limits.specs.declared.Refusal.TheVariants.{BeyondLimit};
ghost use Rattle.rto.specs.Rto.{f64, beyond, first_var, next_var, next_srtt, four_times, clamp, settled, sampled, new_of, measured_of, get_of, reset_of, set_of};

use limits::Refusal;

// srtt 0 means that the next measurement counts as the first.
#[derive(Clone, Copy)]
pub struct RtoManager {
    pub srtt: u64,
    pub rttvar: f64,
    pub rto: u64,
    pub no_update: bool,
    pub rto_initial: u64,
    pub rto_min: u64,
    pub rto_max: u64,
}

fn first_var(rtt: u64) -> f64
    ensures { result ≡ first_var rtt }
{
    std::num::nearest_u64_to_f64(rtt) / 2.0
}

// In this order and no other: each operation rounds.
fn smoothed(rttvar: f64, distance: f64) -> f64
    ensures { result ≡ div binary64 (add binary64 (mul binary64 (f64 6) rttvar) (mul binary64 (f64 2) distance)) (f64 8) }
{
    (6.0 * rttvar + 2.0 * distance) / 8.0
}

// Of an srtt within the limit: the distance is a float as it is, and one step casts it.
fn next_var(rttvar: f64, srtt: u64, rtt: u64) -> f64
    requires fact_1 { srtt ≤ setting_max }
    requires fact_2 { rtt ≤ setting_max }
    ensures { result ≡ next_var rttvar srtt rtt }
{
    smoothed(rttvar, srtt.abs_diff(rtt) as f64)
}

// Of any srtt: the distance is rounded to a float.
fn any_next_var(rttvar: f64, srtt: u64, rtt: u64) -> f64
    ensures { result ≡ next_var rttvar srtt rtt }
{
    smoothed(rttvar, std::num::nearest_u64_to_f64(srtt.abs_diff(rtt)))
}

// Of an srtt within the limit: nothing wraps.
fn next_srtt(srtt: u64, rtt: u64) -> u64
    requires { (srtt ≤ setting_max) × (rtt ≤ setting_max) }
    ensures { result ≡ next_srtt srtt rtt }
{
    (7 * srtt + rtt) / 8
}

// Of any srtt: the quotient of 7 * srtt + rtt by 8, in a form that wraps at none.
fn any_next_srtt(srtt: u64, rtt: u64) -> u64
    requires { rtt ≤ setting_max }
    ensures { result ≡ next_srtt srtt rtt }
{
    7 * (srtt / 8) + (7 * (srtt % 8) + rtt) / 8
}

fn four_times(rttvar: f64) -> u64
    ensures { result ≡ four_times rttvar }
{
    std::num::saturating_f64_to_u64(4.0 * rttvar)
}

// A sum that saturates is above the maximum, or is the maximum.
pub fn clamped(low: u64, high: u64, srtt: u64, spread: u64) -> u64
    ensures { result ≡ clamp low high (srtt + spread) }
{
    srtt.saturating_add(spread).min(high).max(low)
}

// Settings and measured times are within one limit.
fn within_limit(time: u64) -> Result<(), Refusal>
    ensures { result ≡ cond (beyond time) (Err BeyondLimit) (Ok (record {})) }
{
    if time > limits::SETTING_MAX {
        Err(Refusal::BeyondLimit)
    } else {
        Ok(())
    }
}

impl RtoManager {
    // The initial RTO is not clamped.
    pub fn new(rto_initial: u64, rto_min: u64, rto_max: u64) -> Result<RtoManager, Refusal>
        ensures { result ≡ new_of rto_initial rto_min rto_max }
    {
        within_limit(rto_initial)?;
        within_limit(rto_min)?;
        within_limit(rto_max)?;
        if rto_min > rto_max {
            return Err(Refusal::BadBounds);
        }
        Ok(RtoManager {
            srtt: 0,
            rttvar: 0.0,
            rto: rto_initial,
            no_update: false,
            rto_initial,
            rto_min,
            rto_max,
        })
    }

    // With the RTO that srtt and rttvar give.
    fn settled(self, srtt: u64, rttvar: f64) -> RtoManager
        ensures { result ≡ settled self srtt rttvar }
    {
        RtoManager {
            srtt,
            rttvar,
            rto: clamped(self.rto_min, self.rto_max, srtt, four_times(rttvar)),
            ..self
        }
    }

    // After a measurement that is taken.
    fn sampled(self, rtt: u64) -> RtoManager
        requires { rtt ≤ setting_max }
        ensures { result ≡ sampled self rtt }
    {
        if self.srtt == 0 {
            self.settled(rtt, first_var(rtt))
        } else if self.srtt > limits::SETTING_MAX {
            // No call makes such an srtt (`InRange`). One test for srtt and rttvar, so that the compiler has one branch.
            self.settled(
                any_next_srtt(self.srtt, rtt),
                any_next_var(self.rttvar, self.srtt, rtt),
            )
        } else {
            let srtt = next_srtt(self.srtt, rtt);
            // With the srtt that was, not the new one.
            let rttvar = next_var(self.rttvar, self.srtt, rtt);
            self.settled(srtt, rttvar)
        }
    }

    // The answer is srtt. While no_update holds, it is the old one, and nothing changes.
    pub fn set_new_rtt(&mut self, rtt: u64) -> Result<u64, Refusal>
        ensures { (result, self.new) ≡ measured_of self.old rtt }
    {
        within_limit(rtt)?;
        if !self.no_update {
            *self = self.sampled(rtt);
        }
        Ok(self.srtt)
    }

    pub fn get_rto(&self) -> u64
        ensures { result ≡ get_of self.now }
    {
        self.rto
    }

    pub fn reset(&mut self)
        ensures { self.new ≡ reset_of self.old }
    {
        if !self.no_update {
            self.srtt = 0;
            self.rttvar = 0.0;
            self.rto = self.rto_initial;
        }
    }

    // Works while no_update holds too, and can lift it; the RTO is not clamped.
    pub fn set_rto(&mut self, rto: u64, no_update: bool) -> Result<(), Refusal>
        ensures { (result, self.new) ≡ set_of self.old rto no_update }
    {
        within_limit(rto)?;
        self.rto = rto;
        self.no_update = no_update;
        Ok(())
    }
}
