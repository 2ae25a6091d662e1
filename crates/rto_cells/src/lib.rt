// The round-trip estimator as numbers that the caller lends: three that measurements change, in a head, and four words, the settings and the flag. So head
// and words are, byte for byte, the estimator of include/girdermoth.h. Any numbers mean an estimator (`manager_of` of specs/), and a refusal leaves
// every one. The calls are those of `rto`.
#![tactic(auto)]

ghost use Rattle.std.specs.Prelude.{◌≡◌, true, ◌≤◌, length};
ghost use Rattle.limits.specs.Limits.{setting_max};
ghost use Rattle.rto.specs.Rto.{next_var, four_times, sampled, measured_of};
ghost use Rattle.rto.specs.Told.{told_measured, told_set};
ghost use Rattle.rto.specs.Usual.{Usual, AfterUsual, is_usual};
ghost use Rattle.rto_cells.specs.Words.{manager_in_words, head_of};
ghost use Rattle.rto_cells.specs.Says.{smoothed_in, Creates, Measures, Gets, Resets, Sets};

use limits::Refusal;
use rto::RtoManager;

// How many words there are: the initial RTO, the least, the largest, and whether updates are off, where any word but 0 is yes.
pub const WORDS: usize = 4;

// What measurements change. The RTO does not stand beside the srtt, so that the two are not stored as one pair, which the next measurement would wait for.
#[repr(C)]
#[derive(Clone, Copy)]
pub struct Head {
    pub srtt: u64,
    pub rttvar: f64,
    pub rto: u64,
}

// What C hears of a measurement: the smoothed time, where `yes` is set.
#[repr(C)]
#[derive(Clone, Copy)]
pub struct Smoothed {
    pub value: u64,
    pub refusal: u8,
    pub yes: bool,
}

impl From<Result<u64, Refusal>> for Smoothed {
    ghost from_gives = { λ answer smoothed. smoothed ≡ smoothed_in (told_measured answer) };

    fn from(answer: Result<u64, Refusal>) -> Smoothed {
        match answer {
            Ok(value) => Smoothed {
                value,
                refusal: 0,
                yes: true,
            },
            Err(refusal) => Smoothed {
                value: 0,
                refusal: refusal.number(),
                yes: false,
            },
        }
    }
}

// What C hears of a call that only changes the estimator: a refusal's number, or 0.
pub fn number_of(answer: Result<(), Refusal>) -> u8
    ensures { result ≡ (told_set answer).number }
{
    match answer {
        Ok(()) => 0,
        Err(refusal) => refusal.number(),
    }
}

// ---- packing

// Any other number of words is refused.
fn unpacked(head: &Head, cells: &[u64]) -> Result<RtoManager, Refusal>
    ensures { result ≡ manager_in_words head.now cells.now }
{
    match cells {
        &[rto_initial, rto_min, rto_max, no_update] => Ok(RtoManager {
            srtt: head.srtt,
            rttvar: head.rttvar,
            rto: head.rto,
            no_update: no_update != 0,
            rto_initial,
            rto_min,
            rto_max,
        }),
        _ => Err(Refusal::BeyondLimit),
    }
}

fn packed(manager: &RtoManager) -> Head
    ensures { result ≡ head_of manager.now }
{
    Head {
        srtt: manager.srtt,
        rttvar: manager.rttvar,
        rto: manager.rto,
    }
}

// ---- a measurement
//
// `rto` is the definition, operation by operation. Most measurements find a usual estimator (`is_usual`): updates are on, it has a measurement, srtt is within
// the limit, and rttvar from 1/8 to 2^32. There a quicker way leads to the same numbers, and it stands here; every other measurement is left to `rto`.

fn is_usual(manager: &RtoManager) -> bool
    ensures { result ≡ is_usual manager.now }
{
    !manager.no_update
        && manager.srtt != 0
        && manager.srtt <= limits::SETTING_MAX
        && manager.rttvar >= 0.125
        && manager.rttvar <= 4294967296.0
}

// The float that (6.0 * rttvar + 2.0 * distance) / 8.0 rounds to, by one operation fewer: a multiplication by 8 goes through each rounding.
fn usual_rttvar(rttvar: f64, srtt: u64, rtt: u64) -> f64
    requires fact_1 { Usual rttvar }
    requires fact_2 { srtt ≤ setting_max }
    requires fact_3 { rtt ≤ setting_max }
    ensures { result ≡ next_var rttvar srtt rtt }
{
    0.75 * rttvar + 0.25 * (srtt.abs_diff(rtt) as f64)
}

// The weight of the digit that a float's bits leave out.
const LEADING: u64 = 1 << 52;

// The floor of 4 x rttvar, with nothing left to be tested: the 52 digits that the bits end with, with the leading one put back, shifted down by what the
// exponent above them says.
fn usual_spread(rttvar: f64) -> u64
    requires { AfterUsual rttvar }
    ensures { result ≡ four_times rttvar }
{
    let bits = rttvar.to_bits();
    let exponent = bits / LEADING;
    (bits % LEADING + LEADING) >> (1073 - exponent)
}

// Of an srtt within the limit: 7 * srtt + rtt cannot wrap.
fn usual_sample(manager: &mut RtoManager, rtt: u64)
    requires fact_1 { is_usual manager.old ≡ true }
    requires fact_2 { rtt ≤ setting_max }
    ensures { manager.new ≡ sampled manager.old rtt }
{
    let rttvar = usual_rttvar(manager.rttvar, manager.srtt, rtt);
    let srtt = (7 * manager.srtt + rtt) / 8;
    manager.rto = rto::clamped(manager.rto_min, manager.rto_max, srtt, usual_spread(rttvar));
    manager.srtt = srtt;
    manager.rttvar = rttvar;
}

// The answer of `rto`, by either way. The time is tested before the flag is, so that the flag is not loaded as one pair with the srtt beside it, which the last
// measurement stored alone.
fn measure(manager: &mut RtoManager, rtt: u64) -> Result<u64, Refusal>
    ensures { (result, manager.new) ≡ measured_of manager.old rtt }
{
    if rtt > limits::SETTING_MAX {
        return Err(Refusal::BeyondLimit);
    }
    if is_usual(manager) {
        usual_sample(manager, rtt);
        Ok(manager.srtt)
    } else {
        manager.set_new_rtt(rtt)
    }
}

// ---- the calls

// An estimator without a measurement, whatever the numbers were. The initial RTO is not clamped. Refusals: 1, 2.
pub fn new(
    head: &mut Head,
    cells: &mut [u64],
    initial: u64,
    low: u64,
    high: u64,
) -> Result<(), Refusal>
    ensures { Creates (length cells.old) initial low high head.old cells.old head.new cells.new (told_set result).number }
{
    if cells.len() != WORDS {
        return Err(Refusal::BeyondLimit);
    }
    let manager = RtoManager::new(initial, low, high)?;
    *head = packed(&manager);
    // One by one, and no `copy_from_slice`, which asks first whether the two overlap.
    cells[0] = initial;
    cells[1] = low;
    cells[2] = high;
    cells[3] = 0;
    Ok(())
}

// Takes a measured time, and answers the smoothed one. Refusal: 1.
pub fn set_new_rtt(head: &mut Head, cells: &[u64], rtt: u64) -> Result<u64, Refusal>
    ensures { Measures (length cells.now) rtt head.old cells.now head.new cells.now (smoothed_in (told_measured result)) }
{
    let mut manager = unpacked(head, cells)?;
    let srtt = measure(&mut manager, rtt)?;
    *head = packed(&manager);
    Ok(srtt)
}

// The RTO as it stands.
pub fn get_rto(head: &Head, cells: &[u64]) -> u64
    ensures { Gets head.now cells.now result }
{
    head.rto
}

// Back to no measurement and the initial RTO; nothing changes while updates are off.
pub fn reset(head: &mut Head, cells: &[u64]) -> Result<(), Refusal>
    ensures { Resets (length cells.now) head.old cells.now head.new cells.now (told_set result).number }
{
    let mut manager = unpacked(head, cells)?;
    manager.reset();
    *head = packed(&manager);
    Ok(())
}

// The RTO is kept as it is given, and holds while `no_update` is set. Refusal: 1.
pub fn set_rto(head: &mut Head, cells: &mut [u64], rto: u64, no_update: bool) -> Result<(), Refusal>
    ensures { Sets (length cells.old) rto no_update head.old cells.old head.new cells.new (told_set result).number }
{
    let mut manager = unpacked(head, cells)?;
    manager.set_rto(rto, no_update)?;
    *head = packed(&manager);
    cells[3] = no_update as u64;
    Ok(())
}
