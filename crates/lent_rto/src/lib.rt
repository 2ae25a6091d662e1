// The round-trip estimator as a host holds it: one struct, and thin functions over a reference to it. Each lends head and words to a function of
// `rto_cells`. A host that hands over any bytes at all is safe: each bit pattern of the struct is an estimator. A
// refused call leaves every number, creation too. A call that only changes the estimator answers a refusal's number, or 0.
#![tactic(auto)]

ghost use Rattle.lent_rto.specs.Says.{New, SetNewRtt, GetRto, Reset, SetRto};

use rto_cells::{Head, Smoothed};

// Byte for byte the `girdermoth_rto` of include/girdermoth.h: the settings and the flag, and then what measurements change.
#[repr(C)]
#[derive(Drop)]
pub struct Rto {
    pub cells: [u64; 4],
    pub head: Head,
}

// An estimator without a measurement, whatever the bytes were. The initial RTO is not clamped. Refusals: 1, 2.
#[unsafe(no_mangle)]
pub extern "C" fn girdermoth_rto_new(s: &mut Rto, initial: u64, low: u64, high: u64) -> u8
    ensures { New initial low high s.old s.new result }
{
    rto_cells::number_of(rto_cells::new(&mut s.head, &mut s.cells, initial, low, high))
}

// Takes a measured time; the value is the smoothed one. Refusal: 1.
#[unsafe(no_mangle)]
pub extern "C" fn girdermoth_rto_set_new_rtt(s: &mut Rto, rtt: u64) -> Smoothed
    ensures { SetNewRtt rtt s.old s.new result }
{
    rto_cells::set_new_rtt(&mut s.head, &s.cells, rtt).into()
}

// The RTO as it stands.
#[unsafe(no_mangle)]
pub extern "C" fn girdermoth_rto_get_rto(s: &Rto) -> u64
    ensures { GetRto s.now result }
{
    rto_cells::get_rto(&s.head, &s.cells)
}

// Back to no measurement and the initial RTO; nothing changes while updates are off. Never refused.
#[unsafe(no_mangle)]
pub extern "C" fn girdermoth_rto_reset(s: &mut Rto) -> u8
    ensures { Reset s.old s.new result }
{
    rto_cells::number_of(rto_cells::reset(&mut s.head, &s.cells))
}

// The RTO is kept as it is given, and holds while `no_update` is set. Refusal: 1.
#[unsafe(no_mangle)]
pub extern "C" fn girdermoth_rto_set_rto(s: &mut Rto, rto: u64, no_update: bool) -> u8
    ensures { SetRto rto no_update s.old s.new result }
{
    rto_cells::number_of(rto_cells::set_rto(&mut s.head, &mut s.cells, rto, no_update))
}
