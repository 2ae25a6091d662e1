// Slots of eight words (a cache line) in a slice that the caller lends, and small values in a word. Only the crates right above know what
// a slot's words mean: `chunk_slot` a chunk's, and `stream_table::slot` a stream's. What a slice holds is there
// the list `chunks` or `streams` of specs/, for every words at all, and a call reads or changes one element of it. Past the end a load is
// blank and a store nothing, so no call asks anything of its caller.
#![tactic(auto)]

ghost use Rattle.std.specs.Prelude.{◌≡◌, [], ◌∷◌, ◌≤◌};
ghost use Rattle.cells.specs.Slots.{room_of, written};
ghost use Rattle.cells.specs.Words.{bit_of, flags_of, low_of, high_of};

// The most slots that a slice has; `limit` of specs/ is the same number.
const LIMIT: usize = 1_073_741_824;
// What the upper number of a pair counts in its word.
pub const HIGH: u64 = 4_294_967_296;

// How many slots the words make; up to seven words at the end are of no slot.
pub fn room(cells: &[u64]) -> usize
    ensures { result ≡ room_of cells.now }
{
    (cells.len() / 8).min(LIMIT)
}

// The first seven words of slot i become these; the eighth stays.
pub fn write(cells: &mut [u64], i: usize, a: u64, b: u64, c: u64, d: u64, e: u64, f: u64, g: u64)
    ensures { cells.new ≡ written i (a ∷ b ∷ c ∷ d ∷ e ∷ f ∷ g ∷ []) cells.old }
{
    if room(cells) <= i {
        return;
    }
    let at = i * 8;
    cells[at] = a;
    cells[at + 1] = b;
    cells[at + 2] = c;
    cells[at + 3] = d;
    cells[at + 4] = e;
    cells[at + 5] = f;
    cells[at + 6] = g;
}

// A flag in a bit.
pub fn bit(flag: bool) -> u64
    ensures { (result ≡ bit_of flag) × (result ≤ 1) }
{
    flag as u64
}

// Four flags in four bits.
pub fn flags(a: bool, b: bool, c: bool, d: bool) -> u64
    ensures { (result ≡ flags_of a b c d) × (result ≤ 15) }
{
    bit(a) + bit(b) * 2 + bit(c) * 4 + bit(d) * 8
}

// Two numbers of 32 bits in a word.
pub fn pair(low: u32, high: u32) -> u64
    ensures { (low_of result ≡ low) × (high_of result ≡ high) }
{
    low as u64 + high as u64 * HIGH
}
