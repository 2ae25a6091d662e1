// Numbers of 16 and 32 bits in bytes, the highest first, as the chunks of RFC 9260 have them. A byte past the end reads as 0 and is not
// written, so no call asks anything of its caller.
#![tactic(auto)]

ghost use Rattle.std.specs.Prelude.{◌≡◌, ℕ, [], ◌∷◌, ◌+◌, ◌<◌, length, slice_index};
ghost use Rattle.std.proofs.lemmas.List.Edits.{sets};
ghost use Rattle.octets.specs.Numbers.{byte_at, short_at, long_at, short_bytes, long_bytes, zeros};

use std::array;

// ---- reading

pub fn byte(bytes: &[u8], at: usize) -> u8
    ensures { result ≡ byte_at at bytes.now }
{
    bytes.get(at).copied().unwrap_or(0)
}

// So many bytes from `at` on.
fn part<const N: usize>(bytes: &[u8], at: usize) -> [u8; N]
    ensures { (k : ℕ) → k < N → slice_index result k ≡ byte_at (at + k) bytes.now }
{
    let rest = &bytes[at.min(bytes.len())..];
    array::from_fn(|k| byte(rest, k))
}

pub fn short(bytes: &[u8], at: usize) -> u16
    ensures { result ≡ short_at at bytes.now }
{
    u16::from_be_bytes(part(bytes, at))
}

pub fn long(bytes: &[u8], at: usize) -> u32
    ensures { result ≡ long_at at bytes.now }
{
    u32::from_be_bytes(part(bytes, at))
}

// ---- writing. `at` is the place of a field in a chunk's layout, and no length of what stands in the bytes

pub fn put_byte(out: &mut [u8], at: usize, number: u8)
    ensures { out.new ≡ sets out.old at (number ∷ []) }
{
    copy(out, at, &[number]);
}

pub fn put_short(out: &mut [u8], at: usize, number: u16)
    ensures { out.new ≡ sets out.old at (short_bytes number) }
{
    copy(out, at, &number.to_be_bytes());
}

pub fn put_long(out: &mut [u8], at: usize, number: u32)
    ensures { out.new ≡ sets out.old at (long_bytes number) }
{
    copy(out, at, &number.to_be_bytes());
}

// ---- runs of bytes

// A byte at a time, and no `copy_from_slice`: that calls `memmove`, and the archives for C would need it from outside.
fn overwrite(out: &mut [u8], from: &[u8])
    requires { length out.old ≡ length from.now }
    ensures { out.new ≡ from.now }
{
    for i in 0..out.len() {
        out[i] = from[i];
    }
}

// All bytes of a slice.
pub fn copy(out: &mut [u8], at: usize, from: &[u8])
    ensures { out.new ≡ sets out.old at from.now }
{
    let start = at.min(out.len());
    let count = from.len().min(out.len() - start);
    overwrite(&mut out[start..start + count], &from[..count]);
}

// So many zeros.
pub fn clear(out: &mut [u8], at: usize, count: usize)
    ensures { out.new ≡ sets out.old at (zeros count) }
{
    let start = at.min(out.len());
    let end = start + count.min(out.len() - start);
    out[start..end].fill(0);
}
