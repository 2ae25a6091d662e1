// The script's arrays of bytes, which outlast its lines: the wire, from whose front a SACK is read and into which chunks are written, and the memory,
// which has their payload. Lines fill them and show them.
ghost use Rattle.std.specs.Prelude.{◌≡◌, ◌+◌, ◌<◌, min, length, slice_set};
ghost use Rattle.std.proofs.lemmas.List.Edits.{sets};
ghost use Rattle.sender_head.specs.Whole.{sender_of};
ghost use Rattle.answers.specs.Arrays.{byte_for, filled, last_bytes, data_in};

use limits::Refusal;
use lines::Page;
use sender_head::Head;

// ---- what fills them

// The byte of a place: by the rule, or the seed itself.
fn byte_for(ruled: bool, seed: u8, i: usize) -> u8
    ensures { result ≡ byte_for ruled seed i }
{
    if ruled {
        ((seed as usize + i % 256 + i / 256 % 256) % 256) as u8
    } else {
        seed
    }
}

// Every byte.
pub fn fill(page: &mut Page<impl Print>, bytes: &mut [u8], ruled: bool, seed: u8)
    ensures { bytes.new ≡ filled ruled seed (length bytes.old) }
{
    for (i, byte) in bytes.iter_mut().enumerate() {
        *byte = byte_for(ruled, seed, i);
    }
    println!(page; "ok");
}

// What is behind the end is left out.
fn put_byte(bytes: &mut [u8], from: u64, i: u64, byte: u8)
    ensures { bytes.new ≡ slice_set bytes.old (from + i) byte }
{
    let n = bytes.len() as u64;
    if i < n.saturating_sub(from) {
        bytes[(from + i) as usize] = byte;
    }
}

// The last bytes of a number, most significant first.
pub fn put(page: &mut Page<impl Print>, bytes: &mut [u8], from: u64, width: u64, value: u64)
    ensures { bytes.new ≡ sets bytes.old from (last_bytes width value) }
{
    let mut rest = value;
    for i in (0..width).rev() {
        put_byte(bytes, from, i, (rest % 256) as u8);
        rest /= 256;
    }
    println!(page; "ok");
}

// ---- what shows them

fn digit(half: u8) -> u8
    requires { half < 16 }
{
    match half {
        0..=9 => b'0' + half,
        _ => b'a' - 10 + half,
    }
}

// Two digits a byte, and a dash where there is none. Not by `{byte:02x}`, which took four times as long where all of the wire is shown.
fn hexadecimal(page: &mut Page<impl Print>, bytes: &[u8]) {
    if bytes.is_empty() {
        print!(page; "-");
    }
    for byte in bytes {
        page.write_bytes(&[digit(*byte / 16), digit(*byte % 16)]);
    }
    println!(page; "");
}

// A place within an array; one beyond its end is its end.
pub fn place_in(bytes: &[u8], wanted: u64) -> usize
    ensures { result ≡ min wanted (length bytes.now) }
{
    wanted.min(bytes.len() as u64) as usize
}

// So many bytes from a place on, as many as there are.
pub fn look(page: &mut Page<impl Print>, bytes: &[u8], from: u64, count: u64) {
    let rest = &bytes[place_in(bytes, from)..];
    hexadecimal(page, &rest[..place_in(rest, count)]);
}

// ---- a SACK

pub fn sacked(page: &mut Page<impl Print>, answer: Result<Option<u64>, Refusal>) {
    match answer {
        Ok(Some(bytes)) => println!(page; "bytes={bytes}"),
        Ok(None) => println!(page; "stale"),
        Err(refusal) => println!(page; "R {}", refusal.number()),
    }
}

// ---- a chunk that is written

// How many bytes were written; these, and up to eight behind them, which must have stayed.
fn laid_out(page: &mut Page<impl Print>, bytes: &[u8], answer: Result<usize, Refusal>) {
    match answer {
        Ok(count) => {
            print!(page; "n={count} ");
            look(page, bytes, 0, place_in(bytes, count as u64) as u64 + 8);
        }
        Err(refusal) => println!(page; "R {}", refusal.number()),
    }
}

// The DATA chunk of a TSN, in the first `room` bytes of the wire; its payload is in the first `lent` of the memory.
pub fn data(
    page: &mut Page<impl Print>,
    h: &Head,
    cells: &[u64],
    wire: &mut [u8],
    memory: &[u8],
    lent: u64,
    tsn: u32,
    room: u64,
)
    ensures { wire.new ≡ data_in tsn lent room memory.now wire.old (sender_of h.now cells.now) }
{
    let k = place_in(memory, lent);
    let n = place_in(wire, room);
    let answer = sender_asks::chunks::data_chunk(h, cells, &memory[0..k], &mut wire[0..n], tsn);
    laid_out(page, &wire[0..n], answer);
}
