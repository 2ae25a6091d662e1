// A DATA chunk, as RFC 9260, section 3.3.1, lays it out: written of an entry and the caller's bytes, and read.
ghost use Rattle.std.specs.Prelude.{◌≡◌, ◌≤◌};
ghost use Rattle.std.proofs.lemmas.List.Edits.{sets};
ghost use Rattle.model.specs.Data.{padding, data_header, data_laid, read_data};

use limits::Refusal;
use model::{Chunk, DataChunk};

// The chunk type.
const DATA: u8 = 0;
// The bytes before the payload.
const HEADER: usize = 16;

// ---- writing

// How many zeros stand behind a payload.
fn zeros_behind(length: usize) -> usize
    ensures { (result ≡ padding length) × (result ≤ 3) }
{
    (4 - length % 4) % 4
}

fn put_header(out: &mut [u8], tsn: u32, chunk: Chunk)
    ensures { out.new ≡ sets out.old 0 (data_header tsn chunk) }
{
    let flags = super::flags::octet(chunk);
    let length = ((16 + chunk.length as u64) % 65_536) as u16;
    octets::put_byte(out, 0, DATA);
    octets::put_byte(out, 1, flags);
    octets::put_short(out, 2, length);
    octets::put_long(out, 4, tsn);
    octets::put_short(out, 8, chunk.message.stream);
    octets::put_short(out, 10, chunk.message.ssn);
    octets::put_long(out, 12, chunk.message.protocol);
}

// The chunk of an entry, whose payload is copied from the caller's bytes; the bytes behind its padding stay. Refusals: 16, 17.
pub fn write(out: &mut [u8], tsn: u32, chunk: Chunk, bytes: &[u8]) -> Result<usize, Refusal>
    ensures { record { answer = result; out = out.new } ≡ data_laid tsn chunk bytes.now out.old }
{
    let length = chunk.length as usize;
    let rest = bytes
        .get(chunk.offset as usize..)
        .ok_or(Refusal::PayloadOutside)?;
    let payload = rest.get(..length).ok_or(Refusal::PayloadOutside)?;
    let zeros = zeros_behind(length);
    let whole = HEADER + length + zeros;
    if out.len() < whole {
        return Err(Refusal::OutputShort);
    }
    put_header(out, tsn, chunk);
    octets::copy(out, HEADER, payload);
    octets::clear(out, HEADER + length, zeros);
    Ok(whole)
}

// ---- reading

// What the bytes are: a DATA chunk that is whole but for its padding, or no such chunk. Bytes behind it are not looked at.
pub fn read(bytes: &[u8]) -> Option<DataChunk>
    ensures { result ≡ read_data bytes.now }
{
    let length = octets::short(bytes, 2);
    let payload = length.checked_sub(16)?;
    let whole = bytes.len() >= HEADER
        && octets::byte(bytes, 0) == DATA
        && bytes.len() >= length as usize;
    whole.then_some(DataChunk {
        tsn: octets::long(bytes, 4),
        stream: octets::short(bytes, 8),
        ssn: octets::short(bytes, 10),
        flags: octets::byte(bytes, 1),
        protocol: octets::long(bytes, 12),
        length: payload,
    })
}
