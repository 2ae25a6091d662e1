// The chunks that a host puts on the wire, of what is in flight, in bytes that it lends. Nothing of the sender changes, and a refusal leaves the
// output.
ghost use Rattle.std.specs.Prelude.{◌≡◌};
ghost use Rattle.model.specs.Data.{data_chunk};
ghost use Rattle.sender_head.specs.Whole.{sender_of};

use limits::Refusal;
use sender_head::Head;

// The DATA chunk of a TSN that is neither acknowledged nor abandoned, its payload copied from the caller's bytes. Refusals: 15, 16, 17.
pub fn data_chunk(
    h: &Head,
    cells: &[u64],
    bytes: &[u8],
    out: &mut [u8],
    tsn: u32,
) -> Result<usize, Refusal>
    ensures { record { answer = result; out = out.new } ≡ data_chunk tsn bytes.now out.old (sender_of h.now cells.now) }
{
    let entry = super::get(h, cells, tsn);
    let Some(chunk) = entry else {
        return Err(Refusal::NoEntry);
    };
    if !payload_queue::asks::is_outstanding(chunk) {
        return Err(Refusal::NoEntry);
    }
    wire::data::write(out, tsn, chunk, bytes)
}
