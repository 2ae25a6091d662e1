// The whole state of the sender, on a page: its numbers, the streams in the order of opening, both rings front to back, and the flight from its
// oldest entry on.
use lines::{Dashed, Page};
use ring::Ring;
use sender_head::Head;

// The number of the message whose rest is pending.
fn under_way(h: &Head, cells: &[u64]) -> Option<u64> {
    if h.queue.pending.selected == 0 {
        return None;
    }
    sender_asks::peek_pending(h, cells).map(|chunk| chunk.message.number)
}

fn numbers(page: &mut Page<impl Print>, h: &Head, cells: &[u64]) {
    let tsn = sender_asks::next_tsn(h, cells);
    let message = sender_asks::next_message(h);
    print!(page; "sender next_tsn={tsn} next_msg={message}");
    print!(page; " next_unseen={}", h.queue.next_unstarted_message_id);
    print!(page; " underway={} ", Dashed(under_way(h, cells)));
}

fn streams(page: &mut Page<impl Print>, h: &Head, cells: &[u64]) {
    let table = &cells[..sender_head::table_words(cells)];
    for i in 0..stream_table::len(h.streams, table) {
        print!(page; "stream ");
        super::stream(page, stream_table::slot::load(table, i));
    }
}

// The chunks of a ring, front to back. Of the flight the first has the TSN `first`, and each next one more; pending chunks have none.
fn chunks(
    page: &mut Page<impl Print>,
    ring: Ring,
    cells: &[u64],
    label: &str,
    first: u32,
    gap: u32,
) {
    let mut tsn = first;
    for i in 0..ring.count(cells) {
        print!(page; "{label} ");
        super::chunk(page, tsn, ring.nth(cells, i));
        tsn = tsn.wrapping_add(gap);
    }
}

fn rings(page: &mut Page<impl Print>, h: &Head, cells: &[u64]) {
    let rest = &cells[sender_head::table_words(cells)..];
    let k = rest.len() / 24 * 8;
    let pending = h.queue.pending;
    let flight = h.queue.inflight;
    chunks(page, pending.unordered, &rest[..k], "pending-u", 0, 0);
    chunks(page, pending.ordered, &rest[k..k + k], "pending-o", 0, 0);
    chunks(
        page,
        flight.ring,
        &rest[k + k..k + k + k],
        "flight",
        flight.oldest,
        1,
    );
}

pub fn whole(page: &mut Page<impl Print>, h: &Head, cells: &[u64]) {
    numbers(page, h, cells);
    super::sender::counts(page, h, cells);
    streams(page, h, cells);
    rings(page, h, cells);
}
