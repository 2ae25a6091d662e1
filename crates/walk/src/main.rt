// 01's walk: a message is cut off halfway, and its terminator takes the TSN 0. It writes a line for each TSN as it is assigned; any answer
// that the paper does not expect is a line more, so that the file stdout no longer holds. Each line goes out at once.
#![tactic(auto)]

use limits::Refusal;
use lines::Page;
use model::Chunk;
use sender::Sender;

// What the abandoned message held, sent or not.
const RELEASED: u64 = 2500;

fn row(page: &mut Page<impl Print>, tsn: u32, chunk: Chunk) {
    let message = chunk.message;
    let flags = wire::flags::octet(chunk);
    println!(page;
        "{tsn} {} {} {flags} {}",
        message.stream, message.ssn, chunk.length
    );
    page.flush();
}

// What was answered, unless it is a refusal.
fn taken<T>(page: &mut Page<impl Print>, answer: Result<T, Refusal>) -> Option<T> {
    match answer {
        Ok(value) => Some(value),
        Err(refusal) => {
            println!(page; "refusal {}", refusal.number());
            page.flush();
            None
        }
    }
}

// A stream of reliable messages.
fn open(page: &mut Page<impl Print>, sender: &mut Sender, identifier: u16, unordered: bool) {
    let opened = sender.open_stream(identifier, 1200);
    taken(page, opened);
    let set = sender.set_reliability(identifier, unordered, 0, 0);
    taken(page, set);
}

fn write(page: &mut Page<impl Print>, sender: &mut Sender, identifier: u16, length: u64) {
    let written = sender.write(identifier, 53, 0, length);
    taken(page, written);
}

fn send(page: &mut Page<impl Print>, sender: &mut Sender) {
    let sent = sender.send(0);
    if let Some(Some((tsn, chunk))) = taken(page, sent) {
        row(page, tsn, chunk);
    }
}

// The terminator takes the TSN that was next.
fn abandon(page: &mut Page<impl Print>, sender: &mut Sender, tsn: u32) {
    let next = sender.next_tsn();
    match sender.abandon(tsn) {
        Some(message) if message.bytes == RELEASED => {}
        Some(message) => {
            println!(page; "released {}", message.bytes);
            page.flush();
        }
        None => {
            println!(page; "nothing abandoned");
            page.flush();
        }
    }
    match sender.get(next) {
        Some(terminator) => row(page, next, terminator),
        None => {
            println!(page; "no terminator");
            page.flush();
        }
    }
}

fn main(rt: HostRuntime) {
    let mut bytes = [0; 4096];
    let mut page = Page::new(&rt, &mut bytes);
    println!(page; "tsn stream ssn flags length");
    page.flush();
    let mut sender = Sender::new(4294967294, 0);
    open(&mut page, &mut sender, 1, false);
    open(&mut page, &mut sender, 2, true);
    write(&mut page, &mut sender, 1, 2500);
    send(&mut page, &mut sender);
    write(&mut page, &mut sender, 2, 50);
    send(&mut page, &mut sender);
    abandon(&mut page, &mut sender, 4294967294);
    send(&mut page, &mut sender);
    send(&mut page, &mut sender);
}
