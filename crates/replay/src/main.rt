// A script of calls from standard input, run on the sender, the timers and the estimator: a line of answers for each, as the Rust's own
// driver writes them. What a line means is `script`'s, what is written `answers`' and its neighbours'.
#![tactic(auto)]

use answers::{arrays, sender, state};
use lines::Page;
use rto::RtoManager;
use script::Line;
use script::commands::Command;
use sender_head::Head;
use std::io::Read;
use timer::TimerTable;

// All that a script's lines change; `lent` bytes of the memory are lent.
#[derive(Drop)]
struct World {
    head: Head,
    cells: [u64; 6656],
    wire: [u8; 65_544],
    memory: [u8; 65_544],
    lent: u64,
    table: TimerTable,
    manager: RtoManager,
}

impl World {
    // What every script finds before its first line.
    fn new() -> World {
        World {
            head: Head::new(0, 0),
            cells: [0; 6656],
            wire: [0; 65_544],
            memory: [0; 65_544],
            lent: 65_536,
            table: TimerTable::new(None, None, 60_000).unwrap(),
            manager: RtoManager::new(3_000, 1_000, 60_000).unwrap(),
        }
    }

    // A line, and its answer. The front of the wire is a SACK; a length beyond the wire's is the wire's.
    fn run(&mut self, page: &mut Page<impl Print>, command: Command) {
        match command {
            Command::Blank => {}
            Command::Bad => println!(page; "bad"),
            Command::Sender { tsn, number } => {
                self.head = Head::new(tsn, number);
                println!(page; "ok");
            }
            Command::Run(call) => {
                let answer = calls::step(&mut self.head, &mut self.cells, call);
                sender::answered(page, call, answer);
            }
            Command::List { clock } => {
                sender::expired_within(page, &self.head, &self.cells, clock, 256);
            }
            Command::ListWithin { clock, room } => {
                sender::expired_within(page, &self.head, &self.cells, clock, room);
            }
            Command::Counts => sender::counts(page, &self.head, &self.cells),
            Command::Stream { identifier } => {
                sender::stream(page, &self.head, &self.cells, identifier);
            }
            Command::SetBuffered { identifier, amount } => {
                sender::set_buffered(page, &self.head, &mut self.cells, identifier, amount);
            }
            Command::Wipe { byte } => arrays::fill(page, &mut self.wire, false, byte),
            Command::Put { at, width, value } => {
                arrays::put(page, &mut self.wire, at, width, value);
            }
            Command::Look { at, count } => arrays::look(page, &self.wire, at, count),
            Command::Sack { length } => {
                let n = arrays::place_in(&self.wire, length);
                let front = &self.wire[..n];
                let answer = sender_calls::flight::sack(&mut self.head, &mut self.cells, front);
                arrays::sacked(page, answer);
            }
            Command::Fill { seed } => arrays::fill(page, &mut self.memory, true, seed),
            Command::Lend { count } => {
                self.lent = count;
                println!(page; "ok");
            }
            Command::Read { at, count } => arrays::look(page, &self.memory, at, count),
            Command::Data { tsn, room } => arrays::data(
                page,
                &self.head,
                &self.cells,
                &mut self.wire,
                &self.memory,
                self.lent,
                tsn,
                room,
            ),
            Command::Clock(call) => clock_calls::clock_call(page, &mut self.table, call),
            Command::Estimate(call) => clock_calls::estimate_call(page, &mut self.manager, call),
            Command::State {
                sender,
                timers,
                rto,
            } => self.show(page, sender, timers, rto),
        }
    }

    fn show(&self, page: &mut Page<impl Print>, sender: bool, timers: bool, rto: bool) {
        if sender {
            state::whole(page, &self.head, &self.cells);
        }
        if timers {
            clock_calls::timers_state(page, &self.table);
        }
        if rto {
            clock_calls::estimate(page, &self.manager);
        }
        println!(page; "end");
    }
}

// One block of the input, byte by byte; a line may go on in the next.
fn block(page: &mut Page<impl Print>, world: &mut World, line: &mut Line, bytes: &[u8]) {
    for byte in bytes {
        if *byte == b'\n' {
            world.run(page, line.finish());
            *line = Line::start();
        } else {
            line.feed(*byte);
        }
    }
}

fn main(rt: HostRuntime) {
    let mut bytes = [0; 65_536];
    let mut page = Page::new(&rt, &mut bytes);
    let mut reader = rt.reader();
    let mut input = [0; 65_536];
    let mut world = World::new();
    let mut line = Line::start();
    // A proved loop has to end, and nothing says that the input does: the blocks are counted, up to a number that no run comes to.
    for _ in 0..u64::MAX {
        let got = reader.read(&mut input).unwrap_or(0);
        if got == 0 {
            break;
        }
        block(&mut page, &mut world, &mut line, &input[..got]);
    }
    // The last line may have no end of its own.
    world.run(&mut page, line.finish());
    page.flush();
}
