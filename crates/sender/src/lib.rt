// 01's sender as one value. Here are the sender, a new one, and the calls on streams; `messages`, `flight`, `questions` and `stream_questions`
// have the rest. Each call lends the sender's head and cells to the function that holds the logic, and equals 01's call of every sender; a
// refusal leaves the sender, word for word.
#![tactic(auto)]

pub mod flight;
pub mod messages;
pub mod questions;
pub mod stream_questions;

ghost use Rattle.std.specs.Prelude.{◌≡◌};
ghost use Rattle.limits.specs.Limits.{room01};
ghost use Rattle.model.specs.State.{fresh};
ghost use Rattle.model.specs.Streams.{open_stream, set_reliability, set_low, set_high, release};
ghost use Rattle.model.specs.Told.{told_done, told_released};
ghost use Rattle.sender.specs.Value.{state_of, Sums, GoesOrStays};

use limits::Refusal;
use sender_head::Head;

// 64 streams, and 256 slots in each ring and in the flight.
#[derive(Clone, Copy)]
pub struct Sender {
    pub head: Head,
    pub cells: [u64; 6656],
}

impl Sender {
    // The first chunk takes the TSN `tsn`, the first message the number `number`.
    pub fn new(tsn: u32, number: u64) -> Self
        ensures { (state_of result ≡ fresh tsn number) × Sums result }
    {
        Sender {
            head: Head::new(tsn, number),
            cells: [0; 6656],
        }
    }

    // A new stream: ordered, Reliable, and never high. Refusals: 2, 4, 5.
    pub fn open_stream(&mut self, identifier: u16, maximum: u32) -> Result<(), Refusal>
        ensures { GoesOrStays told_done (open_stream room01 identifier maximum) self.old self.new result }
    {
        sender_streams::open_stream(&mut self.head, &mut self.cells, identifier, maximum)
    }

    // How messages that are written from now on are delivered. Refusal: 3.
    pub fn set_reliability(
        &mut self,
        identifier: u16,
        unordered: bool,
        kind: u8,
        value: u32,
    ) -> Result<(), Refusal>
        ensures { GoesOrStays told_done (set_reliability identifier unordered kind value) self.old self.new result }
    {
        sender_streams::set_reliability(
            &self.head,
            &mut self.cells,
            identifier,
            unordered,
            kind,
            value,
        )
    }

    // Refusal: 3.
    pub fn set_low_threshold(&mut self, identifier: u16, low: u64) -> Result<(), Refusal>
        ensures { GoesOrStays told_done (set_low identifier low) self.old self.new result }
    {
        sender_streams::set_low_threshold(&self.head, &mut self.cells, identifier, low)
    }

    // Refusal: 3.
    pub fn set_high_threshold(&mut self, identifier: u16, high: u64) -> Result<(), Refusal>
        ensures { GoesOrStays told_done (set_high identifier high) self.old self.new result }
    {
        sender_streams::set_high_threshold(&self.head, &mut self.cells, identifier, high)
    }

    // Bytes of a stream have left the sender. The answer tells whether the amount fell to the low threshold. Refusal: 3.
    pub fn release(&mut self, identifier: u16, released: i64) -> Result<bool, Refusal>
        ensures { GoesOrStays told_released (release identifier released) self.old self.new result }
    {
        sender_streams::release(&self.head, &mut self.cells, identifier, released)
    }
}
