// What is asked of the two rings of pending chunks: nothing changes.
ghost use Rattle.std.specs.Prelude.{◌≡◌, ◌+◌, ◌++◌, length};
ghost use Rattle.model.specs.Flight.{has_stream};
ghost use Rattle.ring.specs.Held.{held};

use super::PendingQueue;

impl PendingQueue {
    pub fn len(&self, unordered: &[u64], ordered: &[u64]) -> usize
        ensures { result ≡ length (held self.now.unordered unordered.now) + length (held self.now.ordered ordered.now) }
    {
        self.unordered.count(unordered) + self.ordered.count(ordered)
    }

    // The kept sum of all bytes.
    pub fn bytes(&self) -> u64
        ensures { result ≡ self.now.bytes }
    {
        self.bytes
    }

    pub fn contains_stream(&self, unordered: &[u64], ordered: &[u64], stream: u16) -> bool
        ensures { result ≡ has_stream stream (held self.now.unordered unordered.now ++ held self.now.ordered ordered.now) }
    {
        self.unordered.has_stream(unordered, stream) || self.ordered.has_stream(ordered, stream)
    }
}
