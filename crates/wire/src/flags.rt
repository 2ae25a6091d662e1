// The flags octet of a chunk, as RFC 9260 writes it: every program that shows it, and every chunk that is laid out in bytes, takes it from here.
ghost use Rattle.std.specs.Prelude.{◌≡◌};
ghost use Rattle.model.specs.Messages.{flags};

use model::Chunk;

// E 1, B 2, U 4.
pub fn octet(chunk: Chunk) -> u8
    ensures { result ≡ flags chunk }
{
    u8::from(chunk.ending) + u8::from(chunk.beginning) * 2 + u8::from(chunk.message.unordered) * 4
}
