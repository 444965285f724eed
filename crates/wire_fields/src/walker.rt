// A thin walker over a packet: it holds the caller's bytes and an offset, and calls the walk of `wire_fields`.
// Promises: a field's body is that part of the packet itself, in the packet's own memory.
// Rule: RULES, part 7 and "What must change shape"; definitions in specs/Walker.antt.
ghost use Rattle.std.specs.Prelude.{◌≡◌};
ghost use Rattle.wire_fields.specs.Field.{packet_step};
ghost use Rattle.wire_fields.specs.Walker.{walker_at, IsBody};

use crate::Step;
use wire_header::HEADER_BYTES;

// The `len` bytes from `start` on, as that part of the packet itself, or none if they run past the end.
// promise: 7.10
pub fn body_at(p: &[u8], start: usize, len: usize) -> &[u8]
    ensures { IsBody p.entry start len result }
{
    if start <= p.len() && len <= p.len() - start {
        &p[start..start + len]
    } else {
        &p[..0]
    }
}

// Kept: beside the iterators: promise 7.10 has its bytes and its place, and it stays where it is.
#[derive(Clone, Copy)]
pub struct Walker<'a> {
    pub packet: &'a [u8],
    pub at: usize,
}

impl<'a> Walker<'a> {
    // promise: 7.10
    pub fn new(packet: &'a [u8], at: usize) -> Walker<'a>
        ensures { result ≡ walker_at packet.entry at }
    {
        Walker { packet, at }
    }

    // What is at the walker's offset; the walker does not move.
    // promise: 7.10
    pub fn step(self) -> Step
        ensures { result ≡ packet_step self.entry.packet.now self.entry.at }
    {
        crate::packet_field_at(self.packet, self.at)
    }

    // The body of a field, by the start and the length that its step names.
    // promise: 7.10
    pub fn body(self, start: usize, len: usize) -> &'a [u8]
        ensures { IsBody self.entry.packet start len result }
    {
        body_at(self.packet, start, len)
    }
}

// What a walker finds first in a packet; it takes plain bytes, so that its callers hold no walker.
// promise: 7.10
pub fn first(p: &[u8]) -> Step
    ensures { result ≡ packet_step p.now 48 }
{
    Walker::new(p, HEADER_BYTES).step()
}
