// Extension fields: what is at an offset, the walk over them, and its places. Module `walker` holds the caller's bytes and finds a field's body.
// Promises: a walk's fields follow one another within the packet; it is rejected exactly if it meets something broken; a body is part of the packet itself.
// Rule: RULES, part 7 (RFC 7822); definitions in specs/Field.antt, specs/Walk.antt and specs/Fields.antt, of the walker in specs/Walker.antt.
#![tactic(auto)]

mod forms;
pub mod walker;

ghost use Rattle.std.specs.Prelude.{◌≡◌, []};
ghost use Rattle.wire_fields.specs.Field.{packet_step, decrypted_step};
ghost use Rattle.wire_fields.specs.Walk.{packet_walk, decrypted_walk, walked_of, is_place};
ghost use Rattle.wire_fields.specs.Fields.{fields_in, fields_left, walk_left};

use forms::{DECRYPTED, Form, PACKET};
use wire_header::HEADER_BYTES;

// What is at an offset: a field, whose body is `len` bytes from `start` and which ends at `next`; the end of the walk; or something broken.
// Kept: neither an Option nor a Result: three cases, of which a walk ends at two alike (RULES, "What must change shape"; definition `step_at`).
#[derive(Clone, Copy)]
pub enum Step {
    Field {
        kind: u16,
        start: usize,
        len: usize,
        next: usize,
    },
    End,
    Broken,
}

// What is at an offset of a V4 packet.
// Kept: a function for each form, here and below: each has its promises and its definition, and no caller has the form for a value.
// promise: 7.1, 7.2, 7.4
pub fn packet_field_at(p: &[u8], at: usize) -> Step
    ensures { result ≡ packet_step p.now at }
{
    PACKET.field_at(p, at)
}

// What is at an offset of decrypted fields.
// promise: 7.3, 7.4
pub fn decrypted_field_at(p: &[u8], at: usize) -> Step
    ensures { result ≡ decrypted_step p.now at }
{
    DECRYPTED.field_at(p, at)
}

// A field that a walk finds: where it starts, its type and its body.
#[derive(Clone, Copy)]
pub struct Field<'a> {
    pub at: usize,
    pub kind: u16,
    pub body: &'a [u8],
}

// The fields of a walk, in order. It stops at the first answer that is not a field.
#[derive(Clone, Copy)]
pub struct Fields<'a> {
    bytes: &'a [u8],
    at: usize,
    form: Form,
}

impl<'a> Fields<'a> {
    // The fields of a V4 packet.
    #[tactic(auto, unfolding(crate::specs::Fields::fields_left, crate::specs::Fields::walk_left))]
    pub fn packet(bytes: &'a [u8]) -> Fields<'a>
        ensures fields { fields_left result ≡ fields_in bytes.now (packet_walk bytes.now) }
        ensures walk { walk_left result ≡ packet_walk bytes.now }
    {
        Fields {
            bytes,
            at: HEADER_BYTES,
            form: PACKET,
        }
    }

    // Decrypted fields.
    #[tactic(auto, unfolding(crate::specs::Fields::fields_left, crate::specs::Fields::walk_left))]
    pub fn decrypted(bytes: &'a [u8]) -> Fields<'a>
        ensures fields { fields_left result ≡ fields_in bytes.now (decrypted_walk bytes.now) }
        ensures walk { walk_left result ≡ decrypted_walk bytes.now }
    {
        Fields {
            bytes,
            at: 0,
            form: DECRYPTED,
        }
    }

    // Where the walk ends, or none if it meets something broken.
    fn end(mut self) -> Option<usize>
        ensures { result ≡ walked_of (walk_left self.entry) }
    {
        // Kept: as in `list_whole` of cookielist: the place behind the last field is tested, and of a `for` over `&mut` the proof could not name that place.
        while self.next().is_some() {}
        match self.form.field_at(self.bytes, self.at) {
            Step::End => Some(self.at),
            _ => None,
        }
    }
}

impl<'a> Iterator for Fields<'a> {
    ghost use Rattle.std.specs.Iterator.{item_count};
    ghost use Rattle.wire_fields.specs.Fields.{fields_left, GivesField};

    type Item = Field<'a>;

    ghost next_gives = { GivesField };

    ghost remaining = { item_count fields_left };

    fn next(&mut self) -> Option<Field<'a>> {
        let Fields { bytes, at, form } = *self;
        let Step::Field {
            kind,
            start,
            next,
            ..
        } = form.field_at(bytes, at)
        else {
            return None;
        };
        self.at = next;
        let body = &bytes[start..next];
        Some(Field { at, kind, body })
    }
}

// Where the walk over the fields of a V4 packet ends, or none if it is broken.
// promise: 7.5
pub fn packet_walk(p: &[u8]) -> Option<usize>
    ensures { result ≡ walked_of (packet_walk p.now) }
{
    Fields::packet(p).end()
}

// Where the walk over decrypted fields ends, or none if it is broken.
// promise: 7.5
pub fn decrypted_walk(p: &[u8]) -> Option<usize>
    ensures { result ≡ walked_of (decrypted_walk p.now) }
{
    Fields::decrypted(p).end()
}

// Whether `end` is the packet's first place, a place where a field starts, or the place where the walk ends; a broken walk has none.
// promise: 7.6
pub fn is_place(p: &[u8], end: usize) -> bool
    ensures { result ≡ is_place p.now end }
{
    // Kept: no `is_some_and`: it was tried, and its closure, which holds the closure of `any`, did not prove.
    let Some(last) = packet_walk(p) else {
        return false;
    };
    last == end || Fields::packet(p).any(|field| field.at == end)
}
