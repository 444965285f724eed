// The two forms of extension fields: those of a V4 packet, and decrypted ones.
// Promises: what is at an offset is a field only if it is whole and of a length that its form allows.
// Rule: RULES, part 7; definitions in specs/Field.antt.
ghost use Rattle.std.specs.Prelude.{◌≡◌, ◌≤◌};
ghost use Rattle.wire_fields.specs.Field.{step_at};

use crate::Step;

// The least length of a field, and the greatest of a tail, which is not read as a field.
#[derive(Clone, Copy)]
pub struct Form {
    pub least: usize,
    pub tail: usize,
    // A field has a head.
    ghost head: { 4 ≤ least },
}

// What is no longer than a MAC counts as a MAC, not as a field.
pub const PACKET: Form = Form {
    least: 16,
    tail: 24,
};

// Decrypted fields have at least a head, and no tail: RFC 8915 allows short ones, and nothing follows them that could be mistaken for a field.
pub const DECRYPTED: Form = Form { least: 4, tail: 0 };

impl Form {
    // A field is type, length and body; the length counts the head's four bytes.
    #[tactic(auto, unfolding(crate::specs::Field::step_at, crate::specs::Field::field_is, crate::specs::Field::length_at, crate::specs::Field::kind_at))]
    pub fn field_at(self, p: &[u8], at: usize) -> Step
        ensures { result ≡ step_at p.now at self.least self.tail }
    {
        if p.len() < at {
            return Step::Broken; // past the bytes
        }
        let rest = p.len() - at;
        if rest <= self.tail {
            return Step::End; // only a tail is left
        }
        if rest < 4 {
            return Step::Broken; // no room for a head
        }
        let kind = words::be16_at(p, at);
        let long = usize::from(words::be16_at(p, at + 2));
        // Not a multiple of 4, shorter than a field may be, or past the end.
        if long % 4 != 0 || long < self.least || rest < long {
            return Step::Broken;
        }
        Step::Field {
            kind,
            start: at + 4,
            len: long - 4,
            next: at + long,
        }
    }
}
