// What groups of fields say about the unique identifier, and when they match.
// Promises: a group agrees, disagrees or is absent exactly as its fields do; an untrusted group counts only for NTSN.
// Rule: RULES, part 8; definitions in specs/Matching.antt.
#![tactic(auto)]

ghost use Rattle.std.specs.Prelude.{◌≡◌};
ghost use Rattle.wire_fields.specs.Fields.{fields_left};
ghost use Rattle.wire_groups.specs.Matching.{uid_of, uids_within, packet_uid, decrypted_uid, uid_matches};

use wire_fields::Fields;

// The type of a field that carries the unique identifier.
pub const UID_KIND: u16 = 0x0104;

// A group of fields has no identifier, only identifiers that agree with the expected one, or one that does not.
// In this order: of groups taken together the last decides.
#[derive(Clone, Copy, PartialEq, Eq, PartialOrd, Ord)]
pub enum Uid {
    Absent,
    Agree,
    Disagree,
}

// What the uid fields that start at `from` or later and before `to` say.
// Kept: two places and the identifier apart, as the definitions `uids_within` and `uid_of` have them.
fn uid_among(fields: Fields<'_>, from: usize, to: usize, uid: [u8; 32]) -> Uid
    ensures { result ≡ uid_of uid (uids_within from to (fields_left fields.entry)) }
{
    let mut seen = Uid::Absent;
    for field in fields {
        if from <= field.at && field.at < to && field.kind == UID_KIND {
            if !field.body.starts_with(&uid) {
                return Uid::Disagree;
            }
            seen = Uid::Agree;
        }
    }
    seen
}

// What the packet's fields that start at `from` or later and before `to` say.
// Kept, 2: beside `decrypted_uid`: each has its promise and its definition, and the limits say where a part of a packet ends, which decrypted fields lack.
// Kept, 5: two places and the identifier apart, as the definition of this name has them.
// promise: 7.8, 8.1
pub fn packet_uid(p: &[u8], from: usize, to: usize, uid: [u8; 32]) -> Uid
    ensures { result ≡ packet_uid p.now from to uid }
{
    uid_among(Fields::packet(p), from, to, uid)
}

// What all decrypted fields say.
// promise: 8.1
pub fn decrypted_uid(p: &[u8], uid: [u8; 32]) -> Uid
    ensures { result ≡ decrypted_uid p.now uid }
{
    uid_among(Fields::decrypted(p), 0, p.len(), uid)
}

// Whether the groups of a reply match: none disagrees, and one agrees.
// The untrusted group counts for an NTSN kiss only: a server that cannot read our cookie has no key to authenticate its answer.
// Kept: a pattern and no `==`: a derived `==` compares with a constant in memory, and the module for boards has none (boards/module.py refuses them).
// promise: 8.2
pub fn uid_matches(authenticated: Uid, encrypted: Uid, untrusted: Uid, ntsn: bool) -> bool
    ensures { result ≡ uid_matches authenticated encrypted untrusted ntsn }
{
    let untrusted = if ntsn { untrusted } else { Uid::Absent };
    matches!(authenticated.max(encrypted).max(untrusted), Uid::Agree)
}
