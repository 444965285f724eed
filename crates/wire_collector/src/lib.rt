// The cookies among decrypted fields, collected as a cookie list in a lent buffer.
// Promises: the list is whole and has the cookies in order; nothing else in the buffer changes, and a rejected call changes nothing.
// Rule: RULES, part 7; definitions in specs/Collector.antt.
#![tactic(auto)]

ghost use Rattle.std.specs.Prelude.{◌≡◌, length, Err};
ghost use Rattle.std.proofs.Common.{rules};
ghost use Rattle.wire_collector.specs.Collector.{list_in, collect_of, buffer_of, number_of};

use answers::Refusal;
use cookielist::{HEAD_BYTES, RECORD_MARK};
use wire_fields::Fields;

// The type of a field that carries a cookie.
pub const COOKIE_KIND: u16 = 0x0204;

// Why nothing was written.
#[derive(Clone, Copy, PartialEq, Eq)]
pub enum CollectRefusal {
    Broken,
    TooLong,
}

impl Refusal for CollectRefusal {
    ghost number_of = { λ refusal. number_of (Err refusal) };

    // promise: 7.9
    fn number(self) -> u8 {
        match self {
            CollectRefusal::Broken => 1,
            CollectRefusal::TooLong => 31,
        }
    }

    ghost never_zero = { Prim.search rules };
}

// How long the list is.
fn list_length(decrypted: &[u8]) -> usize
    ensures { result ≡ length (list_in decrypted.now) }
{
    let mut long = 0;
    for field in Fields::decrypted(decrypted) {
        if field.kind == COOKIE_KIND {
            long += HEAD_BYTES + field.body.len();
        }
    }
    long
}

// Writes the list of the cookies to the start of the buffer, and returns its length. Rejects broken fields first, then a list longer than the buffer.
// promise: 7.9
pub fn collect(decrypted: &[u8], out: &mut [u8]) -> Result<usize, CollectRefusal>
    ensures { (result ≡ collect_of decrypted.now (length out.old)) ×
        (out.new ≡ buffer_of decrypted.now out.old) }
{
    if wire_fields::decrypted_walk(decrypted).is_none() {
        return Err(CollectRefusal::Broken);
    }
    if out.len() < list_length(decrypted) {
        return Err(CollectRefusal::TooLong);
    }
    let mut to = 0;
    for field in Fields::decrypted(decrypted) {
        if field.kind == COOKIE_KIND {
            to = words::lay_record(out, to, RECORD_MARK, field.body);
        }
    }
    Ok(to)
}
