// Acceptance of the source of a record in lent bytes.
// Promises: what `accept` promises, for the record in the bytes; bytes that are no record give 32.
// Rule: RULES, part 12; definitions in specs/Accept.antt.
ghost use Rattle.std.specs.Prelude.{◌≡◌};
ghost use Rattle.record_calls.specs.Accept.{accept_call};

use association_accept::{AcceptRefusal, Bloom};

// Reads the record's settings, its state and the summary of its stash; changes nothing.
// Kept, 2 and 5: C's call, on a record in bytes; the rule stands once, in `accept_seen`. What the caller passes is apart, as C passes it.
// promise: exports.3
pub fn accept(b: &[u8], stratum: u8, local: &[u32], bloom: Bloom) -> Result<(), AcceptRefusal>
    ensures { result ≡ accept_call b.now stratum local.now bloom }
{
    let found = record_bytes::open_record(b).ok_or(AcceptRefusal::NotWhole)?;
    let seen = record_stash::see(b, found.settings.capacity);
    association_accept::accept_seen(found.settings, found.state, seen, stratum, local, bloom)
}
