// The reply on a record in lent bytes.
// Promises: what `reply` promises, for the record in the bytes and every byte of it; bytes that are no record give 32 and do not change.
// Rule: RULES, part 11 and No. 5; definitions in specs/Reply.antt.
ghost use Rattle.std.specs.Prelude.{◌≡◌};
ghost use Rattle.reply_clauses.specs.After.{arrival};
ghost use Rattle.record_bytes.specs.State.{StateFit};
ghost use Rattle.record_bytes.specs.Record.{unpacked};
ghost use Rattle.record_calls.specs.Reply.{gave, replied_call, settled_in};

use cookiestash::Dropped;
use reply::Replied;
use reply_clauses::Stamps;
use reply_rules::{Form, ReplyAnswer, Verdict};

// Carries out a verdict on the record in place. It copies only the state, and the cookies that are stored.
fn settle(b: &mut [u8], capacity: u8, verdict: Verdict, list: &[u8]) -> Replied
    ensures { (gave result b.new ≡ settled_in capacity verdict list.now b.old) × StateFit verdict.state }
{
    record_bytes::store_state(b, verdict.state);
    let dropped = record_stash::refill(b, capacity, verdict.stores, list);
    Replied {
        answer: verdict.answer,
        dropped,
    }
}

// A reply of any form. One that cannot be decoded changes nothing.
// Kept: form, list and stamps are three parameters, as `judge` has them.
// promise: exports.3, exports.9
pub fn reply<F: Form>(b: &mut [u8], form: F, list: &[u8], stamps: Stamps) -> Replied
    ensures { gave result b.new ≡ replied_call b.old (F.read form (unpacked b.old).settings.nts (unpacked b.old).state.request.uid)
        (arrival list.now stamps.t1 stamps.t4 stamps.time) }
{
    let Some(found) = record_bytes::open_record(b) else {
        return Replied {
            answer: ReplyAnswer::NotWhole,
            dropped: Dropped::none(),
        };
    };
    let seen = record_stash::see(b, found.settings.capacity);
    let verdict = reply_rules::judge(found.settings, found.state, seen, form, list, stamps);
    settle(b, found.settings.capacity, verdict, list)
}
