// The reply, in every form. The core takes a record by value; the call above it updates the record that the caller lends.
// Promises: each number exactly when its rule says so, and the next record; a whole record stays whole, and a rejected reply does not change it.
// Rule: RULES, part 11 and No. 5; definitions in specs/Reply.antt, number by number in specs/Numbers.antt.
#![tactic(auto)]

ghost use Rattle.std.specs.Prelude.{◌≡◌};
ghost use Rattle.reply_clauses.specs.After.{arrival};
ghost use Rattle.reply.specs.Reply.{judged, replied_of};

use association::Association;
use cookiestash::Dropped;
use reply_clauses::Stamps;
use reply_rules::{Form, ReplyAnswer, Verdict};

// What a caller gets from a reply: its answer, and what fell out of the stash while the reply's cookies were stored.
#[derive(Clone, Copy)]
pub struct Replied {
    pub answer: ReplyAnswer,
    pub dropped: Dropped,
}

// What the reply returns: what the caller gets, and the next record.
#[derive(Clone, Copy)]
pub struct ReplyOut {
    pub replied: Replied,
    pub association: Association,
}

// Carries out a verdict: stores the next state and, if the verdict says so, the cookies of the list.
fn judged(a: Association, verdict: Verdict, list: &[u8]) -> ReplyOut
    ensures { result ≡ judged a list.now verdict }
{
    let Verdict {
        answer,
        state,
        stores,
    } = verdict;
    if stores {
        let stored = a.stash.store_list(a.settings.capacity, list);
        return ReplyOut {
            replied: Replied {
                answer,
                dropped: stored.dropped,
            },
            association: Association {
                stash: stored.stash,
                state,
                ..a
            },
        };
    }
    ReplyOut {
        replied: Replied {
            answer,
            dropped: Dropped::none(),
        },
        association: Association { state, ..a },
    }
}

// A reply of any form, on a record by value.
// Kept: form, list and stamps are three parameters, as `judge` has them.
// promise: 11.1, no5.5
#[tactic(auto, unfolding(crate::specs::Reply::replied_of))]
pub fn reply_core<F: Form>(a: Association, form: F, list: &[u8], stamps: Stamps) -> ReplyOut
    ensures { result ≡ replied_of a (F.read form a.settings.nts a.state.request.uid)
        (arrival list.now stamps.t1 stamps.t4 stamps.time) }
{
    let seen = a.stash.seen(a.settings.capacity);
    let verdict = reply_rules::judge(a.settings, a.state, seen, form, list, stamps);
    judged(a, verdict, list)
}

// A reply of any form. Updates the association that the caller lends.
// Kept: beside `record_calls`'s, in bytes, which copies the state alone; this is what the laws over logs speak of. Parameters as `judge` has them.
// promise: 11.1, 11.10, no5.5, no12.2
pub fn reply<F: Form>(a: &mut Association, form: F, list: &[u8], stamps: Stamps) -> Replied
    ensures replied { result ≡ (replied_of a.old (F.read form a.old.settings.nts a.old.state.request.uid)
        (arrival list.now stamps.t1 stamps.t4 stamps.time)).replied }
    ensures left { a.new ≡ (replied_of a.old (F.read form a.old.settings.nts a.old.state.request.uid)
        (arrival list.now stamps.t1 stamps.t4 stamps.time)).association }
{
    let out = reply_core(*a, form, list, stamps);
    *a = out.association;
    out.replied
}
