// The timer: sends a poll, or gives up. The core function takes a record by value; a thin call above it updates the record that the caller lends.
// Promises: each number exactly when its rule says so, the next record and every byte of the buffer; a whole record stays whole.
// Rule: RULES, part 10; definitions in specs/Timer.antt, number by number in specs/Numbers.antt.
#![tactic(auto)]

ghost use Rattle.std.specs.Prelude.{◌≡◌, cond};
ghost use Rattle.std.specs.Option.{unwrap_or};
ghost use Rattle.cookiestash.specs.Stash.{empty_slot};
ghost use Rattle.cookiestash.specs.Handed.{handed_of};
ghost use Rattle.timer.specs.Timer.{out, oldest, decided, timed, timed_of};

use association::Association;
use cookiestash::Slot;
use timer_rules::{Decision, TimerAnswer, TimerInput};

// What the timer returns: its answer, and the next record.
#[derive(Clone, Copy)]
pub struct TimerOut {
    pub answer: TimerAnswer,
    pub association: Association,
}

// Hands out the taken cookie, if there is one.
#[tactic(auto, using(cookiestash::proofs::Stored::stored_bounds), unfolding(cookiestash::specs::Handed::handed_of, cookiestash::specs::Stash::empty_slot))]
fn hand_out(cookie: Option<Slot>, buffer: &mut [u8])
    ensures { buffer.new ≡ handed_of (unwrap_or cookie empty_slot) buffer.old }
{
    let Some(slot) = cookie else {
        return;
    };
    cookiestash::hand_out(&slot.bytes, slot.len, buffer);
}

// Carries out a decision: stores the next state and, if the decision takes a cookie, moves the oldest to the buffer.
fn decided(a: Association, decision: Decision, buffer: &mut [u8]) -> TimerOut
    ensures { (result ≡ decided a decision) ×
        (buffer.new ≡ cond decision.takes (handed_of (oldest a) buffer.old) buffer.old) }
{
    let kept = Association {
        state: decision.state,
        ..a
    };
    if !decision.takes {
        return TimerOut {
            answer: decision.answer,
            association: kept,
        };
    }
    let taken = a.stash.get(a.settings.capacity);
    hand_out(taken.cookie, buffer);
    TimerOut {
        answer: decision.answer,
        association: Association {
            stash: taken.stash,
            ..kept
        },
    }
}

// The timer, on a record by value.
// promise: 3.11, 10.1, 10.8
pub fn timer_core(a: Association, input: TimerInput, buffer: &mut [u8]) -> TimerOut
    ensures { timed result buffer.new ≡ timed_of a input buffer.old }
{
    let seen = a.stash.seen(a.settings.capacity);
    let decision = timer_rules::decide(a.settings, a.state, seen, input, buffer.len());
    decided(a, decision, buffer)
}

// The timer. Updates the association that the caller lends.
// promise: 10.1, 10.8, 10.9 (over `timer_core`), no12.2
pub fn timer(a: &mut Association, input: TimerInput, buffer: &mut [u8]) -> TimerAnswer
    ensures { timed (out result a.new) buffer.new ≡ timed_of a.old input buffer.old }
{
    let out = timer_core(*a, input, buffer);
    *a = out.association;
    out.answer
}
