// The timer on a record in lent bytes.
// Promises: what `timer` promises, for the record in the bytes and every byte of record and buffer; bytes that are no record give 32 and do not change.
// Rule: RULES, part 10; definitions in specs/Timer.antt.
ghost use Rattle.std.specs.Prelude.{◌≡◌};
ghost use Rattle.record_calls.specs.Timer.{gave, timer_call};

use timer_rules::{TimerAnswer, TimerInput};

// Stores in place what changes in the record. It copies only the settings, the state, and the bytes of a cookie that is handed out.
// promise: exports.3
pub fn timer(b: &mut [u8], input: TimerInput, buffer: &mut [u8]) -> TimerAnswer
    ensures { gave result b.new buffer.new ≡ timer_call b.old input buffer.old }
{
    let Some(found) = record_bytes::open_record(b) else {
        return TimerAnswer::NotWhole;
    };
    let seen = record_stash::see(b, found.settings.capacity);
    let decision = timer_rules::decide(found.settings, found.state, seen, input, buffer.len());
    record_bytes::store_state(b, decision.state);
    record_stash::take(b, found.settings.capacity, decision.takes, buffer);
    decision.answer
}
