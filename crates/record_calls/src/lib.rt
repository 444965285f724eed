// The calls on a record in lent bytes: the timer, a reply of any form, and acceptance of the source.
// Promises: what each call promises by value, for the record in the bytes and every lent byte; bytes that are no record give 32 and do not change.
// Rule: RULES, parts 10 to 12 and No. 5; definitions in specs/Timer.antt, specs/Reply.antt and specs/Accept.antt.
#![tactic(auto)]

pub mod accepts;
pub mod polls;
pub mod replies;
