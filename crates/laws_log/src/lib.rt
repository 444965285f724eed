// Demand 3 over any machine of timers and replies, and why a reply had no live request: definitions and theorems only, no code.
// Promises: for every machine that obeys the laws, striking the replies that answer nothing keeps end, answers and actions; its log tells 12, 13 and 14 apart.
// Rule: RULES, "The three demands" and No. 3; definitions in specs/Log.antt, specs/Machine.antt, specs/Demand.antt and specs/Why.antt.

#![tactic(auto)]
