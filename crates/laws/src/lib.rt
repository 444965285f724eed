// The association as a machine of `laws_log`: what holds along any of its logs, from a new, a metered or a loaded one; and a timer's requests. No code.
// Promises: demand 3, and why a reply had no live request; nine timers, RATE, the cookies' order, the metered profile; the longest request is read back.
// Rule: RULES, "The three demands", part 10, No. 1, 3, 6, 7, 8, 11 and 14; definitions in specs/, the machine in specs/Association.antt; theorems in proofs/.

#![tactic(auto)]
