// Cases of RULES: tables over the definitions, each proved by a single theorem. No code.
// Promises: the starred cases; either side of each other edge of the rules; packets, files, lists and comparisons byte by byte.
// Rule: RULES, "Either side of each edge"; the tables in specs/Table.antt, Rules.antt and Written.antt, the theorems in proofs/.

#![tactic(auto)]
