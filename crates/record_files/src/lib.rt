// The hand-over file and a record in lent bytes: the file written from the record, and loaded into it.
// Promises: what saving and loading promise by value, for every byte of record, file and buffer; no record is held on the stack.
// Rule: RULES, No. 6, No. 12 and No. 14; definitions in specs/Save.antt and specs/Load.antt.
#![tactic(auto)]

pub mod loads;
pub mod saves;
