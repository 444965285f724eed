// The lines of the drill: how a command's line is read, and how an answer's line is written.
// Promises: every function ends and stays in its bounds, for any line. What is read is what the line says, unless memory runs out; what is printed is tested,
// not proved (docs/EXCEPTIONS.md).
// Rule: docs/DRILL.md, "The language"; definitions in specs/Values.antt, specs/Lines.antt and specs/Reads.antt.
#![tactic(auto)]

pub mod fault;
pub mod keys;
pub mod print;
pub mod value;
