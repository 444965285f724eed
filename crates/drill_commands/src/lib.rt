// The drill's commands: a module for each kind of call, for the record itself, and for each tool. Each reads the values of its line, makes its call and returns
// the answer. A rejected line changes nothing.
// Promises: every function ends and stays in its bounds; the answers are those of the proved calls. `Wanted::read` reads what the line says, and `made` prints
// what the table of commands has. What else is printed is tested, not proved (docs/EXCEPTIONS.md).
// Rule: docs/DRILL.md, "The language", defines the commands; definitions in specs/Settings.antt and specs/Made.antt.
// Kept: a command takes the allocator, the association and the line on their own, as std's calls take theirs: out of a struct each would take them first.
#![tactic(auto)]

pub mod calendars;
pub mod calls;
pub mod collects;
pub mod compares;
pub mod handovers;
pub mod polls;
pub mod profiles;
pub mod record;
pub mod replies;
pub mod requests;
pub mod salvages;
