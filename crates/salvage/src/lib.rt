// Reads a damaged cookie list and writes a clean one.
// Promises: one walk over the input says what is kept, skipped and written; the clean list is whole, and does not change when it is salvaged again.
// Rule: RULES, No. 9; definitions in specs/Walk.antt and specs/Salvage.antt.
#![tactic(auto)]

ghost use Rattle.std.specs.Prelude.{◌≡◌, length, Err};
ghost use Rattle.std.proofs.Common.{rules};
ghost use Rattle.salvage.specs.Walk.{mark_at, followed, record_at};
ghost use Rattle.salvage.specs.Salvage.{salvage_of, buffer_of, number_of};

use answers::Refusal;
use cookielist::{Entry, RECORD_MARK};

const MARK_BYTES: usize = 2;

// How many gaps have their places reported; further ones are only counted.
pub const PLACES: usize = 32;

// Kept: C shows the first 32 places and how many gaps there are, and memory is fixed.
// What was salvaged: the records kept, the bytes skipped, the gaps, where the first 32 of them start, and how many bytes of the buffer are the clean list.
#[derive(Clone, Copy)]
pub struct Salvaged {
    pub kept: usize,
    pub skipped: usize,
    pub gaps: usize,
    pub places: [usize; PLACES],
    pub len: usize,
}

// Why nothing was salvaged: the buffer is shorter than the input.
#[derive(Clone, Copy)]
pub enum SalvageRefusal {
    ShortBuffer,
}

impl Refusal for SalvageRefusal {
    ghost number_of = { λ refusal. number_of (Err refusal) };

    // promise: no9.7
    fn number(self) -> u8 {
        match self {
            SalvageRefusal::ShortBuffer => 70,
        }
    }

    ghost never_zero = { Prim.search rules };
}

// Whether both bytes of a mark are at an offset. It is read from a part whose own length the compiler knows.
#[tactic(auto, using(crate::proofs::Mark::own_mark), unfolding(crate::specs::Walk::mark_at))]
fn mark_at(list: &[u8], at: usize) -> bool
    ensures { result ≡ mark_at list.now at }
{
    words::fits(list.len(), at, MARK_BYTES)
        && words::be16_at(&list[at..at + MARK_BYTES], 0) == RECORD_MARK
}

// Whether the end or another mark follows a record.
#[tactic(auto, unfolding(crate::specs::Walk::followed))]
fn followed(list: &[u8], end: usize) -> bool
    ensures { result ≡ followed list.now end }
{
    end == list.len() || mark_at(list, end)
}

// Tries an offset: the list's own reader says whether a record fits there. A record that is kept ends before the number returned.
// promise: no9.1
#[tactic(auto, unfolding(crate::specs::Walk::record_at))]
fn record_at(list: &[u8], at: usize) -> Option<usize>
    ensures { result ≡ record_at list.now at }
{
    match cookielist::entry_at(list, at) {
        Entry::Cookie { end, .. } if followed(list, end) => Some(end),
        _ => None,
    }
}

// What the walk does at an offset: it keeps a record, which ends before `end`, or skips a byte.
#[derive(Clone, Copy)]
enum Step {
    Kept { start: usize, end: usize },
    Skipped { at: usize },
}

// The walk over a damaged list: each place is tried in turn.
// Kept: beside `Cookies` of cookielist, which ends where something is broken: this walk goes on behind it, and also gives what it skips.
#[derive(Clone, Copy)]
struct Walk<'a> {
    list: &'a [u8],
    at: usize,
}

impl Iterator for Walk<'_> {
    ghost use Rattle.salvage.specs.Steps.{GivesStep, steps_left};

    type Item = Step;

    ghost next_gives = { GivesStep };

    ghost remaining = { steps_left };

    // promise: no9.1
    fn next(&mut self) -> Option<Step> {
        let Walk { list, at: start } = *self;
        if list.len() <= start {
            return None;
        }
        match record_at(list, start) {
            Some(end) => {
                self.at = end;
                Some(Step::Kept { start, end })
            }
            None => {
                self.at += 1;
                Some(Step::Skipped { at: start })
            }
        }
    }
}

// Writes the kept records to the start of the buffer. It tries each place once and copies each record once, so the time grows with the length.
// promise: no9.1, no9.2, no9.3, no9.7
pub fn salvage(list: &[u8], out: &mut [u8]) -> Result<Salvaged, SalvageRefusal>
    ensures { (result ≡ salvage_of list.now (length out.old)) × (out.new ≡ buffer_of list.now out.old) }
{
    if out.len() < list.len() {
        return Err(SalvageRefusal::ShortBuffer);
    }
    let mut report = Salvaged {
        kept: 0,
        skipped: 0,
        gaps: 0,
        places: [0; PLACES],
        len: 0,
    };
    let mut in_gap = false;
    for step in (Walk { list, at: 0 }) {
        match step {
            Step::Kept { start, end } => {
                report.len = words::lay(out, report.len, &list[start..end]);
                report.kept += 1;
                in_gap = false;
            }
            Step::Skipped { at } => {
                if !in_gap {
                    if report.gaps < PLACES {
                        report.places[report.gaps] = at;
                    }
                    report.gaps += 1;
                }
                report.skipped += 1;
                in_gap = true;
            }
        }
    }
    Ok(report)
}
