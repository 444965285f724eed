// What the tools beside the association answer, as numbers: salvage of a cookie list, check and plan of a poll calendar, comparison of two files.
// Promises: the number of each answer, and all that it reports or names.
// Rule: RULES, No. 9, No. 10 and No. 13; definitions in specs/Told.antt.
ghost use Rattle.std.specs.Prelude.{◌≡◌};
ghost use Rattle.exports_values.specs.Told.{salvaged_as, named, unnamed, checked_as, planned_as, side_code, refused, compared_as};

use answers::Refusal;
use calendar::{CheckRefusal, PlanRefusal};
use handover_compare::{CompareRefusal, Side};
use salvage::{PLACES, SalvageRefusal, Salvaged};

// What salvage answers, as numbers without padding. The first `told` places say where gaps start; the others are 0.
#[repr(C)]
#[derive(Clone, Copy)]
pub struct CSalvaged {
    pub number: u32,
    pub told: u32,
    pub kept: u64,
    pub skipped: u64,
    pub gaps: u64,
    pub length: u64,
    pub places: [u64; 32],
}

// What the check and the planner answer. If `named` is 1, `place` is the entry or the minute that the answer names; otherwise both are 0.
#[repr(C)]
#[derive(Clone, Copy)]
pub struct CCalendarAnswer {
    pub number: u32,
    pub named: u32,
    pub place: u64,
}

// The places in 64 bits each, whatever the target's width.
fn widened(places: [usize; PLACES]) -> [u64; PLACES]
    ensures { result ≡ places }
{
    let mut wide = [0; PLACES];
    for (i, place) in places.iter().enumerate() {
        wide[i] = *place as u64;
    }
    wide
}

impl From<Result<Salvaged, SalvageRefusal>> for CSalvaged {
    ghost from_gives = { λ answer c. c ≡ salvaged_as answer };

    // promise: exports.11
    fn from(answer: Result<Salvaged, SalvageRefusal>) -> CSalvaged {
        match answer {
            Ok(s) => {
                let places = widened(s.places);
                CSalvaged {
                    number: 0,
                    told: s.gaps.min(PLACES) as u32,
                    kept: s.kept as u64,
                    skipped: s.skipped as u64,
                    gaps: s.gaps as u64,
                    length: s.len as u64,
                    places,
                }
            }
            Err(refusal) => CSalvaged {
                number: u32::from(refusal.number()),
                told: 0,
                kept: 0,
                skipped: 0,
                gaps: 0,
                length: 0,
                places: [0; PLACES],
            },
        }
    }
}

// An answer that names an entry or a minute.
// Kept: the number is what C gets.
fn named(number: u8, place: usize) -> CCalendarAnswer
    ensures { result ≡ named number place }
{
    CCalendarAnswer {
        number: u32::from(number),
        named: 1,
        place: place as u64,
    }
}

// One that names none.
// Kept: the number is what C gets.
fn unnamed(number: u8) -> CCalendarAnswer
    ensures { result ≡ unnamed number }
{
    CCalendarAnswer {
        number: u32::from(number),
        named: 0,
        place: 0,
    }
}

impl From<Result<(), CheckRefusal>> for CCalendarAnswer {
    ghost from_gives = { λ answer c. c ≡ checked_as answer };

    // promise: exports.11
    fn from(answer: Result<(), CheckRefusal>) -> CCalendarAnswer {
        let Err(refusal) = answer else {
            return unnamed(0);
        };
        match refusal {
            CheckRefusal::BadRepeat(k) | CheckRefusal::LateStart(k) | CheckRefusal::OverCap(k) => {
                named(refusal.number(), k)
            }
            CheckRefusal::TooMany => unnamed(refusal.number()),
        }
    }
}

impl From<Result<(), PlanRefusal>> for CCalendarAnswer {
    ghost from_gives = { λ answer c. c ≡ planned_as answer };

    // promise: exports.11
    fn from(answer: Result<(), PlanRefusal>) -> CCalendarAnswer {
        let Err(refusal) = answer else {
            return unnamed(0);
        };
        match refusal {
            PlanRefusal::BadRepeat(k) | PlanRefusal::NoFit(k) => named(refusal.number(), k),
            PlanRefusal::TooMany | PlanRefusal::NoRoom => unnamed(refusal.number()),
        }
    }
}

// What comparing answers, as numbers without padding.
#[repr(C)]
#[derive(Clone, Copy)]
pub struct CCompared {
    pub number: u32,
    // Which file is rejected: 1 the left one, 2 the right one; otherwise 0.
    pub side: u32,
    // How many fields differ. Each has an entry of 19 bytes; the entries begin at the start of the buffer.
    pub entries: u64,
}

// Kept, 1 and 4: C's code (include/reckonstile.h), which no crate below knows; definition `side_code`.
fn side_code(side: Side) -> u32
    ensures { result ≡ side_code side }
{
    match side {
        Side::Left => 1,
        Side::Right => 2,
    }
}

// A refusal that names a file.
// Kept: the number is what C gets.
fn refused(number: u8, side: Side) -> CCompared
    ensures { result ≡ refused number side }
{
    CCompared {
        number: u32::from(number),
        side: side_code(side),
        entries: 0,
    }
}

impl From<Result<usize, CompareRefusal>> for CCompared {
    ghost from_gives = { λ answer c. c ≡ compared_as answer };

    // promise: exports.11
    fn from(answer: Result<usize, CompareRefusal>) -> CCompared {
        match answer {
            Ok(entries) => CCompared {
                number: 0,
                side: 0,
                entries: entries as u64,
            },
            Err(refusal) => match refusal {
                CompareRefusal::WrongMark(side)
                | CompareRefusal::WrongLength(side)
                | CompareRefusal::NoAssociation(side) => refused(refusal.number(), side),
                CompareRefusal::ShortBuffer => CCompared {
                    number: u32::from(refusal.number()),
                    side: 0,
                    entries: 0,
                },
            },
        }
    }
}
