// A poll calendar for one modem: the check of a proposed calendar, and the planner.
// Promises: each number exactly when its rule says so, with the lowest entry or minute; the check accepts every plan; each start is the earliest that fits.
// Rule: RULES, No. 13; definitions in specs/Calendar.antt and specs/Plan.antt.
// The code never divides, since the smallest boards have no divider: it counts multiples up in steps.
#![tactic(auto)]

ghost use Rattle.std.specs.Prelude.{◌≡◌, [], ℕ, ◌%◌, ◌≤◌, ◌<◌, length, get_or, take, Err};
ghost use Rattle.std.proofs.Common.{rules};
ghost use Rattle.calendar.specs.Lowest.{lowest};
ghost use Rattle.calendar.specs.Calendar.{entries_of, divides_day, bad_repeat, late_start, load, check_of, number_of};
ghost use Rattle.calendar.specs.Loads.{above, free, one_more};
ghost use Rattle.calendar.specs.Plan.{plan_from, planned, plan_of, buffer_of, plan_number_of};

use answers::Refusal;

// A day's minutes, and the most entries that a calendar has.
pub const MINUTES: usize = 1440;

pub const MOST_ENTRIES: usize = 64;

// Why a calendar is refused. Entries and minutes are counted from 0.
#[derive(Clone, Copy)]
pub enum CheckRefusal {
    TooMany,
    BadRepeat(usize),
    LateStart(usize),
    OverCap(usize),
}

impl Refusal for CheckRefusal {
    ghost number_of = { λ refusal. number_of (Err refusal) };

    // promise: no13.3
    fn number(self) -> u8 {
        match self {
            CheckRefusal::TooMany => 80,
            CheckRefusal::BadRepeat(_) => 81,
            CheckRefusal::LateStart(_) => 82,
            CheckRefusal::OverCap(_) => 83,
        }
    }

    ghost never_zero = { Prim.search rules };
}

// Why there is no plan. The buffer is then as it was.
#[derive(Clone, Copy)]
pub enum PlanRefusal {
    TooMany,
    BadRepeat(usize),
    NoFit(usize),
    NoRoom,
}

impl Refusal for PlanRefusal {
    ghost number_of = { λ refusal. plan_number_of (Err refusal) };

    // promise: no13.6
    fn number(self) -> u8 {
        match self {
            PlanRefusal::TooMany => 80,
            PlanRefusal::BadRepeat(_) => 81,
            PlanRefusal::NoFit(_) => 84,
            PlanRefusal::NoRoom => 31,
        }
    }

    ghost never_zero = { Prim.search rules };
}

// The number that a list has for an entry, or `missing` if the list is too short.
fn number_at(list: &[u16], k: usize, missing: usize) -> usize
    ensures { result ≡ get_or list.now k missing }
{
    list.get(k).map_or(missing, |x| usize::from(*x))
}

// How many entries there are: as many as the longer list has.
fn entries(starts: &[u16], repeats: &[u16]) -> usize
    ensures { result ≡ entries_of starts.now repeats.now }
{
    starts.len().max(repeats.len())
}

// The remainder of a day's minutes divided by a repeat, by subtraction.
fn left_of_day(repeat: usize) -> usize
    requires { 0 < repeat }
    ensures { result ≡ 1440 % repeat }
{
    let mut left: usize = MINUTES;
    // Kept: it counts no index, and a remainder would be a division, for which the small board has no divider (RULES, No. 4; promise no13.10).
    while repeat <= left {
        left -= repeat;
    }
    left
}

fn divides_day(repeat: usize) -> bool
    ensures { result ≡ divides_day repeat }
{
    repeat != 0 && left_of_day(repeat) == 0
}

// The lowest entry whose repeat is 0 or does not divide 1440.
fn bad_repeat(repeats: &[u16], n: usize) -> Option<usize>
    ensures { result ≡ lowest (bad_repeat repeats.now) n }
{
    (0..n).find(|k| !divides_day(number_at(repeats, *k, 0)))
}

// The lowest entry whose start is at or past its repeat.
fn late_start(starts: &[u16], repeats: &[u16], n: usize) -> Option<usize>
    ensures { result ≡ lowest (late_start starts.now repeats.now) n }
{
    (0..n).find(|k| number_at(repeats, *k, 0) <= number_at(starts, *k, MINUTES))
}

// Adds one poll at each minute of an entry.
// Kept: the bound of one number. A struct would hold that number alone, be made where a list is read, and be opened in each of the three that need it.
fn add(loads: &mut [u8; MINUTES], start: usize, repeat: usize)
    requires { (start < repeat) × (repeat ≤ 1440) × ((m : ℕ) → get_or loads.old m 0 < 255) }
    ensures { (m : ℕ) → m < 1440 → get_or loads.new m 0 ≡ one_more start repeat loads.old m }
{
    let mut m = start;
    // Kept: `step_by` was tried, here and in `fits`: the worst plan took 17 in a hundred more and missed the second at 7 MHz of docs/CALENDAR.md.
    while m < MINUTES {
        loads[m] += 1;
        m += repeat;
    }
}

// Counts the polls of every minute into a day of zeros.
fn add_all(loads: &mut [u8; MINUTES], starts: &[u16], repeats: &[u16], n: usize)
    requires { (n ≤ 64) × ((m : ℕ) → get_or loads.old m 0 ≡ 0) ×
        ((k : ℕ) → k < n → get_or starts.now k 1440 < get_or repeats.now k 0) × ((k : ℕ) → k < n → get_or repeats.now k 0 ≤ 1440) }
    ensures { (m : ℕ) → m < 1440 → get_or loads.new m 0 ≡ load starts.now repeats.now n m }
{
    for k in 0..n {
        add(
            loads,
            number_at(starts, k, MINUTES),
            number_at(repeats, k, 0),
        );
    }
}

// The lowest minute that has more polls than the cap.
fn over_cap(loads: &[u8; MINUTES], cap: u8) -> Option<usize>
    ensures { result ≡ lowest (above cap loads.now) 1440 }
{
    loads.iter().position(|load| cap < *load)
}

// Kept: a calendar is two lists, of starts and of repeats, since that is how C hands it over, and they may differ in length (docs/CALENDAR.md).
// Whether a calendar is accepted: up to 64 entries, each repeat divides 1440, each start is below its repeat, and no minute has more polls than the cap.
// promise no13.10: No division is needed: no function of `calendar/src` has a `/` or a `%`. Read off the source; the functions of std that it calls are
//     looked at by tests/opcodes in the built library.
// promise: no13.1, no13.2 (by loads, minute by minute), no13.3, no13.4, no13.10 (multiples are reached by steps)
#[tactic(auto, unfolding(crate::specs::Calendar::check_of))]
pub fn check(cap: u8, starts: &[u16], repeats: &[u16]) -> Result<(), CheckRefusal>
    ensures { result ≡ check_of cap starts.now repeats.now }
{
    let n = entries(starts, repeats);
    if MOST_ENTRIES < n {
        return Err(CheckRefusal::TooMany);
    }
    if let Some(k) = bad_repeat(repeats, n) {
        return Err(CheckRefusal::BadRepeat(k));
    }
    if let Some(k) = late_start(starts, repeats, n) {
        return Err(CheckRefusal::LateStart(k));
    }
    let mut loads = [0u8; MINUTES];
    add_all(&mut loads, starts, repeats, n);
    match over_cap(&loads, cap) {
        Some(m) => Err(CheckRefusal::OverCap(m)),
        None => Ok(()),
    }
}

// Whether each minute of an entry has room for one more poll.
// Kept: the bound of one number, as at `add`.
fn fits(loads: &[u8; MINUTES], cap: u8, start: usize, repeat: usize) -> bool
    requires { (start < repeat) × (repeat ≤ 1440) }
    ensures { result ≡ free cap loads.now repeat start }
{
    let mut m = start;
    // Kept: as in `add`.
    while m < MINUTES {
        if cap <= loads[m] {
            return false;
        }
        m += repeat;
    }
    true
}

// The earliest start at which an entry fits.
// Kept: the bound of one number, as at `add`.
fn earliest(loads: &[u8; MINUTES], cap: u8, repeat: usize) -> Option<usize>
    requires { repeat ≤ 1440 }
    ensures { result ≡ lowest (free cap loads.now repeat) repeat }
{
    (0..repeat).find(|start| fits(loads, cap, *start, repeat))
}

// Places every entry: writes the starts to a list and counts the polls into a day of zeros. Returns the first entry for which no start fits.
fn place_all(
    cap: u8,
    repeats: &[u16],
    loads: &mut [u8; MINUTES],
    placed: &mut [u16; MOST_ENTRIES],
) -> Option<usize>
    requires { (length repeats.now ≤ 64) × ((m : ℕ) → get_or loads.old m 0 ≡ 0) ×
        ((k : ℕ) → k < length repeats.now → get_or repeats.now k 0 ≤ 1440) }
    ensures { planned result (take (length repeats.now) placed.new)
        ≡ plan_from cap repeats.now (length repeats.now) [] }
{
    for (k, repeat) in repeats.iter().enumerate() {
        let repeat = usize::from(*repeat);
        let Some(start) = earliest(loads, cap, repeat) else {
            return Some(k);
        };
        placed[k] = start as u16;
        add(loads, start, repeat);
    }
    None
}

// Places the entries one by one, each at the earliest start that fits with those before it. Writes the starts if every entry has one, otherwise nothing.
// promise: no13.5, no13.6, no13.8, no13.9, no13.10
#[tactic(auto, unfolding(crate::specs::Plan::plan_of, crate::specs::Plan::buffer_of))]
pub fn plan(cap: u8, repeats: &[u16], starts: &mut [u16]) -> Result<(), PlanRefusal>
    ensures { (result ≡ plan_of cap repeats.now (length starts.old)) ×
        (starts.new ≡ buffer_of cap repeats.now starts.old) }
{
    let n = repeats.len();
    if MOST_ENTRIES < n {
        return Err(PlanRefusal::TooMany);
    }
    if let Some(k) = bad_repeat(repeats, n) {
        return Err(PlanRefusal::BadRepeat(k));
    }
    let mut loads = [0u8; MINUTES];
    let mut placed = [0u16; MOST_ENTRIES];
    if let Some(k) = place_all(cap, repeats, &mut loads, &mut placed) {
        return Err(PlanRefusal::NoFit(k));
    }
    if starts.len() < n {
        return Err(PlanRefusal::NoRoom);
    }
    starts[..n].copy_from_slice(&placed[..n]);
    Ok(())
}
