// Compares two associations, each given as settings, state, and the body of its stash's record, which is read in place: every field that differs, in the order
// of the hand-over file, with both readings.
// Promises: the list is empty exactly when the two are equal; swapping the two swaps the readings; of a cookie only its length and a place are shown.
// Rule: RULES, No. 10 and No. 12; definitions in specs/Readings.antt and specs/Fields.antt.
ghost use Rattle.std.specs.Prelude.{◌≡◌, map, ◌≤◌, ◌<◌, length};
ghost use Rattle.cookiestash.specs.Stash.{stored};
ghost use Rattle.handover_compare.specs.Readings.{plain, bits64, version_number, settings_numbers, state_numbers, ages};
ghost use Rattle.handover_compare.specs.Fields.{place_of, field_of};
ghost use Rattle.handover_compare.specs.Steps.{number_of, kept_reading, aged_in, cookie_in, groups_in};

use association::{Settings, State};
use handover_file::cut::Cookies;
use version::Version;

// The reading of a cookie that a box does not have.
const NO_COOKIE: u64 = 65536;

// The code of the oldest cookie.
const FIRST_COOKIE: u8 = 32;

// A field of two associations: its code, both readings, for a cookie the place of the first stored byte that differs, and whether the two agree.
// Kept: the flag `same` stays, since the readings of a cookie are its lengths, and these can agree where the bytes differ.
#[derive(Clone, Copy)]
pub struct Field {
    pub code: u8,
    pub left: u64,
    pub right: u64,
    pub place: u16,
    // Kept: a flag: the definition of a field, `field_of`, has it, and may not change.
    pub same: bool,
}

// All fields of two associations, in the order of the file.
#[derive(Clone, Copy)]
pub struct Groups {
    pub settings: [Field; 8],
    pub capacity: Field,
    pub read: Field,
    pub cookies: [Field; 8],
    pub state: [Field; 8],
}

// What one side is compared by: its settings, its state, and the body of its stash's record, which may be any bytes.
#[derive(Clone, Copy)]
pub struct Compared<'a> {
    pub settings: Settings,
    pub state: State,
    pub stash: &'a [u8],
}

// What is read of a cookie: its length, and its stored bytes.
// Kept, 1: no Option, since the list has a number for a cookie that a box does not have, and that is compared as every other reading.
// Kept, 2: no `Stored` of handover_file, whose length has 16 bits: the number of no cookie is 65536.
#[derive(Clone, Copy)]
struct Kept<'a> {
    number: u64,
    bytes: &'a [u8],
}

// A signed number as 64 bits.
fn bits64(d: i8) -> u64
    ensures { result ≡ bits64 d }
{
    words::i64_as_u64(i64::from(d))
}

fn version_number(v: Version) -> u64
    ensures { result ≡ version_number v }
{
    let [kind, tries] = handover_groups::version_bytes(v);
    u64::from(kind) * 256 + u64::from(tries)
}

fn settings_numbers(s: Settings) -> [u64; 8]
    ensures { result ≡ settings_numbers s }
{
    [
        bits64(s.min.0),
        bits64(s.max.0),
        u64::from(s.startup),
        s.window,
        s.upgrademark,
        version_number(s.start),
        u64::from(s.nts),
        u64::from(s.source.0),
    ]
}

fn state_numbers(s: State) -> [u64; 8]
    ensures { result ≡ state_numbers s }
{
    [
        u64::from(s.effort.reach.0),
        u64::from(s.effort.tries),
        version_number(s.version),
        bits64(s.polls.last.0),
        bits64(s.polls.remote.0),
        u64::from(s.source.stratum),
        u64::from(s.source.refid.0),
        u64::from(s.source.denial),
    ]
}

// A field that is a number.
// Kept: a number for the field: its code is the byte that the list has of it.
fn number(code: u8, left: u64, right: u64) -> Field
    ensures { result ≡ field_of code (plain left) (plain right) }
{
    Field {
        code,
        left,
        right,
        place: 0,
        same: left == right,
    }
}

// Eight numbers, with codes from `first` on.
fn eight(first: u8, l: [u64; 8], r: [u64; 8]) -> [Field; 8]
    requires { first ≤ 48 }
    ensures { result ≡ map (number_of first l r) ages }
{
    std::array::from_fn(|i| number(first + i as u8, l[i], r[i]))
}

// The place of the first byte that differs, or the end of the shorter one.
// promise: no10.2
fn place_of(l: &[u8], r: &[u8]) -> usize
    ensures { result ≡ place_of l.now r.now }
{
    for (i, x) in l.iter().enumerate() {
        if r.len() <= i || r[i] != *x {
            return i;
        }
    }
    l.len()
}

// The cookie of an age; 0 is the oldest.
// promise: no10.2
fn aged(body: &[u8], age: u8) -> Kept<'_>
    ensures is { kept_reading result ≡ aged_in body.now age }
    ensures sized { length result.bytes.now ≡ stored result.number }
{
    match Cookies::new(body).nth(usize::from(age)) {
        Some(cookie) => Kept {
            number: u64::from(cookie.len),
            bytes: cookie.bytes,
        },
        None => Kept {
            number: NO_COOKIE,
            bytes: &[],
        },
    }
}

// The field of the cookies of an age, each read from its own body.
// promise: no10.2
fn cookie_field(l: &[u8], r: &[u8], age: u8) -> Field
    requires { age < 8 }
    ensures { result ≡ cookie_in l.now r.now age }
{
    let a = aged(l, age);
    let b = aged(r, age);
    let place = place_of(a.bytes, b.bytes);
    Field {
        code: FIRST_COOKIE + age,
        left: a.number,
        right: b.number,
        place: place as u16,
        same: a.number == b.number && place == a.bytes.len(),
    }
}

fn cookie_fields(l: &[u8], r: &[u8]) -> [Field; 8]
    ensures { result ≡ map (cookie_in l.now r.now) ages }
{
    std::array::from_fn(|age| cookie_field(l, r, age as u8))
}

// All fields, including those that agree.
// promise: no10.1 (over settings, state and the stash's body on each side; `specs/Steps`: `groups_in`)
pub fn fields(l: Compared, r: Compared) -> Groups
    ensures { result
        ≡ groups_in l.entry.settings l.entry.state l.entry.stash.now r.entry.settings r.entry.state r.entry.stash.now }
{
    Groups {
        settings: eight(
            1,
            settings_numbers(l.settings),
            settings_numbers(r.settings),
        ),
        capacity: number(
            9,
            u64::from(l.settings.capacity),
            u64::from(r.settings.capacity),
        ),
        read: number(
            16,
            u64::from(handover_load::place_of(l.stash)),
            u64::from(handover_load::place_of(r.stash)),
        ),
        cookies: cookie_fields(l.stash, r.stash),
        state: eight(48, state_numbers(l.state), state_numbers(r.state)),
    }
}
