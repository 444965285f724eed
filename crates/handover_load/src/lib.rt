// The readers of the hand-over file: by value, for a box that is swapped in and starts with the association of the one before it; and in place, module `read`.
// Promises: for any bytes both give the answer of the file's definition; the first fault decides between 61 and 62; a rejected file leaves the blank record.
// Rule: RULES, No. 6, No. 12 and No. 14; `handover_file` defines the file, specs/Reading.antt reading in place.
#![tactic(auto)]

pub mod read;

ghost use Rattle.std.specs.Prelude.{◌≡◌, true, ◌≤◌, ◌<◌, length, get_or};
ghost use Rattle.cookiestash.specs.Stash.{stored, put_of};
ghost use Rattle.handover_file.specs.Cookies.{stash_fits, stash_known, slot_for, stash_of};
ghost use Rattle.handover_file.specs.File.{state_in, retired, settled_settings, settled_state};
ghost use Rattle.handover_file.specs.Answers.{load_of};
ghost use Rattle.handover_file.specs.Given.{cookie_of};

use association::{Association, Pending, Settings, State};
use cookiestash::{CookieStash, Slot};
use handover_file::cut::{Cookies, Stored};
use handover_file::{LoadOut, Loaded};

// What a file that loads is read as: whether a version of it is of the retired kind, the settings, the state, and the body of the stash, which is one of their
// capacity.
// Kept: the flag is told beside the rest, which counts whatever it says.
#[derive(Clone, Copy)]
pub struct FileRead<'a> {
    pub retired: bool,
    pub settings: Settings,
    pub state: State,
    pub stash: &'a [u8],
    ghost fits: { stash_fits stash.now ≡ true },
    ghost known: { stash_known settings.capacity stash.now ≡ true },
}

// Puts a cookie of a stash's body after the newest.
fn laid(mut stash: CookieStash, cookie: Stored, capacity: u8) -> CookieStash
    requires { (stash.read < capacity)
        × (stash.held < capacity)
        × (length cookie.bytes.now ≡ stored cookie.len)
        × (capacity ≤ 8) }
    ensures { result ≡ put_of capacity stash (slot_for (cookie_of cookie.entry)) }
{
    let place = cookiestash::wrapped(usize::from(capacity), stash.read + stash.held);
    stash.slots[place] = Slot {
        bytes: cookiestash::kept_bytes(cookie.bytes),
        len: cookie.len,
    };
    stash.held += 1;
    stash
}

// The reading place: the body's first byte, or 0 if there is none.
pub fn place_of(b: &[u8]) -> u8
    ensures { result ≡ get_or b.now 0 0 }
{
    b.first().copied().unwrap_or(0)
}

// The stash of a file that was read.
fn stash_in(found: FileRead) -> CookieStash
    ensures { result ≡ stash_of found.entry.settings.capacity found.entry.stash.now }
{
    let mut stash = CookieStash {
        read: usize::from(place_of(found.stash)),
        ..CookieStash::new()
    };
    for cookie in Cookies::new(found.stash) {
        stash = laid(stash, cookie, found.settings.capacity);
    }
    stash
}

// Reads the state from its four bodies, with nothing pending.
pub fn state_in(effort: &[u8], version: &[u8], polls: &[u8], source: &[u8]) -> State
    ensures { result ≡ state_in effort.now version.now polls.now source.now }
{
    State {
        effort: handover_groups::effort_of(effort),
        version: handover_groups::version_of(version),
        polls: handover_groups::polls_of(polls),
        source: handover_groups::source_of(source),
        request: Pending::none(false),
    }
}

// Whether the start version or the version is of the retired kind.
#[tactic(auto, unfolding(handover_file::specs::File::retired))]
pub fn is_retired(settings: Settings, state: State) -> bool
    ensures { result ≡ retired settings state }
{
    settings.start.is_upgrading() || state.version.is_upgrading()
}

// The settings with V4 in place of the retired kind.
#[tactic(auto, unfolding(handover_file::specs::File::settled_settings))]
pub fn settled_settings(s: Settings) -> Settings
    ensures { result ≡ settled_settings s }
{
    Settings {
        start: s.start.settled(),
        ..s
    }
}

// The state with V4 in place of the retired kind.
// Kept: beside `settled_settings`: one name that stands for two fields of two types would be no plainer than the two lines.
#[tactic(auto, unfolding(handover_file::specs::File::settled_state))]
pub fn settled_state(s: State) -> State
    ensures { result ≡ settled_state s }
{
    State {
        version: s.version.settled(),
        ..s
    }
}

// Reads a file. A loaded association has sent nothing yet.
// promise: no6.7, no12.5, no14.4
pub fn load(file: &[u8]) -> LoadOut
    ensures { result ≡ load_of file.now }
{
    match read::read(file) {
        Ok(found) => LoadOut {
            answer: Ok(Loaded {
                retired: found.retired,
            }),
            association: Association {
                settings: found.settings,
                stash: stash_in(found),
                state: found.state,
            },
        },
        Err(refusal) => LoadOut {
            answer: Err(refusal),
            association: Association::blank(),
        },
    }
}
