// The writer of the hand-over file: at power-down it writes the association, with its cookies, to a file.
// Promises: the file byte by byte, and nothing past it; a rejected call writes nothing; the returned association has no cookie and is otherwise unchanged.
// Rule: RULES, No. 6 and No. 12; the file is defined in `handover_file`, how bytes are written to the buffer in `words`.
#![tactic(auto)]

ghost use Rattle.std.specs.Prelude.{◌≡◌, ◌+◌, ◌≤◌, length};
ghost use Rattle.words.specs.Put.{Put, laid, lay_of, record_of};
ghost use Rattle.cookiestash.specs.Stash.{slot_at};
ghost use Rattle.cookiestash.specs.Whole.{seen_of, Typed, Whole};
ghost use Rattle.cookiestash.specs.Queue.{seen, cookies};
ghost use Rattle.association.specs.declared.Association.{Association};
ghost use Rattle.handover_groups.specs.Settings.{settings_bytes};
ghost use Rattle.handover_file.specs.Cookies.{cookie_bytes, cookies_bytes, stash_bytes, empty_at};
ghost use Rattle.handover_file.specs.Given.{cookie_of};
ghost use Rattle.handover_file.specs.Answers.{save_of, buffer_of, handed, handed_of};
ghost use Rattle.handover_save.specs.Groups.{state_records, groups_file};

use association::{Association, Settings, State};
use cookiestash::{CookieStash, Seen};
use handover_file::cut::{Section, Stored};
use handover_file::{SaveOut, SaveRefusal};

// How many bytes a file has besides the stash's body.
const BESIDES: usize = 63;

// What can be saved: an association by value, or one in lent bytes.
pub trait Savable {
    // What is saved.
    ghost association: { Self → Association };

    fn settings(&self) -> Settings
        ensures { result ≡ (association self.now).settings };

    fn state(&self) -> State
        ensures { result ≡ (association self.now).state };

    // The summary of its stash, which is at least one that the types allow.
    fn seen(&self) -> Seen
        ensures tells { result ≡ seen_of (association self.now).settings.capacity (association self.now).stash }
        ensures typed { Typed (association self.now).stash };

    // The place of the oldest cookie, and how many there are.
    fn read(&self) -> usize
        ensures { result ≡ (association self.now).stash.read };

    fn held(&self) -> usize
        ensures { result ≡ (association self.now).stash.held };

    // What the slot at a place holds; nothing where there is no slot.
    fn cookie(&self, place: usize) -> Stored<'_>
        ensures { cookie_of result ≡ seen (slot_at (association self.now).stash.slots place) };
}

// The summary of a stash by value, whose slots have the sizes that its type says.
fn see(stash: CookieStash, capacity: u8) -> Seen
    ensures tells { result ≡ seen_of capacity stash }
    ensures typed { Typed stash }
{
    stash.seen(capacity)
}

impl Savable for Association {
    ghost association = { λ a. a };

    fn settings(&self) -> Settings {
        self.settings
    }

    fn state(&self) -> State {
        self.state
    }

    fn seen(&self) -> Seen {
        see(self.stash, self.settings.capacity)
    }

    fn read(&self) -> usize {
        self.stash.read
    }

    fn held(&self) -> usize {
        self.stash.held
    }

    fn cookie(&self, place: usize) -> Stored<'_> {
        let Some(slot) = self.stash.slots.get(place) else {
            return Stored { len: 0, bytes: &[] };
        };
        let n = cookiestash::stored_bytes(usize::from(slot.len));
        Stored {
            len: slot.len,
            bytes: &slot.bytes[..n],
        }
    }
}

// What is saved, after the test that its stash is whole.
#[derive(Drop)]
struct Tested<'a, S: Savable> {
    of: &'a S,
    ghost whole: { Whole (S.association of.now).settings.capacity (S.association of.now).stash },
}

// Writes a cookie's length and its stored bytes.
// Kept: a buffer and a place, as `words::lay` has them: writers in a row pass the place on; of a rest cut off each caller would add the places up.
fn put_cookie(out: &mut [u8], at: usize, cookie: Stored<'_>) -> usize
    requires { at + length (cookie_bytes (cookie_of cookie)) ≤ length out.old }
    ensures { Put out.old at (cookie_bytes (cookie_of cookie.entry)) result out.new }
{
    let to = words::lay(out, at, &words::be16_bytes(cookie.len));
    words::lay(out, to, cookie.bytes)
}

// Writes the cookies, oldest first.
// Kept: a buffer and a place, as at `put_cookie`.
fn put_cookies<S: Savable>(out: &mut [u8], at: usize, a: &Tested<S>) -> usize
    requires { at + length (cookies_bytes (cookies (S.association a.now.of.now).settings.capacity (S.association a.now.of.now).stash)) ≤ length out.old }
    ensures { Put out.old at (cookies_bytes (cookies (S.association a.now.of.now).settings.capacity (S.association a.now.of.now).stash)) result out.new }
{
    let capacity = usize::from(a.of.settings().capacity);
    let read = a.of.read();
    let mut to = at;
    for age in 0..a.of.held() {
        let place = cookiestash::wrapped(capacity, read + age);
        to = put_cookie(out, to, a.of.cookie(place));
    }
    to
}

// How long the stash's body is: the reading place, and two bytes and the stored ones for each cookie.
fn stash_length<S: Savable>(a: &Tested<S>) -> usize
    ensures { result ≡ length (stash_bytes (S.association a.now.of.now).settings.capacity (S.association a.now.of.now).stash) }
{
    let capacity = usize::from(a.of.settings().capacity);
    let read = a.of.read();
    let mut sum = 1;
    for age in 0..a.of.held() {
        let place = cookiestash::wrapped(capacity, read + age);
        sum += 2 + a.of.cookie(place).bytes.len();
    }
    sum
}

// Writes the stash's record: the reading place, then the cookies.
// Kept: a buffer and a place, as at `put_cookies`.
fn put_stash<S: Savable>(out: &mut [u8], at: usize, a: &Tested<S>, len: usize) -> usize
    requires { (len ≡ length (stash_bytes (S.association a.now.of.now).settings.capacity (S.association a.now.of.now).stash))
        × (len ≤ 65535) × (at + (4 + len) ≤ length out.old) }
    ensures { (result ≡ at + (4 + len))
        × (Put out.old at (record_of 0x5354 (stash_bytes (S.association a.now.of.now).settings.capacity (S.association a.now.of.now).stash)) result out.new) }
{
    let to = words::lay(
        out,
        at,
        &words::be16_pair(Section::Stash.mark(), len as u16),
    );
    let to = words::lay(out, to, &[a.of.read() as u8]);
    put_cookies(out, to, a)
}

// Writes the record of the settings, as `words::lay` does.
// Kept: a buffer and a place, which the contract names, and the definition `lay_of` in it.
fn lay_settings(out: &mut [u8], at: usize, settings: Settings) -> usize
    ensures { laid result out.new ≡ lay_of out.old at (record_of 0x5345 (settings_bytes settings)) }
{
    let first = handover_groups::settings_bytes(settings);
    words::lay_record(out, at, Section::Settings.mark(), &first)
}

// Writes the records of the state, as `words::lay` does; the pending request is not written.
// Kept: a buffer and a place, as at `lay_settings`.
fn lay_state(out: &mut [u8], at: usize, state: State) -> usize
    ensures { laid result out.new ≡ lay_of out.old at (state_records state) }
{
    if !words::fits(out.len(), at, 28) {
        return at;
    }
    let effort = handover_groups::effort_bytes(state.effort);
    let version = handover_groups::version_bytes(state.version);
    let polls = handover_groups::polls_bytes(state.polls);
    let source = handover_groups::source_bytes(state.source);
    let to = words::lay_record(out, at, Section::Effort.mark(), &effort);
    let to = words::lay_record(out, to, Section::Version.mark(), &version);
    let to = words::lay_record(out, to, Section::Polls.mark(), &polls);
    words::lay_record(out, to, Section::Source.mark(), &source)
}

// Writes the whole file to the start of the buffer.
fn put_file<S: Savable>(out: &mut [u8], a: &Tested<S>, len: usize) -> usize
    requires { (len ≡ length (stash_bytes (S.association a.now.of.now).settings.capacity (S.association a.now.of.now).stash))
        × (len ≤ 65535) × (63 + len ≤ length out.old) }
    ensures { Put out.old 0
        (groups_file (S.association a.now.of.now).settings (S.association a.now.of.now).stash (S.association a.now.of.now).state) result out.new }
{
    let to = lay_settings(out, 0, a.of.settings());
    let to = put_stash(out, to, a, len);
    lay_state(out, to, a.of.state())
}

// Writes the file of what is saved, and answers how long it is.
// promise: no6.1, no6.6, no12.5
pub fn write<S: Savable>(a: &S, buffer: &mut [u8]) -> Result<usize, SaveRefusal>
    ensures answers { result ≡ (save_of (S.association a.now) (length buffer.old)).answer }
    ensures leaves { buffer.new ≡ buffer_of (S.association a.now) buffer.old }
{
    if !association::whole_seen(a.settings(), a.seen(), a.state()) {
        return Err(SaveRefusal::NotWhole);
    }
    let whole = Tested { of: a };
    let n = stash_length(&whole);
    let len = BESIDES + n;
    if buffer.len() < len {
        return Err(SaveRefusal::ShortBuffer);
    }
    put_file(buffer, &whole, n);
    Ok(len)
}

// An empty stash with a reading place.
fn emptied(read: usize) -> CookieStash
    ensures { result ≡ empty_at read }
{
    CookieStash {
        read,
        ..CookieStash::new()
    }
}

// Writes the file of an association, and returns the association without its cookies: a cookie has one owner.
// Kept: no twin of the drill's `save`, which prints what this gives.
// promise: no6.1, no6.2, no6.6, no12.5
pub fn save(a: Association, buffer: &mut [u8]) -> SaveOut
    ensures { handed result buffer.new ≡ handed_of a buffer.old }
{
    match write(&a, buffer) {
        Ok(len) => SaveOut {
            answer: Ok(len),
            association: Association {
                stash: emptied(a.stash.read),
                ..a
            },
        },
        Err(refusal) => SaveOut {
            answer: Err(refusal),
            association: a,
        },
    }
}
