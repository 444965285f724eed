// Finds the records of the hand-over file one by one, in their order, and the cookies in the stash's body.
// Promises: for any bytes, whether all six records are there and nothing else, or which of a wrong mark (61) and a wrong length (62) comes first in the file.
// Rule: RULES, No. 6 and No. 12; the file is defined in specs/File.antt, the steps at an offset in specs/Steps.antt.
ghost use Rattle.std.specs.Prelude.{◌≡◌, true, ◌<◌, List, ◌∷◌, [], length, IfOk, MatchResult};
ghost use Rattle.handover_file.specs.Sections.{Shape, bodies, before, cut_as};
ghost use Rattle.handover_file.specs.Cookies.{stash_fits};
ghost use Rattle.handover_file.specs.File.{shapes};
ghost use Rattle.handover_file.specs.Given.{given_in, cookies_left};
ghost use Rattle.handover_file.specs.Steps.{mark_of, fits_of, shape_of, fault_of, held_at, stop_of};

// How many bytes the settings have. A file from before No. 12 has no capacity, so its settings have one byte less.
const SETTINGS_LENGTH: usize = 27;

const OLD_LENGTH: usize = 26;

// The six records.
#[derive(Clone, Copy, PartialEq, Eq)]
pub enum Section {
    Settings,
    Stash,
    Effort,
    Version,
    Polls,
    Source,
}

impl Section {
    // The mark: S E, S T, R E, V E, P O, S O.
    // Kept: the numbers are bytes of the file, definition `mark_of`.
    pub fn mark(self) -> u16
        ensures { result ≡ mark_of self }
    {
        match self {
            Section::Settings => 0x5345,
            Section::Stash => 0x5354,
            Section::Effort => 0x5245,
            Section::Version => 0x5645,
            Section::Polls => 0x504F,
            Section::Source => 0x534F,
        }
    }

    // Whether a body fits the record.
    fn fits(self, body: &[u8]) -> bool
        ensures { result ≡ fits_of self body.now }
    {
        match self {
            Section::Settings => body.len() == SETTINGS_LENGTH || body.len() == OLD_LENGTH,
            Section::Stash => stash_fits(body),
            Section::Effort | Section::Version | Section::Polls => body.len() == 2,
            Section::Source => body.len() == 6,
        }
    }
}

// Why a file is not cut into its records: 61 or 62.
#[derive(Clone, Copy, PartialEq, Eq)]
pub enum Fault {
    Misplaced,
    Missized,
}

// The bodies of the six records. That of the stash ends with its last cookie.
#[derive(Clone, Copy)]
pub struct Bodies<'a> {
    pub settings: &'a [u8],
    pub stash: &'a [u8],
    pub effort: &'a [u8],
    pub version: &'a [u8],
    pub polls: &'a [u8],
    pub source: &'a [u8],
    ghost fits: { stash_fits stash.now ≡ true },
    ghost short: { length stash.now < 65536 },
}

// What is at an offset of the stash's body: a cookie's length, and its stored bytes from start to before end; the end of the body; or something broken.
// Kept: neither an Option nor a Result: a walk ends alike at two of the three, and the definition `held_at` tells all three apart by name.
#[derive(Clone, Copy)]
pub enum Held {
    One { len: u16, start: usize, end: usize },
    End,
    Broken,
}

// A cookie of the stash's body: its length, and its stored bytes.
// Kept: a length beside the bytes: a cookie of over 724 bytes has a length and no bytes. No twin of the walks, which are bytes and a place in them.
#[derive(Clone, Copy)]
pub struct Stored<'a> {
    pub len: u16,
    pub bytes: &'a [u8],
}

// The cookies of a stash's body, oldest first. It ends at the end of the body, and at something broken.
// Kept: beside `Cookies` of cookielist: a body has no marks, a long cookie of it has no bytes, and an item has the length. One over both would take all that.
#[derive(Clone, Copy)]
pub struct Cookies<'a> {
    body: &'a [u8],
    at: usize,
}

impl<'a> Cookies<'a> {
    // They stand behind the reading place.
    #[tactic(auto, unfolding(crate::specs::Given::given_in, crate::specs::Given::cookies_left))]
    pub fn new(body: &'a [u8]) -> Cookies<'a>
        ensures { cookies_left result ≡ given_in body.now }
    {
        Cookies { body, at: 1 }
    }
}

impl<'a> Iterator for Cookies<'a> {
    ghost use Rattle.std.specs.Iterator.{item_count};
    ghost use Rattle.handover_file.specs.Given.{cookies_left, GivesCookie};

    type Item = Stored<'a>;

    ghost next_gives = { GivesCookie };

    ghost remaining = { item_count cookies_left };

    fn next(&mut self) -> Option<Stored<'a>> {
        let body = self.body;
        let Held::One { len, start, end } = held_at(body, self.at) else {
            return None;
        };
        self.at = end;
        Some(Stored {
            len,
            bytes: &body[start..end],
        })
    }
}

// Takes the record that stands first off the rest of a file: its body, and what follows it.
fn take_record(rest: &[u8], section: Section) -> Result<(&[u8], &[u8]), Fault>
    ensures cuts { (ss : List Shape) → MatchResult result
        (λ p. cut_as (shape_of section ∷ ss) rest.now ≡ before p.0.now (cut_as ss p.1.now))
        (λ e. cut_as (shape_of section ∷ ss) rest.now ≡ fault_of e) }
    ensures fits { IfOk result (λ p. fits_of section p.0.now ≡ true) }
    ensures short { IfOk result (λ p. length p.0.now < 65536) }
{
    if rest.len() < 2 {
        return Err(Fault::Missized);
    }
    if words::be16_at(rest, 0) != section.mark() {
        return Err(Fault::Misplaced);
    }
    if rest.len() < 4 {
        return Err(Fault::Missized);
    }
    let len = usize::from(words::be16_at(rest, 2));
    let Some((body, behind)) = rest[4..].split_at_checked(len) else {
        return Err(Fault::Missized);
    };
    if !section.fits(body) {
        return Err(Fault::Missized);
    }
    Ok((body, behind))
}

// The cookie at an offset of the stash's body.
pub fn held_at(b: &[u8], at: usize) -> Held
    ensures { result ≡ held_at b.now at }
{
    if b.len() < at {
        return Held::Broken;
    }
    let rest = b.len() - at;
    if rest == 0 {
        return Held::End;
    }
    if rest < 2 {
        return Held::Broken;
    }
    let len = words::be16_at(b, at);
    let n = cookiestash::stored_bytes(usize::from(len));
    if rest - 2 < n {
        return Held::Broken;
    }
    let start = at + 2;
    Held::One {
        len,
        start,
        end: start + n,
    }
}

// Whether a body has the reading place, and its cookies end where the body ends.
fn stash_fits(b: &[u8]) -> bool
    ensures { result ≡ stash_fits b.now }
{
    if b.is_empty() {
        return false;
    }
    let mut at = 1;
    // Kept: `while let` over `held_at`. By `Cookies`, as in `list_whole` of cookielist, it would take a loop with no body and one more method.
    while let Held::One { end, .. } = held_at(b, at) {
        at = end;
    }
    at == b.len()
}

// The bodies of a file's records, which stand in their order; nothing may follow them.
pub fn bodies_of(f: &[u8]) -> Result<Bodies<'_>, Fault>
    ensures { MatchResult result
        (λ b. cut_as shapes f.now ≡ bodies (b.settings.now ∷ b.stash.now ∷ b.effort.now ∷ b.version.now ∷ b.polls.now ∷ b.source.now ∷ []))
        (λ e. cut_as shapes f.now ≡ fault_of e) }
{
    let (settings, rest) = take_record(f, Section::Settings)?;
    let (stash, rest) = take_record(rest, Section::Stash)?;
    let (effort, rest) = take_record(rest, Section::Effort)?;
    let (version, rest) = take_record(rest, Section::Version)?;
    let (polls, rest) = take_record(rest, Section::Polls)?;
    let (source, rest) = take_record(rest, Section::Source)?;
    if !rest.is_empty() {
        return Err(Fault::Missized);
    }
    Ok(Bodies {
        settings,
        stash,
        effort,
        version,
        polls,
        source,
    })
}

// Whether a file is cut into its records, or why not.
// promise: no6.7, no12.5
pub fn cut(f: &[u8]) -> Result<(), Fault>
    ensures { result ≡ stop_of (cut_as shapes f.now) }
{
    bodies_of(f)?;
    Ok(())
}
