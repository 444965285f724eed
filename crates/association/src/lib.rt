// The association's settings and record, when a record is whole, and how a new one is made.
// Promises: `new` returns 0 with a whole record, or 30, 33 or 38 with the blank record, each exactly when its rule says so.
// Rule: RULES, "Settings and a whole record", No. 5, No. 12 and No. 14; definitions in specs/Settings.antt, specs/Record.antt and specs/New.antt.
#![tactic(auto)]

ghost use Rattle.std.specs.Prelude.{◌≡◌, ◌&&◌, ◌||◌, eqb, Err};
ghost use Rattle.std.proofs.Common.{rules};
ghost use Rattle.words.specs.Bytes.{zeros};
ghost use Rattle.association.specs.Settings.{limits_valid, settings_valid};
ghost use Rattle.association.specs.Record.{no_pending, effort_valid, versions_valid, pending_valid, whole_seen, whole_of, blank_of, fresh_of};
ghost use Rattle.association.specs.New.{number_of, new_of};

use answers::Refusal;
use cookiestash::{CookieStash, Dropped, Seen};
use identifiers::ReferenceId;
use reach::Reach;
use time_types::PollInterval;
use version::{ProtocolVersion, Version};

// The largest poll exponent that a limit may be.
pub const MAX_POLL: i8 = 17;

// The longest window that settings may have, in nanoseconds.
pub const MAX_WINDOW: u64 = 60000000000;

// Kept: `nts` is a setting of its own, and the others count whatever it says.
#[derive(Clone, Copy)]
pub struct Settings {
    // The limits of the poll exponent.
    pub min: PollInterval,
    pub max: PollInterval,
    // The association gives up after this many polls without an answer.
    pub startup: u8,
    // How long a request stays live, in nanoseconds.
    pub window: u64,
    // The reference timestamp of an upgrade request. It is kept and handed over; no call of an association reads it (RULES, No. 14).
    pub upgrademark: u64,
    pub start: Version,
    pub nts: bool,
    // The source's own identifier.
    pub source: ReferenceId,
    // How many cookies the stash holds at most.
    pub capacity: u8,
}

// How the polls went: the reach register, and how many were sent.
#[derive(Clone, Copy)]
pub struct Effort {
    pub reach: Reach,
    pub tries: u8,
    // How many of the last eight polls were sent since the newest answer. The register implies it; it is stored too, so that no call has to count bits.
    pub unanswered: u8,
}

// The poll exponent last used, and the least that the source allows.
#[repr(C)]
#[derive(Clone, Copy)]
pub struct Polls {
    pub last: PollInterval,
    pub remote: PollInterval,
}

// What the source last reported about itself, and whether it has denied service since.
// Kept: `denial` is told beside the rest, which counts whatever it says.
#[derive(Clone, Copy)]
pub struct Source {
    pub stratum: u8,
    pub refid: ReferenceId,
    pub denial: bool,
}

// The pending request. If there is none, its numbers are zero.
// Kept: a flag beside its numbers, since a record may break the rule that an absent request has zeros, and then it is not whole: an Option cannot say so.
#[derive(Clone, Copy)]
pub struct Pending {
    pub present: bool,
    pub id: u64,
    pub uid: [u8; 32],
    pub deadline: u64,
    // Whether a reply has been measured since the last poll was sent: this says why nothing is pending.
    pub answered: bool,
}

// What the calls change in an association, except its cookies.
#[derive(Clone, Copy)]
pub struct State {
    pub effort: Effort,
    pub version: Version,
    pub polls: Polls,
    pub source: Source,
    pub request: Pending,
}

// The settings never change. The cookies are many bytes and rarely change. The state is small, and every call changes it.
#[derive(Clone, Copy)]
pub struct Association {
    pub settings: Settings,
    pub stash: CookieStash,
    pub state: State,
}

impl Settings {
    // Whether the poll limits are in order, and from 0 to the largest.
    fn limits_valid(self) -> bool
        ensures { result ≡ limits_valid self.min.0 self.max.0 }
    {
        0 <= self.min.0 && self.min.0 <= self.max.0 && self.max.0 <= MAX_POLL
    }

    // Whether the settings are within their ranges.
    // promise: whole.1, no12.1
    #[tactic(auto, unfolding(crate::specs::Settings::settings_valid))]
    pub fn valid(self) -> bool
        ensures { result ≡ settings_valid self }
    {
        self.limits_valid()
            && (1..=8).contains(&self.startup)
            && (1..=MAX_WINDOW).contains(&self.window)
            && (1..=8).contains(&self.capacity)
    }

    // What `new` answers for these settings and a first list.
    // promise: whole.4, no12.1, no14.1
    #[tactic(auto, unfolding(crate::specs::New::new_of))]
    pub fn tested(self, list: &[u8]) -> Result<(), NewRefusal>
        ensures { result ≡ (new_of self list.now).answer }
    {
        if !self.valid() {
            return Err(NewRefusal::BadSettings);
        }
        if cookielist::list_broken(self.nts, list) {
            return Err(NewRefusal::BrokenList);
        }
        if self.start.is_upgrading() {
            return Err(NewRefusal::Retired);
        }
        Ok(())
    }
}

impl Effort {
    // Whether the number of unanswered polls is the one that the register implies.
    // promise: whole.2, no8.6
    #[tactic(auto, unfolding(crate::specs::Record::effort_valid))]
    fn valid(self) -> bool
        ensures { result ≡ effort_valid self }
    {
        self.unanswered == self.reach.unanswered_polls()
    }
}

impl Pending {
    // No request is pending: one was answered, or none was sent.
    #[tactic(auto, unfolding(crate::specs::Record::no_pending))]
    pub fn none(answered: bool) -> Pending
        ensures { result ≡ no_pending answered }
    {
        Pending {
            present: false,
            id: 0,
            uid: [0u8; 32],
            deadline: 0,
            answered,
        }
    }

    // Whether a pending request is unanswered, and an absent one is zero. `zero` says whether its identifier is: one test serves this and `idle_valid`.
    // promise: whole.2, no3.3
    #[tactic(auto, unfolding(crate::specs::Record::pending_valid))]
    fn valid(self, zero: bool) -> bool
        requires { zero ≡ zeros self.uid }
        ensures { result ≡ pending_valid self }
    {
        if self.present {
            return !self.answered;
        }
        self.id == 0 && self.deadline == 0 && zero
    }
}

// Whether an identifier is zero.
fn zero_uid(uid: [u8; 32]) -> bool
    ensures { result ≡ zeros uid }
{
    words::zeros_from(&uid, 0)
}

// Whether what only NTS uses is zero if there is no NTS: the reading place, the count, and the identifier. `zero` says whether the identifier is zero.
fn idle_valid(nts: bool, read: usize, held: usize, zero: bool) -> bool
    ensures { result ≡ (nts || (eqb read 0 && (eqb held 0 && zero))) }
{
    nts || (read == 0 && held == 0 && zero)
}

// Whether neither the start version nor the version is of the retired kind.
#[tactic(auto, unfolding(crate::specs::Record::versions_valid))]
fn versions_valid(start: Version, spoken: Version) -> bool
    ensures { result ≡ versions_valid start spoken }
{
    !start.is_upgrading() && !spoken.is_upgrading()
}

impl State {
    // The state of a new association.
    #[tactic(auto, unfolding(crate::specs::Record::fresh_of))]
    pub fn fresh(settings: Settings) -> State
        ensures { result ≡ (fresh_of settings).state }
    {
        State {
            effort: Effort {
                reach: Reach::never(),
                tries: 0,
                unanswered: 8,
            },
            version: settings.start,
            polls: Polls {
                last: settings.min,
                remote: settings.min,
            },
            source: Source {
                stratum: 16,
                refid: ReferenceId::NONE,
                denial: false,
            },
            request: Pending::none(false),
        }
    }
}

// Whether a record is whole, given its settings, the summary of its stash, and its state.
// Kept: settings, summary and state apart, as the definition `whole_seen` has them: a struct of the three would be made at each reading and opened here.
// promise: whole.2, no8.6, no14.3 (and by it every call)
#[tactic(auto, unfolding(crate::specs::Record::whole_seen, crate::specs::Record::idle_valid))]
pub fn whole_seen(settings: Settings, seen: Seen, state: State) -> bool
    ensures { result ≡ whole_seen settings seen state }
{
    let zero = zero_uid(state.request.uid);
    settings.valid()
        && seen.whole
        && state.effort.valid()
        && versions_valid(settings.start, state.version)
        && state.request.valid(zero)
        && idle_valid(settings.nts, seen.read, seen.held, zero)
}

impl Association {
    // The blank record: all zero, V4.
    // promise: whole.4
    #[tactic(auto, unfolding(crate::specs::Record::blank_of))]
    pub fn blank() -> Association
        ensures { result ≡ blank_of }
    {
        let zero = PollInterval(0);
        let version = Version {
            kind: ProtocolVersion::V4,
        };
        Association {
            settings: Settings {
                min: zero,
                max: zero,
                startup: 0,
                window: 0,
                upgrademark: 0,
                start: version,
                nts: false,
                source: ReferenceId(0),
                capacity: 0,
            },
            stash: CookieStash::new(),
            state: State {
                effort: Effort {
                    reach: Reach::never(),
                    tries: 0,
                    unanswered: 0,
                },
                version,
                polls: Polls {
                    last: zero,
                    remote: zero,
                },
                source: Source {
                    stratum: 0,
                    refid: ReferenceId(0),
                    denial: false,
                },
                request: Pending::none(false),
            },
        }
    }

    // promise: whole.2, no12.3
    #[tactic(auto, unfolding(crate::specs::Record::whole_of))]
    pub fn whole(self) -> bool
        ensures { result ≡ whole_of self }
    {
        let seen = self.stash.seen(self.settings.capacity);
        whole_seen(self.settings, seen, self.state)
    }

    // A new association with its settings, before it has a cookie.
    #[tactic(auto, unfolding(crate::specs::Record::fresh_of))]
    fn fresh(settings: Settings) -> Association
        ensures { result ≡ fresh_of settings }
    {
        Association {
            settings,
            stash: CookieStash::new(),
            state: State::fresh(settings),
        }
    }

    // Makes an association. With NTS it stores a first cookie list, and reports what fell out.
    // promise: whole.4, no5.5, no12.1, no12.2, no14.1
    #[tactic(auto, unfolding(crate::specs::New::new_of, crate::specs::New::made_of, crate::specs::New::first_dropped))]
    pub fn new(settings: Settings, list: &[u8]) -> NewOut
        ensures { result ≡ new_of settings list.now }
    {
        let answer = settings.tested(list);
        if answer.is_err() {
            return NewOut {
                answer,
                dropped: Dropped::none(),
                association: Association::blank(),
            };
        }
        let fresh = Association::fresh(settings);
        if !settings.nts {
            return NewOut {
                answer,
                dropped: Dropped::none(),
                association: fresh,
            };
        }
        let stored = fresh.stash.store_list(settings.capacity, list);
        NewOut {
            answer,
            dropped: stored.dropped,
            association: Association {
                stash: stored.stash,
                ..fresh
            },
        }
    }
}

// Why no association is made.
#[derive(Clone, Copy, Debug, PartialEq, Eq)]
pub enum NewRefusal {
    BadSettings,
    BrokenList,
    // The start version is of the retired kind.
    Retired,
}

impl Refusal for NewRefusal {
    ghost number_of = { λ e. number_of (Err e) };

    // promise: whole.4
    fn number(self) -> u8 {
        match self {
            NewRefusal::BadSettings => 30,
            NewRefusal::BrokenList => 33,
            NewRefusal::Retired => 38,
        }
    }

    ghost never_zero = { Prim.search rules };
}

// What `new` returns: its answer, what fell out while the first list was stored, and the association, which is blank if it was rejected.
#[derive(Clone, Copy)]
pub struct NewOut {
    pub answer: Result<(), NewRefusal>,
    pub dropped: Dropped,
    pub association: Association,
}
