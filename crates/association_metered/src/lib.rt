// A profile for metered links, where every packet costs money: the check that returns the first broken rule, and the call that makes such an association.
// Promises: each number exactly when its rule says so, in its order; with 0 the record that `Association::new` makes, and with any other number the blank one.
// Rule: RULES, No. 11, and No. 5 for what fell out; definitions in specs/Profile.antt, number by number in specs/Numbers.antt.
#![tactic(auto)]

ghost use Rattle.std.specs.Prelude.{◌≡◌, Err, false};
ghost use Rattle.std.proofs.Common.{rules};
ghost use Rattle.cookielist.specs.List.{list_broken};
ghost use Rattle.association_metered.specs.Profile.{number_of, long_cookie, profile_of, metered_of};

use answers::Refusal;
use association::{Association, Settings};
use cookielist::Cookies;
use cookiestash::Dropped;

// The least value of the lower poll limit: a poll every four minutes or so.
pub const LEAST_POLL: i8 = 8;

// The most polls that may be sent before the association gives up.
pub const MOST_STARTUP: u8 = 3;

// The longest cookie that the first list may have.
pub const LONGEST_COOKIE: usize = 100;

// The first rule of the profile that is broken.
#[derive(Clone, Copy, Debug, PartialEq, Eq)]
pub enum ProfileRefusal {
    BadSettings,
    BrokenList,
    LowPollMin,
    HighStartup,
    UpgradingStart,
    LongCookie,
}

impl Refusal for ProfileRefusal {
    ghost number_of = { λ refusal. number_of (Err refusal) };

    fn number(self) -> u8 {
        match self {
            ProfileRefusal::BadSettings => 30,
            ProfileRefusal::BrokenList => 33,
            ProfileRefusal::LowPollMin => 34,
            ProfileRefusal::HighStartup => 35,
            ProfileRefusal::UpgradingStart => 36,
            ProfileRefusal::LongCookie => 37,
        }
    }

    ghost never_zero = { Prim.search rules };
}

// Whether a first cookie list, which is not broken, has a cookie over the profile's length. That matters with NTS only.
fn has_long_cookie(nts: bool, list: &[u8]) -> bool
    requires { list_broken nts list.now ≡ false }
    ensures { result ≡ long_cookie nts list.now }
{
    nts && Cookies::new(list).any(|cookie| LONGEST_COOKIE < cookie.len())
}

// Whether settings and first cookie list meet the profile, and if not, which rule is the first that they break. The list counts with NTS only.
// promise: no11.1, no12.1, no14.2
#[tactic(auto, unfolding(crate::specs::Profile::profile_of))]
pub fn profile(settings: Settings, list: &[u8]) -> Result<(), ProfileRefusal>
    ensures { result ≡ profile_of settings list.now }
{
    if !settings.valid() {
        return Err(ProfileRefusal::BadSettings);
    }
    if cookielist::list_broken(settings.nts, list) {
        return Err(ProfileRefusal::BrokenList);
    }
    if settings.min.0 < LEAST_POLL {
        return Err(ProfileRefusal::LowPollMin);
    }
    if MOST_STARTUP < settings.startup {
        return Err(ProfileRefusal::HighStartup);
    }
    if settings.start.is_upgrading() {
        return Err(ProfileRefusal::UpgradingStart);
    }
    if has_long_cookie(settings.nts, list) {
        return Err(ProfileRefusal::LongCookie);
    }
    Ok(())
}

// Kept: beside `NewOut`: no body would be shared, since `metered` calls `new`. Where one body makes both, in record_new, there is one `Made<E>`.
// What `metered` returns: the profile's answer, what fell out while the first list was stored, and the association, which is blank if it was rejected.
#[derive(Clone, Copy)]
pub struct MeteredOut {
    pub answer: Result<(), ProfileRefusal>,
    pub dropped: Dropped,
    pub association: Association,
}

// Makes an association that meets the profile: `Association::new` makes it, and reports what fell out of the list.
// promise: no5.5, no11.2, no12.1
#[tactic(auto, unfolding(crate::specs::Profile::metered_of))]
pub fn metered(settings: Settings, list: &[u8]) -> MeteredOut
    ensures { result ≡ metered_of settings list.now }
{
    let answer = profile(settings, list);
    if answer.is_err() {
        return MeteredOut {
            answer,
            dropped: Dropped::none(),
            association: Association::blank(),
        };
    }
    let made = Association::new(settings, list);
    MeteredOut {
        answer,
        dropped: made.dropped,
        association: made.association,
    }
}
