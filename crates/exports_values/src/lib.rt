// What is passed to C and back: settings, answers and decoded replies as numbers, and what each means to the rules. Module `tools` has the tools' calls.
// Promises: every number is read or written as defined, in fields of one width on every target; settings have one form; tools answer what their calls answer.
// Rule: RULES, "Settings and a whole record", parts 10 to 12, No. 5, 6, 9, 10 and 13; definitions in specs/: Codes.antt has the numbers, Told.antt the tools.
#![tactic(auto)]

pub mod tools;

ghost use Rattle.std.specs.Prelude.{◌≡◌, cond};
ghost use Rattle.exports_values.specs.Codes.{is_kind, version_in, is_bit, truth, send_in};
ghost use Rattle.exports_values.specs.Packed.{unpack_settings, pack_settings, pack_state};
ghost use Rattle.exports_values.specs.Answers.{send_code, unsent, timer_answer, unmeasured, measured_as, reply_answer, new_answer, bloom_in};
ghost use Rattle.exports_values.specs.Answers.{written_as, load_as, no_field, field_as};
ghost use Rattle.exports_values.specs.Decoded.{leap_known, leap_in, mode_in, uid_known, uid_in, bits_ok, kisses_in, decoded_form};

use answers::Refusal;
use association::{Polls, Settings, State};
use association_accept::Bloom;
use cookiestash::Dropped;
use handover_file::Loaded;
use handover_groups::{kind_code, kind_known, kind_of, tries_code};
use identifiers::ReferenceId;
use reach::Reach;
use reply_clauses::Measurement;
use reply_rules::ReplyAnswer;
use time_types::{NtpDuration, NtpTimestamp, PollInterval};
use timer_rules::TimerAnswer;
use version::{SendKind, Version};
use wire_fields::Step;
use wire_groups::Uid;
use wire_header::Kisses;
use wire_incoming::{DecodedMode, DecodedReply, NtpLeapIndicator};

// ---- settings and state

// No padding follows any field: no contract would say what a caller finds there after a call.
#[repr(C)]
#[derive(Clone, Copy)]
pub struct CSettings {
    pub window: u64,
    pub upgrademark: u64,
    pub source: ReferenceId,
    // The version to start with: 0 V4, 1 upgrading, 2 upgraded, 3 V5.
    pub start: u32,
    // 0 or 1.
    pub nts: u16,
    // How many cookies the stash holds at most.
    pub capacity: u8,
    // Always 0, so that there is no padding between the fields.
    pub spare: u8,
    // The tries that are left while upgrading; otherwise 0.
    pub left: u8,
    pub startup: u8,
    pub min: PollInterval,
    pub max: PollInterval,
}

// It has no padding either.
#[repr(C)]
#[derive(Clone, Copy)]
pub struct CState {
    pub reach: Reach,
    pub tries: u8,
    pub polls: Polls,
    pub refid: ReferenceId,
    // The version and the tries left, as in the settings.
    pub version: u32,
    pub left: u8,
    pub stratum: u8,
    // 0 or 1.
    pub denial: u8,
    // How many of the last eight polls were sent since the newest answer.
    pub unanswered: u8,
    pub id: u64,
    pub deadline: u64,
    pub uid: [u8; 32],
    // 0 or 1: whether a reply has been measured since the last sent poll.
    pub answered: u32,
    // 0 or 1: whether a request is pending.
    pub present: u32,
}

// ---- codes

// The version that two numbers name: each version has one name.
fn version_in(start: u32, left: u8) -> Option<Version>
    ensures { result ≡ cond (is_kind start left) (Some (version_in start left)) None }
{
    let code = u8::try_from(start).ok()?;
    if !kind_known(code, left) {
        return None;
    }
    Some(Version {
        kind: kind_of(code, left),
    })
}

// The flag that 0 or 1 is.
// Kept, 1 and 4: C has a flag as a number, and any number may come (include/reckonstile.h); definitions `is_bit` and `truth`.
fn flag_in(code: u32) -> Option<bool>
    ensures { result ≡ cond (is_bit code) (Some (truth code)) None }
{
    match code {
        0 => Some(false),
        1 => Some(true),
        _ => None,
    }
}

// ---- settings in, settings and state out

// The settings, if every code in them is known.
#[tactic(auto, unfolding(crate::specs::Packed::settings_in))]
pub fn unpack_settings(c: CSettings) -> Option<Settings>
    ensures { result ≡ unpack_settings c }
{
    if c.spare != 0 {
        return None;
    }
    Some(Settings {
        min: c.min,
        max: c.max,
        startup: c.startup,
        window: c.window,
        upgrademark: c.upgrademark,
        start: version_in(c.start, c.left)?,
        nts: flag_in(u32::from(c.nts))?,
        source: c.source,
        capacity: c.capacity,
    })
}

impl From<Settings> for CSettings {
    ghost from_gives = { λ s c. c ≡ pack_settings s };

    #[tactic(auto, unfolding(crate::specs::Packed::pack_settings))]
    fn from(s: Settings) -> CSettings {
        CSettings {
            window: s.window,
            upgrademark: s.upgrademark,
            source: s.source,
            start: u32::from(kind_code(s.start.kind)),
            nts: u16::from(s.nts),
            capacity: s.capacity,
            spare: 0,
            left: tries_code(s.start.kind),
            startup: s.startup,
            min: s.min,
            max: s.max,
        }
    }
}

impl From<State> for CState {
    ghost from_gives = { λ s c. c ≡ pack_state s };

    #[tactic(auto, unfolding(crate::specs::Packed::pack_state))]
    fn from(s: State) -> CState {
        let State {
            effort,
            version,
            polls,
            source,
            request,
        } = s;
        // Kept: an array of a field goes into a struct by a name of its own. Straight was tried: the checker says that it does not cover that form.
        let uid = request.uid;
        CState {
            reach: effort.reach,
            tries: effort.tries,
            polls,
            refid: source.refid,
            version: u32::from(kind_code(version.kind)),
            left: tries_code(version.kind),
            stratum: source.stratum,
            denial: u8::from(source.denial),
            unanswered: effort.unanswered,
            id: request.id,
            deadline: request.deadline,
            uid,
            answered: u32::from(request.answered),
            present: u32::from(request.present),
        }
    }
}

// ---- the timer

// A unique identifier. It is a struct because an exported function takes an array only within a struct.
#[repr(C)]
#[derive(Clone, Copy)]
pub struct CUid {
    pub bytes: [u8; 32],
}

// The timer's number, and what is sent: 1 V4, 2 V4 with the upgrade mark, 3 V5, 4 NTS V4, 5 NTS V5; with its poll exponent, how many new cookies it asks for,
// and how many bytes of the buffer its cookie has. If nothing is sent, all but the number is zero.
#[repr(C)]
#[derive(Clone, Copy)]
pub struct CTimerAnswer {
    pub number: u32,
    pub kind: u8,
    pub poll: PollInterval,
    pub asked: u16,
    pub length: u64,
}

// Kept, 1 and 4: C's code (include/reckonstile.h), which no crate below knows; definition `send_code`.
fn send_code(kind: SendKind) -> u8
    ensures { result ≡ send_code kind }
{
    match kind {
        SendKind::V4 => 1,
        SendKind::V4Upgrade => 2,
        SendKind::V5 => 3,
        SendKind::NtsV4 => 4,
        SendKind::NtsV5 => 5,
    }
}

// An answer with which nothing is sent.
// Kept: the number is what C gets.
fn unsent(number: u8) -> CTimerAnswer
    ensures { result ≡ unsent number }
{
    CTimerAnswer {
        number: u32::from(number),
        kind: 0,
        poll: PollInterval(0),
        asked: 0,
        length: 0,
    }
}

impl From<TimerAnswer> for CTimerAnswer {
    ghost from_gives = { λ answer c. c ≡ timer_answer answer };

    fn from(answer: TimerAnswer) -> CTimerAnswer {
        match answer {
            TimerAnswer::Sent {
                kind,
                poll,
                len,
                asked,
            } => CTimerAnswer {
                number: u32::from(answer.number()),
                kind: send_code(kind),
                poll,
                asked: u16::from(asked),
                length: len as u64,
            },
            _ => unsent(answer.number()),
        }
    }
}

// ---- the reply

// The reply's number, and the measurement. If nothing is measured, all but the number is zero.
#[repr(C)]
#[derive(Clone, Copy)]
pub struct CReplyAnswer {
    pub number: u32,
    // 1 if the reply is measured.
    pub measured: u8,
    // 0 no warning, 1 a minute of 61 seconds, 2 one of 59, 3 unknown, 4 unsynchronized.
    pub leap: u8,
    pub stratum: u8,
    pub precision: i8,
    pub delay: NtpDuration,
    pub offset: NtpDuration,
    pub local: NtpTimestamp,
    pub mono: u64,
    pub rootdelay: NtpDuration,
    pub rootdisp: NtpDuration,
}

// An answer with which nothing is measured.
// Kept: the number is what C gets.
fn unmeasured(number: u8) -> CReplyAnswer
    ensures { result ≡ unmeasured number }
{
    let none = NtpDuration(0);
    CReplyAnswer {
        number: u32::from(number),
        measured: 0,
        leap: 0,
        stratum: 0,
        precision: 0,
        delay: none,
        offset: none,
        local: NtpTimestamp(0),
        mono: 0,
        rootdelay: none,
        rootdisp: none,
    }
}

impl From<Measurement> for CReplyAnswer {
    ghost from_gives = { λ m c. c ≡ measured_as m };

    fn from(m: Measurement) -> CReplyAnswer {
        CReplyAnswer {
            number: 0,
            measured: 1,
            leap: m.leap.code(),
            stratum: m.stratum,
            precision: m.precision,
            delay: m.delay,
            offset: m.offset,
            local: m.local,
            mono: m.mono,
            rootdelay: m.rootdelay,
            rootdisp: m.rootdisp,
        }
    }
}

impl From<ReplyAnswer> for CReplyAnswer {
    ghost from_gives = { λ answer c. c ≡ reply_answer answer };

    fn from(answer: ReplyAnswer) -> CReplyAnswer {
        match answer {
            ReplyAnswer::Measured(m) => CReplyAnswer::from(m),
            _ => unmeasured(answer.number()),
        }
    }
}

// What a reply answers, with what fell out of the stash while its cookies were stored.
#[repr(C)]
#[derive(Clone, Copy)]
pub struct CReplied {
    pub answer: CReplyAnswer,
    pub dropped: Dropped,
}

// The decoded form (V5 only), with codes as numbers.
#[repr(C)]
#[derive(Clone, Copy)]
pub struct CDecoded {
    pub rootdelay: NtpDuration,
    pub rootdisp: NtpDuration,
    pub receive: NtpTimestamp,
    pub transmit: NtpTimestamp,
    // The client cookie.
    pub cookie: u64,
    // 0 request, 1 response.
    pub mode: u32,
    // As in `CReplyAnswer`.
    pub leap: u8,
    pub stratum: u8,
    pub poll: PollInterval,
    pub precision: i8,
    // The kisses: 0 or 1 each.
    pub rate: u8,
    pub deny: u8,
    pub rstr: u8,
    pub ntsn: u8,
    pub any: u8,
    // What each group says about the unique identifier: 0 absent, 1 agrees, 2 disagrees.
    pub authenticated: u8,
    pub encrypted: u8,
    pub untrusted: u8,
}

// The leap kind that a number is.
// Kept, 1 and 4: C has a number, and `decoded_form` asks for an Option of the kind, in the words of its definition `leap_in`.
fn leap_in(code: u8) -> Option<NtpLeapIndicator>
    ensures { result ≡ cond (leap_known code) (Some (leap_in code)) None }
{
    NtpLeapIndicator::try_from(code).ok()
}

// Kept, 1 and 4: C's code (include/reckonstile.h), which no crate below knows; definition `mode_in`.
fn mode_in(code: u32) -> Option<DecodedMode>
    ensures { result ≡ cond (is_bit code) (Some (mode_in code)) None }
{
    match code {
        0 => Some(DecodedMode::Request),
        1 => Some(DecodedMode::Response),
        _ => None,
    }
}

// Kept, 1 and 4: C's code (include/reckonstile.h), which no crate below knows; definition `uid_in`.
fn uid_in(code: u8) -> Option<Uid>
    ensures { result ≡ cond (uid_known code) (Some (uid_in code)) None }
{
    match code {
        0 => Some(Uid::Absent),
        1 => Some(Uid::Agree),
        2 => Some(Uid::Disagree),
        _ => None,
    }
}

fn kisses_in(d: CDecoded) -> Option<Kisses>
    ensures { result ≡ cond (bits_ok d.rate d.deny d.rstr d.ntsn d.any) (Some (kisses_in d.rate d.deny d.rstr d.ntsn d.any)) None }
{
    Some(Kisses {
        rate: flag_in(u32::from(d.rate))?,
        deny: flag_in(u32::from(d.deny))?,
        rstr: flag_in(u32::from(d.rstr))?,
        ntsn: flag_in(u32::from(d.ntsn))?,
        any: flag_in(u32::from(d.any))?,
    })
}

// The decoded form, if every code is known.
#[tactic(auto, unfolding(crate::specs::Decoded::decoded_ok, crate::specs::Decoded::decoded_in))]
pub fn decoded_form(d: CDecoded) -> Option<DecodedReply>
    ensures { result ≡ decoded_form d }
{
    Some(DecodedReply {
        leap: leap_in(d.leap)?,
        mode: mode_in(d.mode)?,
        stratum: d.stratum,
        poll: d.poll,
        precision: d.precision,
        rootdelay: d.rootdelay,
        rootdisp: d.rootdisp,
        receive: d.receive,
        transmit: d.transmit,
        cookie: d.cookie,
        kisses: kisses_in(d)?,
        authenticated: uid_in(d.authenticated)?,
        encrypted: uid_in(d.encrypted)?,
        untrusted: uid_in(d.untrusted)?,
    })
}

// ---- new, accept

// What `new` and `metered` answer: the number, and what fell out of the first list.
#[repr(C)]
#[derive(Clone, Copy)]
pub struct CNewAnswer {
    pub number: u32,
    // 1 if the association is made.
    pub made: u32,
    pub dropped: Dropped,
}

// Kept: the number is what C gets.
pub fn new_answer(number: u8, dropped: Dropped) -> CNewAnswer
    ensures { result ≡ new_answer number dropped }
{
    CNewAnswer {
        number: u32::from(number),
        made: u32::from(number == 0),
        dropped,
    }
}

// 0 is no filter, 1 is absent. Any other code counts as present, so that an unknown code accepts nothing.
// Kept, 1 and 4: C's code (include/reckonstile.h), which no crate below knows; definition `bloom_in`.
pub fn bloom_in(code: u32) -> Bloom
    ensures { result ≡ bloom_in code }
{
    match code {
        0 => Bloom::NoFilter,
        1 => Bloom::Absent,
        _ => Bloom::Present,
    }
}

// ---- what is written to a buffer, and what is read from a file

// What is written to a buffer: the number, whether something is written, and its length.
#[repr(C)]
#[derive(Clone, Copy)]
pub struct CWritten {
    pub number: u32,
    // 1 if something is written.
    pub written: u32,
    pub length: u64,
}

// The length of what is written, or the refusal's number: of a save, of a list of cookies and of a request.
impl<E: Refusal> From<Result<usize, E>> for CWritten {
    ghost from_gives = { λ answer c. c ≡ written_as E.number_of answer };

    fn from(answer: Result<usize, E>) -> CWritten {
        match answer {
            Ok(length) => CWritten {
                number: 0,
                written: 1,
                length: length as u64,
            },
            Err(refusal) => CWritten {
                number: u32::from(refusal.number()),
                written: 0,
                length: 0,
            },
        }
    }
}

// The kind of request for a code. V5 is not written, so every other code gives V5.
// Kept, 1 and 4: C's code (include/reckonstile.h), which no crate below knows; definition `send_in`.
pub fn send_in(code: u8) -> SendKind
    ensures { result ≡ send_in code }
{
    match code {
        1 => SendKind::V4,
        2 => SendKind::V4Upgrade,
        4 => SendKind::NtsV4,
        _ => SendKind::V5,
    }
}

// What loading a file answers: its number, and 1 if a version in the file was of the retired kind and was loaded as V4.
#[repr(C)]
#[derive(Clone, Copy)]
pub struct CLoadAnswer {
    pub number: u32,
    pub retired: u32,
}

impl<E: Refusal> From<Result<Loaded, E>> for CLoadAnswer {
    ghost from_gives = { λ answer c. c ≡ load_as E.number_of answer };

    fn from(answer: Result<Loaded, E>) -> CLoadAnswer {
        match answer {
            Ok(loaded) => CLoadAnswer {
                number: 0,
                retired: u32::from(loaded.retired),
            },
            Err(refusal) => CLoadAnswer {
                number: u32::from(refusal.number()),
                retired: 0,
            },
        }
    }
}

// ---- a packet's fields

// What is at an offset of a packet: a field, with a body of `length` bytes from `body` on and the next field after it; the walk's end; or something broken.
#[repr(C)]
#[derive(Clone, Copy)]
pub struct CField {
    // 0, or 1 if something broken is there.
    pub number: u32,
    // 1 if it is a field.
    pub found: u32,
    // The field's type.
    pub kind: u32,
    // Always 0, so that there is no padding between the fields.
    pub spare: u32,
    pub body: u64,
    pub length: u64,
    pub next: u64,
}

// Kept: the number is what C gets.
fn no_field(number: u32) -> CField
    ensures { result ≡ no_field number }
{
    CField {
        number,
        found: 0,
        kind: 0,
        spare: 0,
        body: 0,
        length: 0,
        next: 0,
    }
}

impl From<Step> for CField {
    ghost from_gives = { λ step c. c ≡ field_as step };

    fn from(step: Step) -> CField {
        match step {
            Step::Field {
                kind,
                start,
                len,
                next,
            } => CField {
                number: 0,
                found: 1,
                kind: u32::from(kind),
                spare: 0,
                body: start as u64,
                length: len as u64,
                next: next as u64,
            },
            Step::End => no_field(0),
            Step::Broken => no_field(1),
        }
    }
}
