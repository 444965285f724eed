// The rules of a reply, over the settings, the state and the summary of the stash: one judge for every form. `reply` calls it.
// Promises: the verdict, with its answer and the next state, is the rule's, in its order, and the actions follow from its number.
// Rule: RULES, parts 8, 9 and 11; definitions in specs/Judge.antt and specs/Answer.antt.
#![tactic(auto)]

ghost use Rattle.std.specs.Prelude.{◌≡◌, Bool, List, ℕ, Option};
ghost use Rattle.wire_incoming.specs.declared.Reply.{Reply};
ghost use Rattle.reply_rules.specs.Form.{read_packet, read_decoded, read_tried};
ghost use Rattle.reply_rules.specs.Answer.{number_of};
ghost use Rattle.reply_clauses.specs.After.{arrival};
ghost use Rattle.reply_rules.specs.Judge.{leaves, judge_of, verdict_of};
ghost use Rattle.reply_rules.specs.Told.{Matched, after_of, stores_of, told_of};

use association::{Settings, State};
use cookiestash::Seen;
use reply_clauses::{Measurement, Stamps};
use wire_incoming::{DecodedReply, Reply};

// The form in which a reply comes.
pub trait Form: Copy {
    ghost read: { Self → Bool → List ℕ → Option Reply };

    // What the reply says, to a request with this unique identifier. Only NTS looks for the identifier. None: the reply cannot be decoded.
    fn read(self, nts: bool, uid: [u8; 32]) -> Option<Reply>
        ensures { result ≡ read self nts uid };
}

// The byte form (V3, V4): the packet, where its authenticated part ends, and its decrypted fields.
#[derive(Clone, Copy)]
pub struct Packet<'a> {
    pub packet: &'a [u8],
    pub end: usize,
    pub decrypted: &'a [u8],
}

impl Form for Packet<'_> {
    ghost read = { read_packet };

    fn read(self, nts: bool, uid: [u8; 32]) -> Option<Reply> {
        wire_incoming::read_reply(nts, uid, self.packet, self.end, self.decrypted)
    }
}

// The decoded form (V5 only): the caller has read the packet.
impl Form for DecodedReply {
    ghost read = { read_decoded };

    fn read(self, _nts: bool, _uid: [u8; 32]) -> Option<Reply> {
        Some(self.value())
    }
}

// The decoded form, where the caller may have found a code of no kind.
impl Form for Option<DecodedReply> {
    ghost read = { read_tried };

    fn read(self, _nts: bool, _uid: [u8; 32]) -> Option<Reply> {
        self.map(|decoded| decoded.value())
    }
}

// Kept: no Result, since the others are not all refusals. RATE and a denial change the record, and the rules number all sixteen alike.
#[derive(Clone, Copy)]
pub enum ReplyAnswer {
    Measured(Measurement),
    Undecodable,
    UnexpectedVersion,
    // No request is live: none was sent yet, a reply to it was measured, or its deadline has passed.
    NeverSent,
    AlreadyMeasured,
    Expired,
    NoMatch,
    Rate,
    // A denial without NTS is only noted.
    Denied,
    // A denial with NTS demobilizes.
    DeniedNts,
    Ntsn,
    OtherKiss,
    BadStratum,
    NotServer,
    NotWhole,
    BrokenList,
}

// The result of the tests: the answer, the next state, and whether the reply's cookies are stored.
// Kept: `stores` is told beside answer and state, which count whatever it says.
#[derive(Clone, Copy)]
pub struct Verdict {
    pub answer: ReplyAnswer,
    pub state: State,
    pub stores: bool,
}

// The largest stratum of a server.
const MAX_STRATUM: u8 = 16;

// The answer to a matching reply: 5 to 11 in order, otherwise 0.
#[tactic(auto, unfolding(crate::specs::Judge::matched_of))]
fn matched(settings: Settings, reply: Reply, stamps: Stamps) -> ReplyAnswer
    ensures { Matched settings reply stamps.t1 stamps.t4 stamps.time result }
{
    // The timestamps of a kiss need not be right, so a kiss is not measured.
    if reply.kisses.rate {
        return ReplyAnswer::Rate;
    }
    if reply_clauses::denies(reply.kisses) {
        // With NTS a denial that matches is signed. Without NTS it is easily forged: it is noted, and counts only if nothing else is heard.
        if settings.nts {
            return ReplyAnswer::DeniedNts;
        }
        return ReplyAnswer::Denied;
    }
    // It is not signed and easily forged, so a true reply is still awaited.
    if reply.kisses.ntsn {
        return ReplyAnswer::Ntsn;
    }
    // An unknown kiss asks for nothing.
    if reply.kisses.any {
        return ReplyAnswer::OtherKiss;
    }
    if MAX_STRATUM < reply.stratum {
        return ReplyAnswer::BadStratum;
    }
    // Only a server's answer is measured: no other mode is used here.
    if !reply.server {
        return ReplyAnswer::NotServer;
    }
    ReplyAnswer::Measured(reply_clauses::measured(reply, stamps))
}

// The answer to a reply that was read: 33, 2, 12, 13, 14, 4, then what follows the upgrade step.
// Kept: settings, state and reply apart, as the definition `judge_of` has them: a struct would be made for the call and taken apart in its contract.
#[tactic(auto, unfolding(crate::specs::Judge::judge_of))]
fn answer(settings: Settings, s: State, reply: Reply, list: &[u8], stamps: Stamps) -> ReplyAnswer
    ensures { result ≡ (judge_of settings s reply (arrival list.now stamps.t1 stamps.t4 stamps.time)).answer }
{
    if cookielist::list_broken(settings.nts, list) {
        return ReplyAnswer::BrokenList;
    }
    if !s.version.expects(reply.version) {
        return ReplyAnswer::UnexpectedVersion;
    }
    if reply_clauses::never_sent(s.request) {
        return ReplyAnswer::NeverSent;
    }
    if reply_clauses::already_measured(s.request) {
        return ReplyAnswer::AlreadyMeasured;
    }
    // An expired request stays pending: a clock that goes back may make it live again.
    if reply_clauses::expired(s.request, stamps.time) {
        return ReplyAnswer::Expired;
    }
    // This comes before every kiss. A kiss that answers nothing is not believed: otherwise anybody could stop an association by sending it one.
    if !reply_clauses::answers(settings.nts, s.request.id, reply) {
        return ReplyAnswer::NoMatch;
    }
    matched(settings, reply, stamps)
}

// The next state for an answer. Where the reply matched, the upgrade step is made.
// Kept: settings, state and reply apart, as at `answer`: the definition `after_of` has them so.
#[tactic(auto, unfolding(crate::specs::Told::after_of))]
fn after(settings: Settings, s: State, reply: Reply, answer: ReplyAnswer) -> State
    ensures { result ≡ after_of settings s reply (number_of answer) }
{
    match answer {
        ReplyAnswer::Measured(_) => {
            reply_clauses::after_measured(reply_clauses::stepped(s), reply)
        }
        ReplyAnswer::Rate => reply_clauses::after_rate_kiss(settings, reply_clauses::stepped(s)),
        ReplyAnswer::Denied => reply_clauses::after_denial(reply_clauses::stepped(s)),
        ReplyAnswer::DeniedNts
        | ReplyAnswer::Ntsn
        | ReplyAnswer::OtherKiss
        | ReplyAnswer::BadStratum
        | ReplyAnswer::NotServer => reply_clauses::stepped(s),
        ReplyAnswer::NotWhole
        | ReplyAnswer::Undecodable
        | ReplyAnswer::BrokenList
        | ReplyAnswer::UnexpectedVersion
        | ReplyAnswer::NeverSent
        | ReplyAnswer::AlreadyMeasured
        | ReplyAnswer::Expired
        | ReplyAnswer::NoMatch => s,
    }
}

// Whether the cookies of the reply are stored: with NTS those of a measured one.
#[tactic(auto, unfolding(crate::specs::Told::stores_of))]
fn stores(nts: bool, answer: ReplyAnswer) -> bool
    ensures { result ≡ stores_of nts (number_of answer) }
{
    nts && matches!(answer, ReplyAnswer::Measured(_))
}

// The verdict for an answer.
// Kept: settings, state and reply apart, as at `answer`: the definition `told_of` has them so.
// Answer and state are put together only here: passed by value through each step, they would be copied each time.
#[tactic(auto, unfolding(crate::specs::Told::told_of))]
fn told(settings: Settings, s: State, reply: Reply, answer: ReplyAnswer) -> Verdict
    ensures { result ≡ told_of settings s reply answer }
{
    Verdict {
        answer,
        state: after(settings, s, reply, answer),
        stores: stores(settings.nts, answer),
    }
}

// The answer and the next state, with no cookie stored.
fn leaves(answer: ReplyAnswer, state: State) -> Verdict
    ensures { result ≡ leaves answer state }
{
    Verdict {
        answer,
        state,
        stores: false,
    }
}

// The verdict on a reply of any form: 32, 1, and then what the reply says.
// Kept: settings, state and summary apart, as the definition `verdict_of` has them; form, list and stamps too, since no caller has them as one value.
// promise: 11.1, 11.7
#[tactic(auto, using(crate::proofs::Follows::judged_told), unfolding(crate::specs::Judge::verdict_of))]
pub fn judge<F: Form>(
    settings: Settings,
    s: State,
    seen: Seen,
    form: F,
    list: &[u8],
    stamps: Stamps,
) -> Verdict
    ensures { result ≡ verdict_of settings s seen (F.read form settings.nts s.request.uid)
        (arrival list.now stamps.t1 stamps.t4 stamps.time) }
{
    if !association::whole_seen(settings, seen, s) {
        return leaves(ReplyAnswer::NotWhole, s);
    }
    let Some(reply) = form.read(settings.nts, s.request.uid) else {
        return leaves(ReplyAnswer::Undecodable, s);
    };
    let answer = answer(settings, s, reply, list, stamps);
    told(settings, s, reply, answer)
}

impl ReplyAnswer {
    // The number in RULES for the answer.
    pub fn number(self) -> u8
        ensures { result ≡ number_of self }
    {
        match self {
            ReplyAnswer::Measured(_) => 0,
            ReplyAnswer::Undecodable => 1,
            ReplyAnswer::UnexpectedVersion => 2,
            ReplyAnswer::NoMatch => 4,
            ReplyAnswer::Rate => 5,
            ReplyAnswer::Denied => 6,
            ReplyAnswer::DeniedNts => 7,
            ReplyAnswer::Ntsn => 8,
            ReplyAnswer::OtherKiss => 9,
            ReplyAnswer::BadStratum => 10,
            ReplyAnswer::NotServer => 11,
            ReplyAnswer::NeverSent => 12,
            ReplyAnswer::AlreadyMeasured => 13,
            ReplyAnswer::Expired => 14,
            ReplyAnswer::NotWhole => 32,
            ReplyAnswer::BrokenList => 33,
        }
    }
}
