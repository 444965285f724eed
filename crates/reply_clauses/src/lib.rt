// The clauses of a reply: when it answers what is pending, what each kind of reply does to the state, and the measurement.
// Promises: each function is one clause of the rule; what a clause does not name does not change.
// Rule: RULES, parts 8, 9 and 11; definitions in specs/After.antt.
#![tactic(auto)]

ghost use Rattle.std.specs.Prelude.{◌≡◌, ◌||◌};
ghost use Rattle.reply_clauses.specs.After.{never_sent, already_measured, expired, answers, stepped, after_rate_kiss};
ghost use Rattle.reply_clauses.specs.After.{after_denial, raised, after_measured, measurement_of};

use association::{Effort, Pending, Polls, Settings, Source, State};
use time_types::{Exchange, NtpDuration, NtpTimestamp, PollInterval};
use wire_header::Kisses;
use wire_incoming::{NtpLeapIndicator, Reply};

// What a measured reply says about the clocks.
#[derive(Clone, Copy)]
pub struct Measurement {
    pub delay: NtpDuration,
    pub offset: NtpDuration,
    // Our wall clock half way between request and reply.
    pub local: NtpTimestamp,
    // Our uptime clock when the reply was handled.
    pub mono: u64,
    pub stratum: u8,
    pub rootdelay: NtpDuration,
    pub rootdisp: NtpDuration,
    pub leap: NtpLeapIndicator,
    pub precision: i8,
}

// The three clock readings that come with a reply.
#[derive(Clone, Copy)]
pub struct Stamps {
    // Our wall clock when the request left.
    pub t1: NtpTimestamp,
    // Our wall clock when the reply came.
    pub t4: NtpTimestamp,
    // Our uptime clock now.
    pub time: u64,
}

// Nothing is pending, and nothing was: no poll has been sent.
// promise: 11.2
pub fn never_sent(request: Pending) -> bool
    ensures { result ≡ never_sent request }
{
    !request.present && !request.answered
}

// Nothing is pending any more: a reply to the last poll has been measured.
// promise: 11.2
pub fn already_measured(request: Pending) -> bool
    ensures { result ≡ already_measured request }
{
    !request.present && request.answered
}

// A request is pending, and its deadline has passed.
// promise: 11.2
pub fn expired(request: Pending, time: u64) -> bool
    ensures { result ≡ expired request time }
{
    request.present && request.deadline < time
}

// Whether a reply answers the request with this identifier; with NTS also by its unique identifier. This keeps out old, repeated and forged replies.
// promise: 11.3
pub fn answers(nts: bool, id: u64, reply: Reply) -> bool
    ensures { result ≡ answers nts id reply }
{
    reply.origin == id
        && (!nts
            || wire_groups::uid_matches(
                reply.authenticated,
                reply.encrypted,
                reply.untrusted,
                reply.kisses.ntsn,
            ))
}

// promise: 11.5
pub fn denies(kisses: Kisses) -> bool
    ensures { result ≡ (kisses.deny || kisses.rstr) }
{
    kisses.deny || kisses.rstr
}

// The upgrade step, on a matching reply. Every reply steps as a plain one does: only the retired kind of version distinguished two kinds of reply.
// promise: 4.3
#[tactic(auto, unfolding(crate::specs::After::stepped))]
pub fn stepped(s: State) -> State
    ensures { result ≡ stepped s }
{
    let version = s.version.upgrade_step(false);
    State { version, ..s }
}

// A RATE kiss raises the remote minimum.
// promise: 11.4
#[tactic(auto, unfolding(crate::specs::After::after_rate_kiss))]
pub fn after_rate_kiss(settings: Settings, s: State) -> State
    ensures { result ≡ after_rate_kiss settings s }
{
    let remote = s.polls.remote.after_rate(settings.max, s.polls.last);
    let polls = Polls { remote, ..s.polls };
    State { polls, ..s }
}

// A denial is noted until a reply is measured. If the timer gives up meanwhile, it demobilizes instead of starting again.
// promise: 11.5
#[tactic(auto, unfolding(crate::specs::After::after_denial))]
pub fn after_denial(s: State) -> State
    ensures { result ≡ after_denial s }
{
    let source = Source {
        denial: true,
        ..s.source
    };
    State { source, ..s }
}

// The poll of a V5 reply says how rarely the server wants to be asked. It can only raise the remote minimum.
fn raised(remote: PollInterval, reply: Reply) -> PollInterval
    ensures { result ≡ raised remote reply }
{
    if reply.version == 5 {
        remote.max(reply.poll)
    } else {
        remote
    }
}

// The state after a measured reply.
// promise: 11.8, no3.1, no8.4
#[tactic(auto, unfolding(crate::specs::After::after_measured))]
pub fn after_measured(s: State, reply: Reply) -> State
    ensures { result ≡ after_measured s reply }
{
    let reach = s.effort.reach.received_packet();
    let remote = raised(s.polls.remote, reply);
    State {
        effort: Effort {
            reach,
            unanswered: 0,
            ..s.effort
        },
        polls: Polls { remote, ..s.polls },
        source: Source {
            stratum: reply.stratum,
            refid: reply.refid,
            denial: false,
        },
        // Nothing is pending any more, so that a reply that comes twice is not measured twice.
        request: Pending::none(true),
        ..s
    }
}

// The measurement of a reply, from the clock readings that come with it.
// promise: 11.8
#[tactic(auto, unfolding(crate::specs::After::measurement_of))]
pub fn measured(reply: Reply, stamps: Stamps) -> Measurement
    ensures { result ≡ measurement_of reply stamps.t1 stamps.t4 stamps.time }
{
    let exchange = Exchange {
        t1: stamps.t1,
        t2: reply.receive,
        t3: reply.transmit,
        t4: stamps.t4,
    };
    Measurement {
        delay: exchange.delay(),
        offset: exchange.offset(),
        local: exchange.local_time(),
        mono: stamps.time,
        stratum: reply.stratum,
        rootdelay: reply.rootdelay,
        rootdisp: reply.rootdisp,
        leap: reply.leap,
        precision: reply.precision,
    }
}
