// The rules of the timer, over the settings, the state and the summary of the stash. `timer` calls them.
// Promises: the decision, with its answer and the next state, is the rule's, and the actions follow from its number.
// Rule: RULES, part 10; definitions in specs/Decide.antt, clause by clause in specs/Poll.antt.
#![tactic(auto)]

ghost use Rattle.std.specs.Prelude.{◌≡◌, ◌/◌, min, max};
ghost use Rattle.timer_rules.specs.Answer.{number_of};
ghost use Rattle.timer_rules.specs.Poll.{short_buffer, startup_over, polled, tried_of, asked_of, pending_of};
ghost use Rattle.timer_rules.specs.Decide.{leaves, send_of, decide_nts, decide_of};

use association::{Effort, Pending, Polls, Settings, State};
use cookiestash::{SLOT_BYTES, Seen};
use time_types::PollInterval;
use version::SendKind;

// Kept: an enum of its own and no Result, since a reset and a demobilization are things to do, and each has its own number beside the poll's.
#[derive(Clone, Copy)]
pub enum TimerAnswer {
    // A poll is sent: its kind and poll exponent; with NTS the length of its cookie and how many new ones it asks for.
    Sent {
        kind: SendKind,
        poll: PollInterval,
        len: u16,
        asked: u8,
    },
    Reset,
    Demobilize,
    NoCookie,
    CookieTooLarge,
    ShortBuffer,
    NotWhole,
}

// What the caller passes for a poll: the time, the desired poll exponent, and the identifiers.
#[derive(Clone, Copy)]
pub struct TimerInput {
    pub time: u64,
    pub desired: PollInterval,
    pub id: u64,
    pub uid: [u8; 32],
}

// What the timer decides: its answer, the next state, and whether the oldest cookie is taken.
// Kept: `takes` is told beside answer and state, which count whatever it says.
#[derive(Clone, Copy)]
pub struct Decision {
    pub answer: TimerAnswer,
    pub state: State,
    pub takes: bool,
}

// Whether none of the last eight polls was answered and the startup limit is reached.
#[tactic(auto, unfolding(crate::specs::Poll::startup_over))]
fn startup_over(settings: Settings, s: State) -> bool
    ensures { result ≡ startup_over settings s }
{
    s.effort.reach.0 == 0 && settings.startup <= s.effort.tries
}

// Whether a buffer is too short for the longest cookie. This matters with NTS only.
fn short_buffer(settings: Settings, room: usize) -> bool
    ensures { result ≡ short_buffer settings room }
{
    settings.nts && room < SLOT_BYTES
}

// Counts one more poll: the register shifts; tries grow by one, up to 255, and the unanswered polls by one, up to 8.
#[tactic(auto, unfolding(crate::specs::Poll::polled))]
fn polled(effort: Effort) -> Effort
    ensures { result ≡ polled effort }
{
    Effort {
        reach: effort.reach.poll(),
        tries: effort.tries.saturating_add(1),
        unanswered: effort.unanswered.saturating_add(1).min(8),
    }
}

// The state once a poll is tried. If two V5 polls got no answer, V5 does not get through although both ends support it: the version falls back.
#[tactic(auto, unfolding(crate::specs::Poll::tried_of))]
fn tried(s: State) -> State
    ensures { result ≡ tried_of s }
{
    State {
        effort: polled(s.effort),
        version: s.version.fallback(s.effort.unanswered),
        ..s
    }
}

// How many cookies of a length fit into 724 bytes, at most eight. It takes four comparisons, since the small board has no divider.
// promise no4.3: At most eight comparisons, read off the source, and no division: tested, not proved, by `tests/opcodes`, which reads the library's object
//     code.
// promise: no4.1, no4.3 (at most four comparisons of the length)
// Kept: a tree of comparisons, since no4.3 counts them in the source; a match on ranges would try one range after the other.
fn fit(len: u16) -> u8
    ensures { result ≡ min (724 / max len 1) 8 }
{
    if len <= 144 {
        if len <= 103 {
            if len <= 90 {
                return 8;
            }
            return 7;
        }
        if len <= 120 {
            return 6;
        }
        return 5;
    }
    if len <= 241 {
        if len <= 181 {
            return 4;
        }
        return 3;
    }
    if len <= 362 {
        return 2;
    }
    if len <= 724 {
        return 1;
    }
    0
}

// How many new cookies to ask for: as many as the stash has room for, but no more than fit into a packet whose placeholders are each as long as the cookie.
// promise: no4.1, no4.2, no4.3 (one with the gap)
fn asked(gap: u8, len: u16) -> u8
    ensures { result ≡ asked_of (min gap 8) len }
{
    gap.min(fit(len))
}

// The request that is pending once it is sent, until the deadline or the last possible moment; its uid counts only with NTS.
#[tactic(auto, unfolding(crate::specs::Poll::pending_of))]
fn pending(nts: bool, window: u64, input: TimerInput) -> Pending
    ensures { result ≡ pending_of nts window input }
{
    Pending {
        present: true,
        id: input.id,
        uid: if nts { input.uid } else { [0; 32] },
        deadline: input.time.saturating_add(window),
        answered: false,
    }
}

// The answer and the next state, with no cookie taken.
fn leaves(answer: TimerAnswer, state: State) -> Decision
    ensures { result ≡ leaves answer state }
{
    Decision {
        answer,
        state,
        takes: false,
    }
}

// Sends the poll. The cookie's length is `len`, 0 without a cookie, and `asked` new ones are asked for; `takes` says whether the oldest cookie is taken.
#[tactic(auto, unfolding(crate::specs::Poll::sent_of))]
fn send(
    settings: Settings,
    s: State,
    input: TimerInput,
    len: u16,
    asked: u8,
    takes: bool,
) -> Decision
    ensures { result ≡ send_of settings s input len asked takes }
{
    let poll = input.desired.max(s.polls.remote);
    Decision {
        answer: TimerAnswer::Sent {
            kind: s.version.send_kind(settings.nts),
            poll,
            len,
            asked,
        },
        state: State {
            polls: Polls {
                last: poll,
                ..s.polls
            },
            request: pending(settings.nts, settings.window, input),
            ..s
        },
        takes,
    }
}

// Kept: settings, state and summary apart, as the definition `decide_nts` has them. The summary is made for a call, and no caller has the three as one.
// With NTS, for the tried state: takes a cookie, and asks for as many new ones as there is room for after that.
#[tactic(auto, unfolding(crate::specs::Decide::decide_nts))]
fn decide_nts(settings: Settings, s: State, seen: Seen, input: TimerInput) -> Decision
    ensures { result ≡ decide_nts settings s seen input }
{
    let Some(len) = seen.oldest else {
        return leaves(TimerAnswer::NoCookie, s);
    };
    let count = asked(seen.gap, len);
    // A poll that brings no new cookie would only use up the stash: the keys have to be exchanged again.
    if count == 0 {
        return Decision {
            answer: TimerAnswer::CookieTooLarge,
            state: s,
            takes: true,
        };
    }
    send(settings, s, input, len, count, true)
}

// Kept: settings, state and summary apart, as the definition `decide_of` has them, and as at `decide_nts`.
// What the timer decides. In order: 32, 31, 22 and 21, the poll.
// promise: 10.1, 10.2, 10.3, 10.4, 10.5, 10.6, no3.1, no4.2, no8.3, no8.7
#[tactic(auto, unfolding(crate::specs::Decide::decide_of))]
pub fn decide(settings: Settings, s: State, seen: Seen, input: TimerInput, room: usize) -> Decision
    ensures { result ≡ decide_of settings s seen input room }
{
    if !association::whole_seen(settings, seen, s) {
        return leaves(TimerAnswer::NotWhole, s);
    }
    if short_buffer(settings, room) {
        return leaves(TimerAnswer::ShortBuffer, s);
    }
    if startup_over(settings, s) {
        // A server that denied us is not asked forever. A silent one may have moved, so it is looked up again.
        let answer = if s.source.denial {
            TimerAnswer::Demobilize
        } else {
            TimerAnswer::Reset
        };
        return leaves(answer, s);
    }
    let next = tried(s);
    if settings.nts {
        return decide_nts(settings, next, seen, input);
    }
    send(settings, next, input, 0, 0, false)
}

impl TimerAnswer {
    // The number in RULES for the answer.
    pub fn number(self) -> u8
        ensures { result ≡ number_of self }
    {
        match self {
            TimerAnswer::Sent { .. } => 20,
            TimerAnswer::Reset => 21,
            TimerAnswer::Demobilize => 22,
            TimerAnswer::NoCookie => 23,
            TimerAnswer::CookieTooLarge => 24,
            TimerAnswer::ShortBuffer => 31,
            TimerAnswer::NotWhole => 32,
        }
    }
}
