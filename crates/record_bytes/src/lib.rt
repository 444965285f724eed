// A record in lent bytes: when bytes are a record, how its settings and its state are read, and how both are written in place.
// Promises: any bytes are a record or they are not; reading and writing undo each other, in both directions.
// Rule: RULES, "Settings and a whole record"; the layout is in specs/Record.antt, the state's in specs/State.antt.
#![tactic(auto)]

ghost use Rattle.std.specs.Prelude.{◌≡◌, replicate};
ghost use Rattle.words.specs.Bytes.{part};
ghost use Rattle.handover_groups.proofs.OfSettings.{SettingsFit};
ghost use Rattle.record_bytes.specs.State.{pending_bytes, state_bytes, state_known, StateFit};
ghost use Rattle.record_bytes.specs.Record.{state_in, opened, opened_of, stored_state, headed};

use association::{Effort, Pending, Settings, State};
use reach::Reach;

// What the bytes of a record hold, except its stash: its settings and its state.
#[derive(Clone, Copy)]
pub struct Opened {
    pub settings: Settings,
    pub state: State,
}

// Reads the state from the head of a record.
// Kept: beside `state_in` of handover_load, which has a body for each part, no request, and counts the unanswered polls; here all are stored.
fn state_in(head: &[u8; 92]) -> State
    ensures { result ≡ state_in head.now }
{
    let mut uid = [0; 32];
    uid.copy_from_slice(&head[60..92]);
    State {
        effort: Effort {
            reach: Reach(head[29]),
            tries: head[30],
            unanswered: head[31],
        },
        version: handover_groups::version_of(&head[32..34]),
        polls: handover_groups::polls_of(&head[34..36]),
        source: handover_groups::source_of(&head[36..42]),
        request: Pending {
            present: head[42] == 1,
            answered: head[43] == 1,
            id: words::be64_at(head, 44),
            deadline: words::be64_at(head, 52),
            uid,
        },
    }
}

// What the head of a record holds, whatever its codes are.
#[tactic(auto, unfolding(words::specs::Bytes::part))]
fn read_head(head: &[u8; 92]) -> Opened
    ensures { result ≡ opened head.now }
{
    Opened {
        settings: handover_groups::settings_of(&head[0..27]),
        state: state_in(head),
    }
}

// Whether every code of the state in the head of a record is known.
fn state_known(head: &[u8; 92]) -> bool
    ensures { result ≡ state_known (part head.now 29 63) }
{
    handover_groups::version_known(&head[32..34])
        && handover_groups::source_known(&head[36..42])
        && head[42] <= 1
        && head[43] <= 1
}

// Every call on a record starts here. It answers for any bytes: None says that they are no record.
// promise: exports.1
pub fn open_record(b: &[u8]) -> Option<Opened>
    ensures { result ≡ opened_of b.now }
{
    let head = b.first_chunk()?;
    let found = read_head(head);
    let known = record_stash::sized(b, found.settings.capacity)
        && handover_groups::settings_known(&head[0..27])
        && state_known(head);
    known.then_some(found)
}

// What is shown of bytes that are no record: what 92 zeros hold.
pub fn no_record() -> Opened
    ensures { result ≡ opened (replicate 92 0) }
{
    let zeros = [0; 92];
    read_head(&zeros)
}

// The 50 bytes of the pending request.
fn pending_bytes(request: Pending) -> [u8; 50]
    ensures { result ≡ pending_bytes request }
{
    let mut bytes = [0; 50];
    bytes[0] = u8::from(request.present);
    bytes[1] = u8::from(request.answered);
    bytes[2..10].copy_from_slice(&words::be64_bytes(request.id));
    bytes[10..18].copy_from_slice(&words::be64_bytes(request.deadline));
    bytes[18..50].copy_from_slice(&request.uid);
    bytes
}

// The 63 bytes of a state, so that it is put back by one copy.
fn state_bytes(s: State) -> [u8; 63]
    ensures { result ≡ state_bytes s }
{
    let mut bytes = [0; 63];
    bytes[0] = s.effort.reach.0;
    bytes[1] = s.effort.tries;
    bytes[2] = s.effort.unanswered;
    bytes[3..5].copy_from_slice(&handover_groups::version_bytes(s.version));
    bytes[5..7].copy_from_slice(&handover_groups::polls_bytes(s.polls));
    bytes[7..13].copy_from_slice(&handover_groups::source_bytes(s.source));
    bytes[13..63].copy_from_slice(&pending_bytes(s.request));
    bytes
}

// Writes the state in place; its types say that it fits. Bytes that are too short for a head do not change.
// promise: exports.1
pub fn store_state(b: &mut [u8], s: State)
    ensures { (b.new ≡ stored_state b.old s) × StateFit s }
{
    if b.len() < record_stash::HEAD {
        return;
    }
    b[29..92].copy_from_slice(&state_bytes(s));
}

// Writes the head of a record with an empty stash and a reading place. Bytes that are too short for a head do not change.
// promise: exports.1
pub fn store_head(b: &mut [u8], settings: Settings, read: u8, state: State)
    ensures { (b.new ≡ headed b.old settings read state) × SettingsFit settings × StateFit state }
{
    if b.len() < record_stash::HEAD {
        return;
    }
    b[0..27].copy_from_slice(&handover_groups::settings_bytes(settings));
    b[27] = read;
    b[28] = 0;
    store_state(b, state);
}
