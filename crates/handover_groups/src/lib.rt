// The small records of the hand-over file, each to bytes and back: settings, effort, version, polls, source.
// Promises: what is written is read back; bytes with known codes are written as they were read; readers are defined for any bytes.
// Rule: RULES, No. 6 and No. 12; definitions in specs/Codes.antt, specs/Settings.antt and specs/State.antt.
#![tactic(auto)]

ghost use Rattle.std.specs.Prelude.{◌≡◌, get_or};
ghost use Rattle.handover_groups.specs.Codes.{kind_code, tries_code, kind_of, kind_known};
ghost use Rattle.handover_groups.specs.Settings.{settings_bytes, settings_of, settings_known};
ghost use Rattle.handover_groups.specs.State.{effort_bytes, effort_of, version_bytes, version_of, version_known, polls_bytes};
ghost use Rattle.handover_groups.specs.State.{polls_of, source_bytes, source_of, source_known};

use association::{Effort, Polls, Settings, Source};
use cookiestash::CAPACITY;
use identifiers::ReferenceId;
use reach::Reach;
use time_types::PollInterval;
use version::{ProtocolVersion, Version};

// A byte, or zero if there is none.
fn byte_at(b: &[u8], i: usize) -> u8
    ensures { result ≡ get_or b.now i 0 }
{
    b.get(i).copied().unwrap_or(0)
}

// The capacity: the last byte of the settings. A file from before No. 12 has none, and its stash has eight places.
fn capacity_at(b: &[u8]) -> u8
    ensures { result ≡ get_or b.now 26 8 }
{
    b.get(26).copied().unwrap_or(CAPACITY)
}

// The code of a kind of version.
// Kept, 1 and 4: the file's byte, definition `kind_code`; here and in the three below. The file is no part of the crate of `ProtocolVersion`.
pub fn kind_code(k: ProtocolVersion) -> u8
    ensures { result ≡ kind_code k }
{
    match k {
        ProtocolVersion::V4 => 0,
        ProtocolVersion::Upgrading(_) => 1,
        ProtocolVersion::Upgraded => 2,
        ProtocolVersion::V5 => 3,
    }
}

// The tries that are left to the upgrading kind; the others have none.
// Kept: a byte of the file, as `kind_code`.
pub fn tries_code(k: ProtocolVersion) -> u8
    ensures { result ≡ tries_code k }
{
    match k {
        ProtocolVersion::Upgrading(tries) => tries,
        ProtocolVersion::V4 | ProtocolVersion::Upgraded | ProtocolVersion::V5 => 0,
    }
}

// The kind of a code; a code that is not known reads as V5.
// Kept: a byte of the file, as `kind_code`. No Option: the definition `kind_of` reads an unknown code as V5, and `kind_known` tells the two apart.
pub fn kind_of(code: u8, tries: u8) -> ProtocolVersion
    ensures { result ≡ kind_of code tries }
{
    match code {
        0 => ProtocolVersion::V4,
        1 => ProtocolVersion::Upgrading(tries),
        2 => ProtocolVersion::Upgraded,
        _ => ProtocolVersion::V5,
    }
}

// Whether the code is known, and only the upgrading one has tries.
// Kept: a byte of the file, as `kind_code`.
pub fn kind_known(code: u8, tries: u8) -> bool
    ensures { result ≡ kind_known code tries }
{
    code <= 3 && (code == 1 || tries == 0)
}

// The 27 bytes of the settings.
pub fn settings_bytes(s: Settings) -> [u8; 27]
    ensures { result ≡ settings_bytes s }
{
    let mut bytes = [0; 27];
    bytes[0] = words::i8_as_u8(s.min.0);
    bytes[1] = words::i8_as_u8(s.max.0);
    bytes[2] = s.startup;
    bytes[3..11].copy_from_slice(&words::be64_bytes(s.window));
    bytes[11..19].copy_from_slice(&words::be64_bytes(s.upgrademark));
    bytes[19] = kind_code(s.start.kind);
    bytes[20] = tries_code(s.start.kind);
    bytes[21] = u8::from(s.nts);
    bytes[22..26].copy_from_slice(&words::be32_bytes(s.source.0));
    bytes[26] = s.capacity;
    bytes
}

pub fn settings_of(b: &[u8]) -> Settings
    ensures { result ≡ settings_of b.now }
{
    Settings {
        min: PollInterval(words::u8_as_i8(byte_at(b, 0))),
        max: PollInterval(words::u8_as_i8(byte_at(b, 1))),
        startup: byte_at(b, 2),
        window: words::be64_at(b, 3),
        upgrademark: words::be64_at(b, 11),
        start: Version {
            kind: kind_of(byte_at(b, 19), byte_at(b, 20)),
        },
        nts: byte_at(b, 21) == 1,
        source: ReferenceId(words::be32_at(b, 22)),
        capacity: capacity_at(b),
    }
}

// Whether the codes of the start version and of NTS are known.
#[tactic(auto, unfolding(crate::specs::Settings::settings_known))]
pub fn settings_known(b: &[u8]) -> bool
    ensures { result ≡ settings_known b.now }
{
    kind_known(byte_at(b, 19), byte_at(b, 20)) && byte_at(b, 21) <= 1
}

#[tactic(auto, unfolding(crate::specs::State::effort_bytes))]
pub fn effort_bytes(e: Effort) -> [u8; 2]
    ensures { result ≡ effort_bytes e }
{
    [e.reach.0, e.tries]
}

// promise: no8.8
#[tactic(auto, unfolding(crate::specs::State::effort_of))]
pub fn effort_of(b: &[u8]) -> Effort
    ensures { result ≡ effort_of b.now }
{
    let reach = Reach(byte_at(b, 0));
    Effort {
        reach,
        tries: byte_at(b, 1),
        unanswered: reach.unanswered_polls(),
    }
}

#[tactic(auto, unfolding(crate::specs::State::version_bytes))]
pub fn version_bytes(v: Version) -> [u8; 2]
    ensures { result ≡ version_bytes v }
{
    [kind_code(v.kind), tries_code(v.kind)]
}

#[tactic(auto, unfolding(crate::specs::State::version_of))]
pub fn version_of(b: &[u8]) -> Version
    ensures { result ≡ version_of b.now }
{
    Version {
        kind: kind_of(byte_at(b, 0), byte_at(b, 1)),
    }
}

#[tactic(auto, unfolding(crate::specs::State::version_known))]
pub fn version_known(b: &[u8]) -> bool
    ensures { result ≡ version_known b.now }
{
    kind_known(byte_at(b, 0), byte_at(b, 1))
}

#[tactic(auto, unfolding(crate::specs::State::polls_bytes))]
pub fn polls_bytes(p: Polls) -> [u8; 2]
    ensures { result ≡ polls_bytes p }
{
    [words::i8_as_u8(p.last.0), words::i8_as_u8(p.remote.0)]
}

pub fn polls_of(b: &[u8]) -> Polls
    ensures { result ≡ polls_of b.now }
{
    Polls {
        last: PollInterval(words::u8_as_i8(byte_at(b, 0))),
        remote: PollInterval(words::u8_as_i8(byte_at(b, 1))),
    }
}

#[tactic(auto, unfolding(crate::specs::State::source_bytes))]
pub fn source_bytes(s: Source) -> [u8; 6]
    ensures { result ≡ source_bytes s }
{
    let [i0, i1, i2, i3] = words::be32_bytes(s.refid.0);
    [s.stratum, i0, i1, i2, i3, u8::from(s.denial)]
}

#[tactic(auto, unfolding(crate::specs::State::source_of))]
pub fn source_of(b: &[u8]) -> Source
    ensures { result ≡ source_of b.now }
{
    Source {
        stratum: byte_at(b, 0),
        refid: ReferenceId(words::be32_at(b, 1)),
        denial: byte_at(b, 5) == 1,
    }
}

// Whether the code of the denial is known.
#[tactic(auto, unfolding(crate::specs::State::source_known))]
pub fn source_known(b: &[u8]) -> bool
    ensures { result ≡ source_known b.now }
{
    byte_at(b, 5) <= 1
}
