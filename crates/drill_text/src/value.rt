// Values: the texts that a key's value may be, and what each of them says.
//
// A number may have zeros in front, and '-' if it is signed, but no '+'. No value is empty.
ghost use Rattle.std.specs.Prelude.{◌≡◌, ◌<◌, ◌≤◌, option_map, option_copied};
ghost use Rattle.drill_text.specs.Values.{split_at, first_of, IsNumber, decimal_up_to, hexadecimal_of, uid_from};
ghost use Rattle.drill_text.specs.Values.{yes_or_no_of, send_kind_of, kind_without_tries_of, version_of, group_of};

use std::str::FromStr;
use version::{ProtocolVersion, SendKind, Version};
use wire_groups::Uid;

// No bytes, no entries, no identifier.
pub(crate) const NONE: &[u8] = b"-";

// How many bytes a packet, decrypted bytes, a cookie list or a request's cookie may have.
pub const MAX_BYTES: usize = 4096;

// The most bytes of the buffer that the timer is lent.
pub const TIMER_ROOM: usize = 1024;

// The most that the collector is lent.
pub const COLLECT_ROOM: usize = 4096;

// The most that the request writer is lent.
pub const REQUEST_ROOM: usize = 6144;

// The most entries of a calendar in a line: twice what a calendar may have, so that too many can be tried.
pub const MAX_ENTRIES: usize = 128;

// The most bytes that a hand-over file may have, and the most that its writer is lent.
pub const FILE_ROOM: usize = 8192;

// What the buffer of a timer, of a request or of a hand-over file is filled with before it is lent.
pub const FILLER: u8 = 0xAA;

pub const UID_BYTES: usize = 32;

// The hexadecimal digits of a number of 64 bits, of a reference identifier and of a byte.
const ID_DIGITS: usize = 16;

const REFID_DIGITS: usize = 8;

const BYTE_DIGITS: usize = 2;

// What stands before and after the first separator.
// promise: drill.6
pub fn split_once(text: &[u8], separator: u8) -> Option<(&[u8], &[u8])>
    ensures { option_map (λ p. (p.0.now, p.1.now)) result ≡ split_at text.now separator }
{
    let at = text.iter().position(|b| *b == separator)?;
    Some((text.get(..at)?, text.get(at + 1..)?))
}

// What stands before the first separator, or all of the text, and what stands after it.
pub(crate) fn first_part(text: &[u8], separator: u8) -> (&[u8], Option<&[u8]>)
    ensures { (result.0.now, option_copied result.1) ≡ first_of text.now (split_at text.now separator) }
{
    match split_once(text, separator) {
        Some((part, after)) => (part, Some(after)),
        None => (text, None),
    }
}

// A decimal number.
// promise: drill.1
pub fn number<T: FromStr>(text: &[u8]) -> Option<T>
where
    T::Err: Drop,
    ensures { IsNumber T.from_str_gives text.now result }
{
    if text.starts_with(b"+") {
        return None;
    }
    str::from_utf8(text).ok()?.parse().ok()
}

// A decimal number up to `most`.
// promise: drill.1
pub fn up_to(text: &[u8], most: usize) -> Option<usize>
    ensures { result ≡ decimal_up_to most text.now }
{
    number(text).filter(|n| *n <= most)
}

// Exactly so many hexadecimal digits.
// promise: drill.2
fn hexadecimal(text: &[u8], count: usize) -> Option<u64>
    requires some { 0 < count }
    requires fits { count ≤ 16 }
    ensures { result ≡ hexadecimal_of count text.now }
{
    if text.len() != count || !text.iter().all(|b| b.is_ascii_hexdigit()) {
        return None;
    }
    u64::from_str_radix(str::from_utf8(text).ok()?, 16).ok()
}

// promise: drill.2
pub fn id(text: &[u8]) -> Option<u64>
    ensures { result ≡ hexadecimal_of 16 text.now }
{
    hexadecimal(text, ID_DIGITS)
}

// promise: drill.2
pub fn identifier(text: &[u8]) -> Option<u32>
    ensures { result ≡ hexadecimal_of 8 text.now }
{
    u32::try_from(hexadecimal(text, REFID_DIGITS)?).ok()
}

// Kept: beside `identifier`. One function over the type and the count would be no shorter than the two lines.
pub(crate) fn byte(text: &[u8]) -> Option<u8>
    ensures { result ≡ hexadecimal_of 2 text.now }
{
    u8::try_from(hexadecimal(text, BYTE_DIGITS)?).ok()
}

// 32 bytes, or '-' for 32 zeros.
// promise: drill.2
pub fn uid(text: &[u8]) -> Option<[u8; UID_BYTES]>
    ensures { result ≡ uid_from text.now }
{
    let mut uid = [0; UID_BYTES];
    if text == NONE {
        return Some(uid);
    }
    if text.len() != UID_BYTES * BYTE_DIGITS {
        return None;
    }
    for (i, digits) in text.chunks_exact(BYTE_DIGITS).enumerate() {
        uid[i] = byte(digits)?;
    }
    Some(uid)
}

// Kept: the words are the drill's (docs/DRILL.md): std's FromStr of a bool reads `true` and `false`.
// promise: drill.5
pub fn yes_or_no(text: &[u8]) -> Option<bool>
    ensures { result ≡ yes_or_no_of text.now }
{
    match text {
        b"no" => Some(false),
        b"yes" => Some(true),
        _ => None,
    }
}

// Kept: the words are the drill's (docs/DRILL.md), and the kind a library's, which knows no words: std's traits would have to be written there.
// promise: drill.5
pub fn send_kind(text: &[u8]) -> Option<SendKind>
    ensures { result ≡ send_kind_of text.now }
{
    match text {
        b"v4" => Some(SendKind::V4),
        b"v4-upgrade" => Some(SendKind::V4Upgrade),
        b"v5" => Some(SendKind::V5),
        b"nts-v4" => Some(SendKind::NtsV4),
        b"nts-v5" => Some(SendKind::NtsV5),
        _ => None,
    }
}

// Kept: the words are the drill's, as at `send_kind`.
// The kind of a version that has no tries.
// promise: drill.5
fn kind_without_tries(text: &[u8]) -> Option<ProtocolVersion>
    ensures { result ≡ kind_without_tries_of text.now }
{
    match text {
        b"v4" => Some(ProtocolVersion::V4),
        b"upgraded" => Some(ProtocolVersion::Upgraded),
        b"v5" => Some(ProtocolVersion::V5),
        _ => None,
    }
}

// A version: upgrading has its tries after a colon, and the others have none.
// promise: drill.5
pub fn version(text: &[u8]) -> Option<Version>
    ensures { result ≡ version_of text.now }
{
    let kind = match kind_without_tries(text) {
        Some(kind) => kind,
        None => ProtocolVersion::Upgrading(number(text.strip_prefix(b"upgrading:")?)?),
    };
    Some(Version { kind })
}

// Kept: the words are the drill's, as at `send_kind`.
// What a group of fields says of the identifier.
// promise: drill.5
pub fn group(text: &[u8]) -> Option<Uid>
    ensures { result ≡ group_of text.now }
{
    match text {
        b"absent" => Some(Uid::Absent),
        b"agree" => Some(Uid::Agree),
        b"disagree" => Some(Uid::Disagree),
        _ => None,
    }
}
