// The NTP header: 48 bytes, read from a packet and written by value, and the kiss that it may be.
// Promises: reader and writer undo each other, and the reader rejects exactly what is too short or has another version.
// Rule: RULES, parts 6 and 9; definitions in specs/Header.antt and specs/Kiss.antt.
#![tactic(auto)]

ghost use Rattle.std.specs.Prelude.{◌≡◌, ◌+◌, ◌≤◌, ◌<◌, length};
ghost use Rattle.words.specs.Bytes.{be, part};
ghost use Rattle.wire_header.specs.Header.{leap_of, mode_of, leap_code, mode_code, version_code, first_byte, fields, header_of, bytes_of};
ghost use Rattle.wire_header.specs.Kiss.{kisses_of};

use identifiers::ReferenceId;
use time_types::{NtpTimestamp, PollInterval};

pub const HEADER_BYTES: usize = 48;

// The versions whose header has this form.
#[derive(Clone, Copy, PartialEq, Eq)]
pub enum HeaderVersion {
    V3,
    V4,
}

#[derive(Clone, Copy, PartialEq, Eq)]
pub enum Leap {
    NoWarning,
    Leap61,
    Leap59,
    Unsynchronized,
}

#[derive(Clone, Copy, PartialEq, Eq)]
pub enum Mode {
    Reserved,
    SymmetricActive,
    SymmetricPassive,
    Client,
    Server,
    Broadcast,
    Control,
    Private,
}

// The root delay and the root dispersion are the raw 32 bits of the short format.
#[derive(Clone, Copy)]
pub struct Header {
    pub version: HeaderVersion,
    pub leap: Leap,
    pub mode: Mode,
    pub stratum: u8,
    pub poll: PollInterval,
    pub precision: i8,
    pub rootdelay: u32,
    pub rootdisp: u32,
    pub refid: ReferenceId,
    pub reftime: NtpTimestamp,
    pub origin: NtpTimestamp,
    pub receive: NtpTimestamp,
    pub transmit: NtpTimestamp,
}

// Whether a header is a kiss, and which of the names it has.
#[derive(Clone, Copy)]
pub struct Kisses {
    pub rate: bool,
    pub deny: bool,
    pub rstr: bool,
    pub ntsn: bool,
    pub any: bool,
}

// What the two bits of a leap say.
impl From<u8> for Leap {
    ghost from_gives = { λ bits leap. leap ≡ leap_of bits };

    // Kept: the table of a leap and, below, that of a mode: each is the match over its own kind.
    fn from(bits: u8) -> Leap
        ensures { result ≡ leap_of bits }
    {
        match bits {
            0 => Leap::NoWarning,
            1 => Leap::Leap61,
            2 => Leap::Leap59,
            _ => Leap::Unsynchronized,
        }
    }
}

impl From<Leap> for u8 {
    ghost from_gives = { λ leap bits. bits ≡ leap_code leap };

    fn from(leap: Leap) -> u8
        ensures bits { result ≡ leap_code leap }
        ensures two { result < 4 }
    {
        match leap {
            Leap::NoWarning => 0,
            Leap::Leap61 => 1,
            Leap::Leap59 => 2,
            Leap::Unsynchronized => 3,
        }
    }
}

// What the three bits of a mode say.
impl From<u8> for Mode {
    ghost from_gives = { λ bits mode. mode ≡ mode_of bits };

    fn from(bits: u8) -> Mode
        ensures { result ≡ mode_of bits }
    {
        match bits {
            0 => Mode::Reserved,
            1 => Mode::SymmetricActive,
            2 => Mode::SymmetricPassive,
            3 => Mode::Client,
            4 => Mode::Server,
            5 => Mode::Broadcast,
            6 => Mode::Control,
            _ => Mode::Private,
        }
    }
}

impl From<Mode> for u8 {
    ghost from_gives = { λ mode bits. bits ≡ mode_code mode };

    fn from(mode: Mode) -> u8
        ensures bits { result ≡ mode_code mode }
        ensures three { result < 8 }
    {
        match mode {
            Mode::Reserved => 0,
            Mode::SymmetricActive => 1,
            Mode::SymmetricPassive => 2,
            Mode::Client => 3,
            Mode::Server => 4,
            Mode::Broadcast => 5,
            Mode::Control => 6,
            Mode::Private => 7,
        }
    }
}

impl HeaderVersion {
    // The version as the header's number.
    // Kept: a method and no `From`, as its sisters have: the row 6.2 of docs/PROMISES.md names `HeaderVersion::number`, and what it names stays.
    // promise: 6.2
    pub fn number(self) -> u8
        ensures { result ≡ version_code self }
    {
        match self {
            HeaderVersion::V3 => 3,
            HeaderVersion::V4 => 4,
        }
    }
}

// The number in the eight bytes from an offset on.
// Kept: beside `be64_at`: by halves, of which the compiler makes a single load each, a header is read faster (DECISIONS 38).
fn word_at(p: &[u8], at: usize) -> u64
    requires { at + 8 ≤ length p.now }
    ensures { result ≡ be (part p.now at 8) }
{
    let high = u64::from(words::be32_at(p, at));
    let low = u64::from(words::be32_at(p, at + 4));
    high * 0x1_0000_0000 + low
}

// The fields of bytes that are long enough for them.
fn fields_in(version: HeaderVersion, p: &[u8]) -> Header
    requires { 48 ≤ length p.now }
    ensures { result ≡ fields version p.now }
{
    Header {
        version,
        leap: Leap::from(p[0] / 64),
        mode: Mode::from(p[0] % 8),
        stratum: p[1],
        poll: PollInterval(words::u8_as_i8(p[2])),
        precision: words::u8_as_i8(p[3]),
        rootdelay: words::be32_at(p, 4),
        rootdisp: words::be32_at(p, 8),
        refid: ReferenceId(words::be32_at(p, 12)),
        reftime: NtpTimestamp(word_at(p, 16)),
        origin: NtpTimestamp(word_at(p, 24)),
        receive: NtpTimestamp(word_at(p, 32)),
        transmit: NtpTimestamp(word_at(p, 40)),
    }
}

// Reads the header at the start of a packet. Rejects a packet that is too short or has another version.
// The fields are read from a part whose length the compiler knows.
// Kept: no `TryFrom` for the version, which needs a type of error: a number of no version rejects the packet, and is read nowhere else.
// promise: 6.1, 6.2, 6.4
pub fn read_header(p: &[u8]) -> Option<Header>
    ensures { result ≡ header_of p.now }
{
    if p.len() < HEADER_BYTES {
        return None;
    }
    let version = match p[0] / 8 % 8 {
        3 => HeaderVersion::V3,
        4 => HeaderVersion::V4,
        _ => return None,
    };
    Some(fields_in(version, &p[..HEADER_BYTES]))
}

// Kept: a function of its own, whose definition of this name `bytes_of` cites; no other crate has one.
fn first_byte(leap: Leap, version: HeaderVersion, mode: Mode) -> u8
    ensures { result ≡ first_byte leap version mode }
{
    u8::from(leap) * 64 + version.number() * 8 + u8::from(mode)
}

// The 48 bytes of a header.
// promise: 6.3
pub fn write_header(h: Header) -> [u8; HEADER_BYTES]
    ensures { result ≡ bytes_of h }
{
    let mut out = [0u8; HEADER_BYTES];
    out[0] = first_byte(h.leap, h.version, h.mode);
    out[1] = h.stratum;
    out[2] = words::i8_as_u8(h.poll.0);
    out[3] = words::i8_as_u8(h.precision);
    out[4..8].copy_from_slice(&words::be32_bytes(h.rootdelay));
    out[8..12].copy_from_slice(&words::be32_bytes(h.rootdisp));
    out[12..16].copy_from_slice(&words::be32_bytes(h.refid.0));
    out[16..24].copy_from_slice(&words::be64_bytes(h.reftime.0));
    out[24..32].copy_from_slice(&words::be64_bytes(h.origin.0));
    out[32..40].copy_from_slice(&words::be64_bytes(h.receive.0));
    out[40..48].copy_from_slice(&words::be64_bytes(h.transmit.0));
    out
}

impl Header {
    // promise: 9.1
    #[tactic(auto, unfolding(crate::specs::Kiss::kisses_of))]
    pub fn kisses(self) -> Kisses
        ensures { result ≡ kisses_of self }
    {
        let any = self.stratum == 0;
        Kisses {
            rate: any && self.refid.is_rate(),
            deny: any && self.refid.is_deny(),
            rstr: any && self.refid.is_rstr(),
            ntsn: any && self.refid.is_ntsn(),
            any,
        }
    }
}
