// What a reply says, as one value, and how both of its forms are turned into it.
// Promises: the byte form is rejected (1) exactly if its header, its authenticated end or, with NTS, its decrypted fields are not valid.
// Rule: RULES, parts 6 to 9 and 11; definitions in specs/Incoming.antt.
#![tactic(auto)]

ghost use Rattle.std.specs.Prelude.{◌≡◌};
ghost use Rattle.wire_incoming.specs.Incoming.{leap_printed, leap_coded, leap_of, end_valid, decrypted_valid};
ghost use Rattle.wire_incoming.specs.Incoming.{group_of, encrypted_of, value_of, read_of, decoded_of};

use identifiers::ReferenceId;
use time_types::{NtpDuration, NtpTimestamp, PollInterval};
use wire_groups::Uid;
use wire_header::{HEADER_BYTES, Header, HeaderVersion, Kisses, Leap, Mode};

// The leap kinds of a measurement: a header's four, and Unknown, which only the decoded form can carry.
#[derive(Clone, Copy, PartialEq, Eq)]
pub enum NtpLeapIndicator {
    NoWarning,
    Leap61,
    Leap59,
    Unknown,
    Unsynchronized,
}

// What a reply says, in the terms in which it is judged.
// Kept: `server` is one of the things that a reply says: a kiss counts whatever it is, and the rules ask for it last.
#[derive(Clone, Copy)]
pub struct Reply {
    pub version: u8,
    pub leap: NtpLeapIndicator,
    // Whether its mode is that of a server's answer.
    pub server: bool,
    pub stratum: u8,
    pub poll: PollInterval,
    pub precision: i8,
    pub rootdelay: NtpDuration,
    pub rootdisp: NtpDuration,
    pub refid: ReferenceId,
    // The 64 bits that repeat the request's: the origin timestamp, or V5's client cookie.
    pub origin: u64,
    pub receive: NtpTimestamp,
    pub transmit: NtpTimestamp,
    pub kisses: Kisses,
    // What each group of its fields says about the unique identifier.
    pub authenticated: Uid,
    pub encrypted: Uid,
    pub untrusted: Uid,
}

// The mode of a V5 packet.
#[derive(Clone, Copy, PartialEq, Eq)]
pub enum DecodedMode {
    Request,
    Response,
}

// The decoded form of a reply, V5 only: what the caller reads from the packet.
#[derive(Clone, Copy)]
pub struct DecodedReply {
    pub leap: NtpLeapIndicator,
    pub mode: DecodedMode,
    pub stratum: u8,
    pub poll: PollInterval,
    pub precision: i8,
    pub rootdelay: NtpDuration,
    pub rootdisp: NtpDuration,
    pub receive: NtpTimestamp,
    pub transmit: NtpTimestamp,
    // The client cookie.
    pub cookie: u64,
    pub kisses: Kisses,
    pub authenticated: Uid,
    pub encrypted: Uid,
    pub untrusted: Uid,
}

impl NtpLeapIndicator {
    // The kind as a number, for a program to print.
    // Kept, 2 and 4: a method and no `From`: `u8::from` of a header's leap says 3 for Unsynchronized and this one 4; under one name they would be confused.
    pub fn code(self) -> u8
        ensures { result ≡ leap_printed self }
    {
        match self {
            NtpLeapIndicator::NoWarning => 0,
            NtpLeapIndicator::Leap61 => 1,
            NtpLeapIndicator::Leap59 => 2,
            NtpLeapIndicator::Unknown => 3,
            NtpLeapIndicator::Unsynchronized => 4,
        }
    }
}

// A number that stands for no leap kind.
#[derive(Clone, Copy, PartialEq, Eq)]
pub struct UnknownLeap(pub u8);

// The kind for the number that `code` gives.
impl TryFrom<u8> for NtpLeapIndicator {
    type Error = UnknownLeap;

    ghost try_from_gives = { λ code leap. leap ≡ leap_coded code };

    fn try_from(value: u8) -> Result<NtpLeapIndicator, UnknownLeap> {
        match value {
            0 => Ok(NtpLeapIndicator::NoWarning),
            1 => Ok(NtpLeapIndicator::Leap61),
            2 => Ok(NtpLeapIndicator::Leap59),
            3 => Ok(NtpLeapIndicator::Unknown),
            4 => Ok(NtpLeapIndicator::Unsynchronized),
            _ => Err(UnknownLeap(value)),
        }
    }
}

impl From<Leap> for NtpLeapIndicator {
    ghost from_gives = { λ header leap. leap ≡ leap_of header };

    fn from(header: Leap) -> NtpLeapIndicator
        ensures { result ≡ leap_of header }
    {
        match header {
            Leap::NoWarning => NtpLeapIndicator::NoWarning,
            Leap::Leap61 => NtpLeapIndicator::Leap61,
            Leap::Leap59 => NtpLeapIndicator::Leap59,
            Leap::Unsynchronized => NtpLeapIndicator::Unsynchronized,
        }
    }
}

// Whether the caller's authenticated end is a place of the packet's walk.
fn end_valid(version: HeaderVersion, p: &[u8], end: usize) -> bool
    ensures { result ≡ end_valid version p.now end }
{
    match version {
        HeaderVersion::V3 => end == HEADER_BYTES,
        HeaderVersion::V4 => wire_fields::is_place(p, end),
    }
}

// Whether the decrypted fields are whole. Only NTS needs this.
fn decrypted_valid(nts: bool, decrypted: &[u8]) -> bool
    ensures { result ≡ decrypted_valid nts decrypted.now }
{
    !nts || wire_fields::decrypted_walk(decrypted).is_some()
}

// What the packet's fields that start at `from` or later and before `to` say about the identifier. Only NTS needs this.
// Kept: the parameters one by one, as the definition `group_of` has them: only the limits differ between its two calls.
fn group(nts: bool, version: HeaderVersion, p: &[u8], from: usize, to: usize, uid: [u8; 32]) -> Uid
    ensures { result ≡ group_of nts version p.now from to uid }
{
    match version {
        HeaderVersion::V4 if nts => wire_groups::packet_uid(p, from, to, uid),
        _ => Uid::Absent,
    }
}

// What the decrypted fields say about the identifier. Only NTS needs this.
fn encrypted(nts: bool, decrypted: &[u8], uid: [u8; 32]) -> Uid
    ensures { result ≡ encrypted_of nts decrypted.now uid }
{
    if nts {
        wire_groups::decrypted_uid(decrypted, uid)
    } else {
        Uid::Absent
    }
}

// The value of a header and its groups.
// Kept, 2: beside `DecodedReply::value`, where half of the fields are made in another way: one function for both would take them all as parameters.
// Kept, 4: a pattern and no `==`: a derived `==` compares with a constant in memory, and the module for boards has none (boards/module.py refuses them).
fn value(h: Header, authenticated: Uid, encrypted: Uid, untrusted: Uid) -> Reply
    ensures { result ≡ value_of h authenticated encrypted untrusted }
{
    Reply {
        version: h.version.number(),
        leap: NtpLeapIndicator::from(h.leap),
        server: matches!(h.mode, Mode::Server),
        stratum: h.stratum,
        poll: h.poll,
        precision: h.precision,
        rootdelay: NtpDuration::from_short(h.rootdelay),
        rootdisp: NtpDuration::from_short(h.rootdisp),
        refid: h.refid,
        origin: h.origin.0,
        receive: h.receive,
        transmit: h.transmit,
        kisses: h.kisses(),
        authenticated,
        encrypted,
        untrusted,
    }
}

// The byte form of a reply: the packet, its authenticated end, and the decrypted fields.
// promise: 7.7, 8.3
#[tactic(auto, unfolding(crate::specs::Incoming::read_of, crate::specs::Incoming::bytes_read))]
pub fn read_reply(
    nts: bool,
    uid: [u8; 32],
    packet: &[u8],
    end: usize,
    decrypted: &[u8],
) -> Option<Reply>
    ensures { result ≡ read_of nts uid packet.now end decrypted.now }
{
    let h = wire_header::read_header(packet)?;
    if !end_valid(h.version, packet, end) || !decrypted_valid(nts, decrypted) {
        return None;
    }
    let authenticated = group(nts, h.version, packet, HEADER_BYTES, end, uid);
    let encrypted = encrypted(nts, decrypted, uid);
    let untrusted = group(nts, h.version, packet, end, packet.len(), uid);
    Some(value(h, authenticated, encrypted, untrusted))
}

impl DecodedReply {
    // The value of a decoded reply. Its version is 5.
    // Kept, 2 and 4: as at the `value` of a header.
    // promise: 9.2
    pub fn value(self) -> Reply
        ensures { result ≡ decoded_of self }
    {
        Reply {
            version: 5,
            leap: self.leap,
            server: matches!(self.mode, DecodedMode::Response),
            stratum: self.stratum,
            poll: self.poll,
            precision: self.precision,
            rootdelay: self.rootdelay,
            rootdisp: self.rootdisp,
            refid: ReferenceId::none(),
            origin: self.cookie,
            receive: self.receive,
            transmit: self.transmit,
            kisses: self.kisses,
            authenticated: self.authenticated,
            encrypted: self.encrypted,
            untrusted: self.untrusted,
        }
    }
}
