// The request writer: the packet of a poll, up to where the caller's authenticator goes.
// Promises: the packet byte by byte, and nothing else in the buffer changes; a rejected request writes nothing.
// Rule: RULES, No. 1; definitions in specs/Request.antt, specs/Extension.antt and specs/Answer.antt.
#![tactic(auto)]

ghost use Rattle.std.specs.Prelude.{◌≡◌, true, ◌+◌, ◌*◌, ◌-◌, ◌≤◌, ◌<◌, length, replicate, Err};
ghost use Rattle.std.proofs.Common.{rules};
ghost use Rattle.words.specs.Put.{laid_at};
ghost use Rattle.wire_request.specs.Extension.{extension, filled, field_length, extension_bytes, all_bytes};
ghost use Rattle.wire_request.specs.Request.{is_v5, has_nts, ask_valid, reftime_of, header_for, placeholder, fields_for, with_fields};
ghost use Rattle.wire_request.specs.Answer.{number_of, answer_for, buffer_for, request_of, buffer_of};

use answers::Refusal;
use cookielist::MAX_COOKIE;
use identifiers::ReferenceId;
use time_types::{NtpTimestamp, PollInterval};
use version::SendKind;
use wire_collector::COOKIE_KIND;
use wire_groups::UID_KIND;
use wire_header::{HEADER_BYTES, Header, HeaderVersion, Leap, Mode};

// A field starts with its type and its length.
const HEAD: usize = 4;

// The type of a field that asks for one more cookie.
const PLACEHOLDER_KIND: u16 = 0x0304;

// The length of the uid's field, and of all that comes before the cookie's.
const UID_FIELD: usize = 36;

const IN_FRONT: usize = 84;

// The most new cookies that a request may ask for.
const MAX_ASKED: u8 = 8;

// What a poll sends, but for the fields of NTS.
#[derive(Clone, Copy)]
pub struct Request {
    pub kind: SendKind,
    pub poll: PollInterval,
    // The random 64 bits that a true reply repeats.
    pub id: u64,
    // What an upgrade request has for its reference timestamp.
    pub upgrademark: u64,
}

// Why nothing was written.
#[derive(Clone, Copy, PartialEq, Eq)]
pub enum RequestRefusal {
    VersionFive,
    ShortBuffer,
    CookieOrCount,
}

impl Refusal for RequestRefusal {
    ghost number_of = { λ refusal. number_of (Err refusal) };

    // The number of the answer, in RULES.
    // promise: no1.5
    fn number(self) -> u8 {
        match self {
            RequestRefusal::VersionFive => 50,
            RequestRefusal::ShortBuffer => 51,
            RequestRefusal::CookieOrCount => 52,
        }
    }

    ghost never_zero = { Prim.search rules };
}

fn is_v5(kind: SendKind) -> bool
    ensures { result ≡ is_v5 kind }
{
    matches!(kind, SendKind::V5 | SendKind::NtsV5)
}

// Kept: two tests of one shape, each with its definition, `is_v5` and `has_nts`: one over a list of kinds would be longer than the two.
fn has_nts(kind: SendKind) -> bool
    ensures { result ≡ has_nts kind }
{
    matches!(kind, SendKind::NtsV4 | SendKind::NtsV5)
}

impl Request {
    // The reference timestamp: the mark in an upgrade request, zero in any other.
    fn reftime(self) -> u64
        ensures { result ≡ reftime_of self.kind self.upgrademark }
    {
        match self.kind {
            SendKind::V4Upgrade => self.upgrademark,
            _ => 0,
        }
    }

    // Its transmit timestamp is not the time but the random identifier: nobody can guess it, and a true reply repeats it.
    #[tactic(auto, unfolding(crate::specs::Request::header_for))]
    fn header(self) -> Header
        ensures { result ≡ header_for self.kind self.poll self.id self.upgrademark }
    {
        Header {
            version: HeaderVersion::V4,
            leap: Leap::NoWarning,
            mode: Mode::Client,
            stratum: 0,
            poll: self.poll,
            precision: 0,
            rootdelay: 0,
            rootdisp: 0,
            refid: ReferenceId(0),
            reftime: NtpTimestamp(self.reftime()),
            origin: NtpTimestamp(0),
            receive: NtpTimestamp(0),
            transmit: NtpTimestamp(self.id),
        }
    }
}

// Whether a cookie of this length may be sent, and so many new ones may be asked for.
fn ask_valid(len: usize, asked: u8) -> bool
    ensures { result ≡ ask_valid len asked }
{
    len <= MAX_COOKIE && 1 <= asked && asked <= MAX_ASKED
}

// How long the field of a body is: a multiple of four, and at least 16.
#[tactic(auto, unfolding(crate::specs::Extension::field_length))]
fn field_length(len: usize) -> usize
    requires { len ≤ 724 }
    ensures { result ≡ field_length len }
{
    ((HEAD + len + 3) / 4 * 4).max(16)
}

// Fills a slice with a field: its type and its length, its body, and zeros.
fn put_field(field: &mut [u8], kind: u16, body: &[u8])
    requires { (length body.now + 4 ≤ length field.old) × (length field.old < 65536) }
    ensures { field.new ≡ extension_bytes (extension kind (length field.old) body.now) }
{
    let head = words::be16_pair(kind, field.len() as u16);
    let end = HEAD + body.len();
    field[..HEAD].copy_from_slice(&head);
    field[HEAD..end].copy_from_slice(body);
    field[end..].fill(0);
}

// Fills a slice with n placeholders of a length, one after another.
fn put_placeholders(fields: &mut [u8], len: usize, n: usize)
    requires { (length fields.old ≡ n * len) × (4 ≤ len) × (len < 65536) }
    ensures { fields.new ≡ all_bytes (replicate n (placeholder len)) }
{
    // Kept: the offset by a product. A `for` over `chunks_exact_mut` was tried: its facts do not name the slice that the pieces are of.
    for i in 0..n {
        let at = i * len;
        put_field(&mut fields[at..at + len], PLACEHOLDER_KIND, b"");
    }
}

// Fills a slice with the fields after the header; `len` is the length of the cookie's field.
fn put_fields(fields: &mut [u8], uid: [u8; 32], cookie: &[u8], len: usize, asked: usize)
    requires { (length fields.old ≡ 36 + asked * len) × (len ≡ field_length (length cookie.now)) × (length cookie.now ≤ 724) × (1 ≤ asked) }
    ensures { fields.new ≡ all_bytes (fields_for uid cookie.now asked) }
{
    let end = UID_FIELD + len;
    put_field(&mut fields[..UID_FIELD], UID_KIND, &uid);
    put_field(&mut fields[UID_FIELD..end], COOKIE_KIND, cookie);
    put_placeholders(&mut fields[end..], len, asked - 1);
}

// Writes a packet that is only a header.
fn write_plain(front: [u8; 48], out: &mut [u8]) -> Result<usize, RequestRefusal>
    ensures { (result ≡ answer_for front out.old) × (out.new ≡ buffer_for front out.old) }
{
    if out.len() < HEADER_BYTES {
        return Err(RequestRefusal::ShortBuffer);
    }
    out[..HEADER_BYTES].copy_from_slice(&front);
    Ok(HEADER_BYTES)
}

// Writes a packet of a header and the fields of NTS.
fn write_nts(
    front: [u8; 48],
    uid: [u8; 32],
    cookie: &[u8],
    asked: u8,
    out: &mut [u8],
) -> Result<usize, RequestRefusal>
    requires { ask_valid (length cookie.now) asked ≡ true }
    ensures { (result ≡ answer_for (with_fields front uid cookie.now asked) out.old) ×
        (out.new ≡ buffer_for (with_fields front uid cookie.now asked) out.old) }
{
    let len = field_length(cookie.len());
    let new = usize::from(asked);
    let long = IN_FRONT + new * len;
    if out.len() < long {
        return Err(RequestRefusal::ShortBuffer);
    }
    out[..HEADER_BYTES].copy_from_slice(&front);
    put_fields(&mut out[HEADER_BYTES..long], uid, cookie, len, new);
    Ok(long)
}

// Writes the request to the start of the buffer, and returns its length. In order: 50, with NTS 52, 51, the packet.
// promise: no1.1, no1.2, no1.3, no1.4, no1.5
pub fn write_request(
    request: Request,
    uid: [u8; 32],
    cookie: &[u8],
    asked: u8,
    out: &mut [u8],
) -> Result<usize, RequestRefusal>
    ensures { (result ≡ request_of request.kind request.poll request.id request.upgrademark uid cookie.now asked (length out.old)) ×
        (out.new ≡ buffer_of request.kind request.poll request.id request.upgrademark uid cookie.now asked out.old) }
{
    if is_v5(request.kind) {
        return Err(RequestRefusal::VersionFive);
    }
    let front = wire_header::write_header(request.header());
    if !has_nts(request.kind) {
        return write_plain(front, out);
    }
    if !ask_valid(cookie.len(), asked) {
        return Err(RequestRefusal::CookieOrCount);
    }
    write_nts(front, uid, cookie, asked, out)
}
