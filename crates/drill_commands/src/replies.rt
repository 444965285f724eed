// The calls reply and reply5.
ghost use Rattle.std.specs.Prelude.{Some};
ghost use Rattle.drill_commands.specs.Made.{fell};

use association::Association;
use cookiestash::Dropped;
use drill_text::fault::Fault;
use drill_text::keys::{Pairs, Value};
use drill_text::value::{self, MAX_BYTES};
use reply::Replied;
use reply_clauses::Stamps;
use reply_rules::{Packet, ReplyAnswer};
use std::alloc::Global;
use std::fmt;
use time_types::{NtpDuration, NtpTimestamp, PollInterval};
use wire_header::Kisses;
use wire_incoming::{DecodedMode, DecodedReply, NtpLeapIndicator};

// The word in place of a cookie list that runs the collector.
const COLLECT: &[u8] = b"collect";

// What fell out of the stash while a list was stored.
#[derive(Clone, Copy)]
pub struct Fell(pub Dropped);

impl fmt::Display for Fell {
    ghost output = { λ it. Some (fell it.0) };

    fn fmt<W: fmt::Write>(&self, f: &mut fmt::Formatter<W>) -> fmt::Result {
        write!(f, "dropped={} lost={}", self.0.count, self.0.bytes)
    }
}

// The answer to either form, after its word.
fn answered(alloc: Global, word: &str, replied: Replied) -> Result<String, Fault> {
    let mut out = format!(in alloc; "{word} {}", replied.answer.number())?;
    if let ReplyAnswer::Measured(m) = replied.answer {
        write!(
            out,
            " delay={} offset={} local={} mono={}",
            m.delay.0, m.offset.0, m.local.0, m.mono
        )?;
        write!(
            out,
            " stratum={} rootdelay={} rootdisp={}",
            m.stratum, m.rootdelay.0, m.rootdisp.0
        )?;
        write!(
            out,
            " leap={} precision={} {}",
            m.leap.code(),
            m.precision,
            Fell(replied.dropped)
        )?;
    }
    Ok(out)
}

fn stamps(pairs: &Pairs) -> Result<Stamps, Fault> {
    Ok(Stamps {
        time: pairs.value("now").parse(value::number)?,
        t1: NtpTimestamp(pairs.value("t1").parse(value::number)?),
        t4: NtpTimestamp(pairs.value("t4").parse(value::number)?),
    })
}

// The cookie list of a reply: bytes of the line, or what the collector makes of the decrypted bytes; nothing if it rejects them.
fn cookie_list(alloc: Global, value: Value, decrypted: &[u8]) -> Result<Vec<u8>, Fault> {
    if value.text()? != COLLECT {
        return value.bytes(alloc, MAX_BYTES);
    }
    let mut list = vec![in alloc; 0; MAX_BYTES]?;
    let len = wire_collector::collect(decrypted, &mut list).unwrap_or(0);
    list.truncate(len);
    Ok(list)
}

pub fn reply(alloc: Global, a: &mut Association, line: &[u8]) -> Result<String, Fault> {
    let pairs = Pairs::read(
        alloc,
        line,
        &["now", "t1", "t4", "packet", "auth", "plain", "list"],
    )?;
    let stamps = stamps(&pairs)?;
    let packet = pairs.value("packet").bytes(alloc, MAX_BYTES)?;
    let end = pairs.value("auth").or(b"48").parse(value::number)?;
    let decrypted = pairs.value("plain").or(b"-").bytes(alloc, MAX_BYTES)?;
    let list = cookie_list(alloc, pairs.value("list").or(b"-"), &decrypted)?;
    let form = Packet {
        packet: &packet,
        end,
        decrypted: &decrypted,
    };
    answered(alloc, "reply", reply::reply(a, form, &list, stamps))
}

// A leap indicator by its number in the language.
fn leap(text: &[u8]) -> Option<NtpLeapIndicator> {
    NtpLeapIndicator::try_from(value::number::<u8>(text)?).ok()
}

// A mode by its number in the language.
// Kept: no TryFrom: 3 and 4 are the drill's numbers (docs/DRILL.md), those of a packet's mode. C has 0 and 1, and the kind's crate has no numbers.
fn mode(text: &[u8]) -> Option<DecodedMode> {
    match value::number(text)? {
        3u8 => Some(DecodedMode::Request),
        4 => Some(DecodedMode::Response),
        _ => None,
    }
}

// Names of kisses joined by commas, or '-' for none.
fn kisses(text: &[u8]) -> Option<Kisses> {
    let mut kisses = Kisses {
        rate: false,
        deny: false,
        rstr: false,
        ntsn: false,
        any: false,
    };
    if let b"-" = text {
        return Some(kisses);
    }
    for name in text.split(|b| *b == b',') {
        match name {
            b"rate" => kisses.rate = true,
            b"deny" => kisses.deny = true,
            b"rstr" => kisses.rstr = true,
            b"ntsn" => kisses.ntsn = true,
            b"any" => kisses.any = true,
            _ => return None,
        }
    }
    Some(kisses)
}

// The reply that a line of the decoded form says.
fn decoded(pairs: &Pairs) -> Result<DecodedReply, Fault> {
    Ok(DecodedReply {
        leap: pairs.value("leap").parse(leap)?,
        mode: pairs.value("mode").parse(mode)?,
        stratum: pairs.value("stratum").parse(value::number)?,
        poll: PollInterval(pairs.value("poll").parse(value::number)?),
        precision: pairs.value("precision").parse(value::number)?,
        rootdelay: NtpDuration(pairs.value("rootdelay").parse(value::number)?),
        rootdisp: NtpDuration(pairs.value("rootdisp").parse(value::number)?),
        receive: NtpTimestamp(pairs.value("receive").parse(value::number)?),
        transmit: NtpTimestamp(pairs.value("transmit").parse(value::number)?),
        cookie: pairs.value("cookie").parse(value::id)?,
        kisses: pairs.value("kiss").or(b"-").parse(kisses)?,
        authenticated: pairs.value("auth").or(b"absent").parse(value::group)?,
        encrypted: pairs.value("enc").or(b"absent").parse(value::group)?,
        untrusted: pairs.value("untrusted").or(b"absent").parse(value::group)?,
    })
}

pub fn reply5(alloc: Global, a: &mut Association, line: &[u8]) -> Result<String, Fault> {
    let pairs = Pairs::read(
        alloc,
        line,
        &[
            "now",
            "t1",
            "t4",
            "leap",
            "mode",
            "stratum",
            "poll",
            "precision",
            "rootdelay",
            "rootdisp",
            "receive",
            "transmit",
            "cookie",
            "kiss",
            "auth",
            "enc",
            "untrusted",
            "list",
        ],
    )?;
    let stamps = stamps(&pairs)?;
    let decoded = decoded(&pairs)?;
    let list = pairs.value("list").or(b"-").bytes(alloc, MAX_BYTES)?;
    answered(alloc, "reply5", reply::reply(a, decoded, &list, stamps))
}
