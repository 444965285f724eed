// The commands on the record itself: show, cookies, blank, poke.
use association::{Association, Pending};
use cookiestash::{CookieStash, MAX_COOKIES};
use drill_text::fault::Fault;
use drill_text::keys::Pairs;
use drill_text::print::{Hex, Joined, VersionName, YesNo};
use drill_text::value;
use identifiers::ReferenceId;
use reach::Reach;
use std::alloc::{AllocError, Global};
use std::fmt;
use time_types::PollInterval;

// A request: '-' or its identifiers and its deadline.
#[derive(Clone, Copy)]
struct Request<'a>(&'a Pending);

impl fmt::Display for Request<'_> {
    fn fmt<W: fmt::Write>(&self, f: &mut fmt::Formatter<W>) -> fmt::Result {
        let request = self.0;
        if !request.present {
            return f.write_str("-");
        }
        write!(
            f,
            "{:016x}/{}/{}",
            request.id,
            Hex(&request.uid),
            request.deadline
        )
    }
}

// The record's numbers: the effort, the version and the polls; the request and the source; the stash, with the slots' lengths, slot 0 first; what is since the
// last sent poll; the capacity.
pub fn show(alloc: Global, a: &Association, line: &[u8]) -> Result<String, Fault> {
    let _ = Pairs::read(alloc, line, &[])?;
    let state = &a.state;
    let effort = state.effort;
    let polls = state.polls;
    let source = state.source;
    let stash = &a.stash;
    let lens = stash.slots.map(|slot| slot.len);
    let mut out = format!(in alloc; "record reach={} tries={}", effort.reach.0, effort.tries)?;
    write!(
        out,
        " version={} last={} remote={}",
        VersionName(state.version),
        polls.last.0,
        polls.remote.0
    )?;
    write!(
        out,
        " pending={} denial={}",
        Request(&state.request),
        YesNo(source.denial)
    )?;
    write!(
        out,
        " stratum={} refid={:08x}",
        source.stratum, source.refid.0
    )?;
    write!(
        out,
        " read={} held={} lens={}",
        stash.read,
        stash.held,
        Joined(&lens)
    )?;
    write!(
        out,
        " answered={} unanswered={}",
        YesNo(state.request.answered),
        effort.unanswered
    )?;
    write!(out, " capacity={}", a.settings.capacity)?;
    Ok(out)
}

// The stored bytes of the cookies of a stash, oldest first; one that is longer than a slot has none.
fn put_cookies(out: &mut String, stash: CookieStash, capacity: u8) -> Result<(), AllocError> {
    let mut rest = stash;
    for i in 0..MAX_COOKIES {
        let taken = rest.get(capacity);
        let Some(slot) = taken.cookie else {
            return Ok(());
        };
        rest = taken.stash;
        let separator = if i == 0 { ' ' } else { ',' };
        let stored = slot.bytes.get(..usize::from(slot.len)).unwrap_or(&[]);
        write!(out, "{separator}{}", Hex(stored))?;
    }
    Ok(())
}

// How many cookies a record holds, and each of them; none if the record is not whole.
pub fn cookies(alloc: Global, a: &Association, line: &[u8]) -> Result<String, Fault> {
    let _ = Pairs::read(alloc, line, &[])?;
    if !a.whole() {
        return Ok(String::from_str(alloc, "cookies 0")?);
    }
    let mut out = format!(in alloc; "cookies {}", a.stash.held)?;
    put_cookies(&mut out, a.stash, a.settings.capacity)?;
    Ok(out)
}

pub fn blank(alloc: Global, a: &mut Association, line: &[u8]) -> Result<String, Fault> {
    let _ = Pairs::read(alloc, line, &[])?;
    *a = Association::blank();
    Ok(String::from_str(alloc, "blank")?)
}

// The numbers of the record that poke sets.
#[derive(Clone, Copy)]
enum Field {
    Reach,
    Tries,
    Unanswered,
    Stratum,
    Refid,
    Last,
    Remote,
    Version,
    Id,
    Deadline,
    Uid,
    Answered,
    Read,
    Held,
    SlotByte,
    Min,
    Max,
    Startup,
    Window,
    Capacity,
    Start,
}

impl Field {
    // Kept: no TryFrom: it would be as long, with a type of error besides, and `named` says that it goes by a name.
    fn named(name: &[u8]) -> Option<Field> {
        Some(match name {
            b"reach" => Field::Reach,
            b"tries" => Field::Tries,
            b"unanswered" => Field::Unanswered,
            b"stratum" => Field::Stratum,
            b"refid" => Field::Refid,
            b"last" => Field::Last,
            b"remote" => Field::Remote,
            b"version" => Field::Version,
            b"id" => Field::Id,
            b"deadline" => Field::Deadline,
            b"uid" => Field::Uid,
            b"answered" => Field::Answered,
            b"read" => Field::Read,
            b"held" => Field::Held,
            b"slotbyte" => Field::SlotByte,
            b"min" => Field::Min,
            b"max" => Field::Max,
            b"startup" => Field::Startup,
            b"window" => Field::Window,
            b"capacity" => Field::Capacity,
            b"start" => Field::Start,
            _ => return None,
        })
    }
}

fn poll(text: &[u8]) -> Option<PollInterval> {
    value::number(text).map(PollInterval)
}

// Sets one byte of a slot, stored or not: so one past the stored bytes can be made nonzero. The text is the slot, the place in it and the byte.
fn set_slot_byte(stash: &mut CookieStash, text: &[u8]) -> Option<()> {
    let (slot, rest) = value::split_once(text, b'/')?;
    let (place, byte) = value::split_once(rest, b'/')?;
    let slot: usize = value::number(slot)?;
    let place: usize = value::number(place)?;
    *stash.slots.get_mut(slot)?.bytes.get_mut(place)? = value::number(byte)?;
    Some(())
}

// Sets one number of the record, if the text is a value of it. The request stays present or absent: so an absent one can be made nonzero.
fn set(a: &mut Association, field: Field, text: &[u8]) -> Option<()> {
    match field {
        Field::Reach => a.state.effort.reach = Reach(value::number(text)?),
        Field::Tries => a.state.effort.tries = value::number(text)?,
        Field::Unanswered => a.state.effort.unanswered = value::number(text)?,
        Field::Stratum => a.state.source.stratum = value::number(text)?,
        Field::Refid => a.state.source.refid = ReferenceId(value::identifier(text)?),
        Field::Last => a.state.polls.last = poll(text)?,
        Field::Remote => a.state.polls.remote = poll(text)?,
        Field::Version => a.state.version = value::version(text)?,
        Field::Id => a.state.request.id = value::id(text)?,
        Field::Deadline => a.state.request.deadline = value::number(text)?,
        Field::Uid => a.state.request.uid = value::uid(text)?,
        Field::Answered => a.state.request.answered = value::up_to(text, 1)? == 1,
        Field::Read => a.stash.read = value::number(text)?,
        Field::Held => a.stash.held = value::number(text)?,
        Field::SlotByte => set_slot_byte(&mut a.stash, text)?,
        Field::Min => a.settings.min = poll(text)?,
        Field::Max => a.settings.max = poll(text)?,
        Field::Startup => a.settings.startup = value::number(text)?,
        Field::Window => a.settings.window = value::number(text)?,
        Field::Capacity => a.settings.capacity = value::number(text)?,
        Field::Start => a.settings.start = value::version(text)?,
    }
    Some(())
}

pub fn poke(alloc: Global, a: &mut Association, line: &[u8]) -> Result<String, Fault> {
    let pairs = Pairs::read(alloc, line, &["key", "value"])?;
    let key = pairs.value("key").text()?;
    let text = pairs.value("value").text()?;
    let field = Field::named(key).ok_or(Fault::Bad("key"))?;
    set(a, field, text).ok_or(Fault::Bad("value"))?;
    Ok(String::from_str(alloc, "poke")?)
}
