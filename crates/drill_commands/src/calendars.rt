// The calls calendar and plan.
use calendar::{CheckRefusal, PlanRefusal};
use drill_text::fault::Fault;
use drill_text::keys::Pairs;
use drill_text::print::Joined;
use drill_text::value::{self, MAX_ENTRIES};
use std::alloc::Global;

// An entry of a calendar: its start and its repeat, with a slash between them.
fn entry(text: &[u8]) -> Option<(u16, u16)> {
    let (start, repeat) = value::split_once(text, b'/')?;
    Some((value::number(start)?, value::number(repeat)?))
}

pub fn calendar(alloc: Global, line: &[u8]) -> Result<String, Fault> {
    let pairs = Pairs::read(alloc, line, &["cap", "entries"])?;
    let cap = pairs.value("cap").parse(value::number)?;
    let entries = pairs.value("entries").list(alloc, MAX_ENTRIES, entry)?;
    let starts: Vec<u16> = entries.iter().map(|(start, _)| *start).collect(alloc)?;
    let repeats: Vec<u16> = entries.iter().map(|(_, repeat)| *repeat).collect(alloc)?;
    let answer = calendar::check(cap, &starts, &repeats);
    let number = answers::number(answer);
    Ok(match answer {
        Err(CheckRefusal::BadRepeat(k) | CheckRefusal::LateStart(k)) => {
            format!(in alloc; "calendar {number} entry={k}")?
        }
        Err(CheckRefusal::OverCap(m)) => format!(in alloc; "calendar {number} minute={m}")?,
        Err(CheckRefusal::TooMany) | Ok(()) => format!(in alloc; "calendar {number}")?,
    })
}

pub fn plan(alloc: Global, line: &[u8]) -> Result<String, Fault> {
    let pairs = Pairs::read(alloc, line, &["cap", "repeats"])?;
    let cap = pairs.value("cap").parse(value::number)?;
    let repeats: Vec<u16> = pairs
        .value("repeats")
        .list(alloc, MAX_ENTRIES, value::number)?;
    let mut starts = vec![in alloc; 0; repeats.len()]?;
    let answer = calendar::plan(cap, &repeats, &mut starts);
    let number = answers::number(answer);
    Ok(match answer {
        Ok(()) => format!(in alloc; "plan {number} starts={}", Joined(&starts))?,
        Err(PlanRefusal::BadRepeat(k) | PlanRefusal::NoFit(k)) => format!(in alloc;
            "plan {number} entry={k}"
        )?,
        Err(PlanRefusal::TooMany | PlanRefusal::NoRoom) => format!(in alloc; "plan {number}")?,
    })
}
