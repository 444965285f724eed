// The call timer.
use association::Association;
use drill_text::fault::Fault;
use drill_text::keys::Pairs;
use drill_text::print::{Hex, KindName};
use drill_text::value::{self, FILLER, TIMER_ROOM};
use std::alloc::Global;
use time_types::PollInterval;
use timer_rules::{TimerAnswer, TimerInput};

// If a poll is sent, its cookie is at the start of the buffer.
pub fn timer(alloc: Global, a: &mut Association, line: &[u8]) -> Result<String, Fault> {
    let pairs = Pairs::read(alloc, line, &["now", "desired", "id", "uid", "room"])?;
    let input = TimerInput {
        time: pairs.value("now").parse(value::number)?,
        desired: PollInterval(pairs.value("desired").parse(value::number)?),
        id: pairs.value("id").parse(value::id)?,
        uid: pairs.value("uid").or(b"-").parse(value::uid)?,
    };
    let room = pairs
        .value("room")
        .or(b"1024")
        .parse(|text| value::up_to(text, TIMER_ROOM))?;
    let mut cookie = vec![in alloc; FILLER; room]?;
    let answer = timer::timer(a, input, &mut cookie);
    let number = answer.number();
    let TimerAnswer::Sent {
        kind,
        poll,
        len,
        asked,
    } = answer
    else {
        return Ok(format!(in alloc; "timer {number}")?);
    };
    cookie.truncate(usize::from(len));
    Ok(format!(in alloc;
        "timer {number} send={} poll={} cookie={} asked={asked}",
        KindName(kind),
        poll.0,
        Hex(&cookie)
    )?)
}
