// The call request.
use answers::Refusal;
use drill_text::fault::Fault;
use drill_text::keys::Pairs;
use drill_text::print::Hex;
use drill_text::value::{self, FILLER, MAX_BYTES, REQUEST_ROOM};
use std::alloc::Global;
use time_types::PollInterval;
use wire_request::Request;

// A written packet is at the start of the buffer.
pub fn request(alloc: Global, line: &[u8]) -> Result<String, Fault> {
    let pairs = Pairs::read(
        alloc,
        line,
        &[
            "kind", "poll", "id", "mark", "uid", "cookie", "asked", "room",
        ],
    )?;
    let request = Request {
        kind: pairs.value("kind").parse(value::send_kind)?,
        poll: PollInterval(pairs.value("poll").parse(value::number)?),
        id: pairs.value("id").parse(value::id)?,
        upgrademark: pairs
            .value("mark")
            .or(b"0000000000000000")
            .parse(value::id)?,
    };
    let uid = pairs.value("uid").or(b"-").parse(value::uid)?;
    let cookie = pairs.value("cookie").or(b"-").bytes(alloc, MAX_BYTES)?;
    let asked = pairs.value("asked").or(b"0").parse(value::number)?;
    let room = pairs
        .value("room")
        .or(b"6144")
        .parse(|text| value::up_to(text, REQUEST_ROOM))?;
    let mut packet = vec![in alloc; FILLER; room]?;
    Ok(
        match wire_request::write_request(request, uid, &cookie, asked, &mut packet) {
            Ok(len) => {
                packet.truncate(len);
                format!(in alloc; "request 0 len={len} packet={}", Hex(&packet))?
            }
            Err(refusal) => format!(in alloc; "request {}", refusal.number())?,
        },
    )
}
