// The calls that write into a lent buffer, with every byte of it (RFC 8915 sections 5.4 and 5.5; RULES, part 7 and No. 1).
use crate::Case;
use drill_text::fault::Fault;
use drill_text::print::Hex;
use drill_text::value::COLLECT_ROOM;
use std::alloc::Global;

// What a buffer holds before it is lent, so that one can tell written bytes from others.
const FILLER: u8 = 0xee;

// Kept: beside the drill's `collect`, which takes a line of its own and shows the list alone: this shows the whole buffer, before and after.
pub fn collect(alloc: Global, fields: &[u8], room: usize) -> Result<String, Fault> {
    let mut buffer = vec![in alloc; FILLER; room.min(COLLECT_ROOM)]?;
    let before = format!(in alloc; "{}", Hex(&buffer))?;
    let answer = wire_collector::collect(fields, &mut buffer);
    let number = answers::number(answer);
    let len = answer.unwrap_or(0);
    Ok(format!(in alloc;
        "collect before={before} number={number} len={len} after={}",
        Hex(&buffer)
    )?)
}

// Kept: beside the drill's `request`, as `collect`.
pub fn request(alloc: Global, case: &Case) -> Result<String, Fault> {
    let mut buffer = vec![in alloc; FILLER; case.room]?;
    let answer = wire_request::write_request(
        case.request,
        case.uid,
        &case.bytes,
        case.asked,
        &mut buffer,
    );
    let number = answers::number(answer);
    let len = answer.unwrap_or(0);
    Ok(format!(in alloc; "request number={number} len={len} after={}", Hex(&buffer))?)
}
