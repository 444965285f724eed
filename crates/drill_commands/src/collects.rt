// The call collect.
use answers::Refusal;
use drill_text::fault::Fault;
use drill_text::keys::Pairs;
use drill_text::print::Hex;
use drill_text::value::{self, COLLECT_ROOM, MAX_BYTES};
use std::alloc::Global;

pub fn collect(alloc: Global, line: &[u8]) -> Result<String, Fault> {
    let pairs = Pairs::read(alloc, line, &["plain", "room"])?;
    let decrypted = pairs.value("plain").bytes(alloc, MAX_BYTES)?;
    let room = pairs
        .value("room")
        .or(b"4096")
        .parse(|text| value::up_to(text, COLLECT_ROOM))?;
    let mut list = vec![in alloc; 0; room]?;
    Ok(match wire_collector::collect(&decrypted, &mut list) {
        Ok(len) => {
            list.truncate(len);
            format!(in alloc; "collect 0 list={}", Hex(&list))?
        }
        Err(refusal) => format!(in alloc; "collect {}", refusal.number())?,
    })
}
