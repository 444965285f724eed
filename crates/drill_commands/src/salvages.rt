// The call salvage.
use answers::Refusal;
use drill_text::fault::Fault;
use drill_text::keys::Pairs;
use drill_text::print::{Hex, Joined};
use drill_text::value::{self, COLLECT_ROOM, MAX_BYTES};
use salvage::PLACES;
use std::alloc::Global;

// The clean list is at the start of the buffer. Only the places of the first gaps are reported.
pub fn salvage(alloc: Global, line: &[u8]) -> Result<String, Fault> {
    let pairs = Pairs::read(alloc, line, &["list", "room"])?;
    let list = pairs.value("list").bytes(alloc, MAX_BYTES)?;
    let room = pairs
        .value("room")
        .or(b"4096")
        .parse(|text| value::up_to(text, COLLECT_ROOM))?;
    let mut clean = vec![in alloc; 0; room]?;
    Ok(match salvage::salvage(&list, &mut clean) {
        Ok(salvaged) => {
            clean.truncate(salvaged.len);
            let gaps = salvaged.gaps;
            let places = Joined(&salvaged.places[..gaps.min(PLACES)]);
            format!(in alloc;
                "salvage 0 kept={} skipped={} gaps={gaps} at={places} list={}",
                salvaged.kept,
                salvaged.skipped,
                Hex(&clean)
            )?
        }
        Err(refusal) => format!(in alloc; "salvage {}", refusal.number())?,
    })
}
