// The calls save and load.
use answers::Refusal;
use association::Association;
use drill_text::fault::Fault;
use drill_text::keys::Pairs;
use drill_text::print::{Hex, YesNo};
use drill_text::value::{self, FILE_ROOM, FILLER};
use std::alloc::Global;

// Saves the association to a buffer. If that succeeds, the file is at the start of the buffer, and the association is left without its cookies.
pub fn save(alloc: Global, a: &mut Association, line: &[u8]) -> Result<String, Fault> {
    let pairs = Pairs::read(alloc, line, &["room"])?;
    let room = pairs
        .value("room")
        .or(b"8192")
        .parse(|text| value::up_to(text, FILE_ROOM))?;
    let mut file = vec![in alloc; FILLER; room]?;
    let saved = handover_save::save(*a, &mut file);
    *a = saved.association;
    Ok(match saved.answer {
        Ok(len) => {
            file.truncate(len);
            format!(in alloc; "save 0 len={len} file={}", Hex(&file))?
        }
        Err(refusal) => format!(in alloc; "save {}", refusal.number())?,
    })
}

// Replaces the association with that of a file, or with the blank record if the file is rejected.
pub fn load(alloc: Global, a: &mut Association, line: &[u8]) -> Result<String, Fault> {
    let pairs = Pairs::read(alloc, line, &["file"])?;
    let file = pairs.value("file").bytes(alloc, FILE_ROOM)?;
    let loaded = handover_load::load(&file);
    *a = loaded.association;
    Ok(match loaded.answer {
        Ok(loaded) => format!(in alloc; "load 0 retired={}", YesNo(loaded.retired))?,
        Err(refusal) => format!(in alloc; "load {}", refusal.number())?,
    })
}
