// The unique identifier (RFC 8915 section 5.3): what each group of fields says about it, and when the groups match.
use crate::Case;
use drill_text::fault::Fault;
use drill_text::print::YesNo;
use drill_text::value::UID_BYTES;
use std::alloc::Global;
use std::fmt;
use wire_groups::Uid;
use wire_header::HEADER_BYTES;

// A group as its key takes it.
#[derive(Clone, Copy)]
struct GroupName(Uid);

impl fmt::Display for GroupName {
    fn fmt<W: fmt::Write>(&self, f: &mut fmt::Formatter<W>) -> fmt::Result {
        f.write_str(match self.0 {
            Uid::Absent => "absent",
            Uid::Agree => "agree",
            Uid::Disagree => "disagree",
        })
    }
}

// What the groups before and after an authenticated end say.
pub fn packet(
    alloc: Global,
    packet: &[u8],
    uid: [u8; UID_BYTES],
    end: usize,
) -> Result<String, Fault> {
    let authenticated = GroupName(wire_groups::packet_uid(packet, HEADER_BYTES, end, uid));
    let untrusted = GroupName(wire_groups::packet_uid(packet, end, packet.len(), uid));
    Ok(format!(in alloc; "uid authenticated={authenticated} untrusted={untrusted}")?)
}

pub fn encrypted(alloc: Global, fields: &[u8], uid: [u8; UID_BYTES]) -> Result<String, Fault> {
    let group = GroupName(wire_groups::decrypted_uid(fields, uid));
    Ok(format!(in alloc; "encrypted {group}")?)
}

pub fn matching(alloc: Global, case: &Case) -> Result<String, Fault> {
    let matches = wire_groups::uid_matches(
        case.authenticated,
        case.encrypted,
        case.untrusted,
        case.ntsn,
    );
    Ok(format!(in alloc; "match {}", YesNo(matches))?)
}
