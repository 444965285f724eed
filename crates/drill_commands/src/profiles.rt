// The calls metered and profile: make an association for a metered link, and say whether settings and list meet the profile.
use crate::calls::{self, Wanted};
use association::Association;
use drill_text::fault::Fault;
use std::alloc::Global;

pub fn metered(alloc: Global, a: &mut Association, line: &[u8]) -> Result<String, Fault> {
    let wanted = Wanted::read(alloc, line)?;
    let metered = association_metered::metered(wanted.settings, &wanted.list);
    *a = metered.association;
    calls::made(alloc, "metered", metered.answer, metered.dropped)
}

pub fn profile(alloc: Global, line: &[u8]) -> Result<String, Fault> {
    let wanted = Wanted::read(alloc, line)?;
    let answer = association_metered::profile(wanted.settings, &wanted.list);
    Ok(format!(in alloc; "profile {}", answers::number(answer))?)
}
