// Extension fields: what is at an offset, how the walk ends, whether the offset is a place, and the bodies (RFC 7822 section 3).
use drill_text::fault::Fault;
use drill_text::print::{Hex, YesNo};
use std::alloc::Global;
use std::fmt;
use wire_fields::{Step, walker};

#[derive(Clone, Copy)]
struct StepShown(Step);

impl fmt::Display for StepShown {
    fn fmt<W: fmt::Write>(&self, f: &mut fmt::Formatter<W>) -> fmt::Result {
        match self.0 {
            Step::Field {
                kind,
                start,
                len,
                next,
            } => write!(f, "field={kind:04x} start={start} len={len} next={next}"),
            Step::End => f.write_str("end"),
            Step::Broken => f.write_str("broken"),
        }
    }
}

// Where a walk ends.
#[derive(Clone, Copy)]
struct End(Option<usize>);

impl fmt::Display for End {
    fn fmt<W: fmt::Write>(&self, f: &mut fmt::Formatter<W>) -> fmt::Result {
        match self.0 {
            Some(at) => write!(f, "{at}"),
            None => f.write_str("broken"),
        }
    }
}

pub fn packet(alloc: Global, packet: &[u8], at: usize) -> Result<String, Fault> {
    let step = StepShown(wire_fields::packet_field_at(packet, at));
    let end = End(wire_fields::packet_walk(packet));
    let place = YesNo(wire_fields::is_place(packet, at));
    Ok(format!(in alloc; "walk {step} walk={end} place={place}")?)
}

pub fn decrypted(alloc: Global, fields: &[u8], at: usize) -> Result<String, Fault> {
    let step = StepShown(wire_fields::decrypted_field_at(fields, at));
    let end = End(wire_fields::decrypted_walk(fields));
    Ok(format!(in alloc; "decrypted {step} walk={end}")?)
}

// The part of the packet at any place, with or without a field; what the walker finds first, and the body of that field.
pub fn walker(alloc: Global, packet: &[u8], at: usize, len: usize) -> Result<String, Fault> {
    let part = Hex(walker::body_at(packet, at, len));
    let step = walker::first(packet);
    let shown = StepShown(step);
    let Step::Field { start, len, .. } = step else {
        return Ok(format!(in alloc; "walker part={part} {shown}")?);
    };
    let body = Hex(walker::body_at(packet, start, len));
    Ok(format!(in alloc; "walker part={part} {shown} body={body}")?)
}
