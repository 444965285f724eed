// The header: its number, its fields, the header written again, and the kiss that it may be (RFC 5905 sections 7.3 and 7.4, RFC 8915 section 5.7).
use drill_text::fault::Fault;
use drill_text::print::{Hex, YesNo};
use std::alloc::Global;
use std::fmt;
use time_types::NtpTimestamp;
use wire_header::{Header, Kisses};

// A timestamp: its seconds in decimal, and its fraction in hexadecimal.
#[derive(Clone, Copy)]
struct Stamp(NtpTimestamp);

impl fmt::Display for Stamp {
    fn fmt<W: fmt::Write>(&self, f: &mut fmt::Formatter<W>) -> fmt::Result {
        let Stamp(NtpTimestamp(bits)) = *self;
        write!(f, "{}.{:08x}", bits / 0x1_0000_0000, bits % 0x1_0000_0000)
    }
}

// The fields, in their order.
#[derive(Clone, Copy)]
struct Fields(Header);

impl fmt::Display for Fields {
    fn fmt<W: fmt::Write>(&self, f: &mut fmt::Formatter<W>) -> fmt::Result {
        let Fields(h) = *self;
        let leap = u8::from(h.leap);
        let mode = u8::from(h.mode);
        write!(f, "leap={leap} version={} mode={mode}", h.version.number())?;
        write!(f, " stratum={} poll={}", h.stratum, h.poll.0)?;
        write!(f, " precision={} delay={:08x}", h.precision, h.rootdelay)?;
        write!(f, " dispersion={:08x} refid={:08x}", h.rootdisp, h.refid.0)?;
        write!(
            f,
            " reference={} origin={}",
            Stamp(h.reftime),
            Stamp(h.origin)
        )?;
        write!(
            f,
            " receive={} transmit={}",
            Stamp(h.receive),
            Stamp(h.transmit)
        )
    }
}

#[derive(Clone, Copy)]
struct Kiss(Kisses);

impl fmt::Display for Kiss {
    fn fmt<W: fmt::Write>(&self, f: &mut fmt::Formatter<W>) -> fmt::Result {
        let Kiss(k) = *self;
        write!(f, "rate={} deny={}", YesNo(k.rate), YesNo(k.deny))?;
        write!(f, " rstr={} ntsn={}", YesNo(k.rstr), YesNo(k.ntsn))?;
        write!(f, " any={}", YesNo(k.any))
    }
}

// 1 is the number for bytes that cannot be decoded; here 0 means that a header was read.
pub fn answer(alloc: Global, packet: &[u8]) -> Result<String, Fault> {
    let Some(h) = wire_header::read_header(packet) else {
        return Ok(String::from_str(alloc, "header 1")?);
    };
    let again = wire_header::write_header(h);
    let kisses = Kiss(h.kisses());
    Ok(format!(in alloc; "header 0 {} {kisses} again={}", Fields(h), Hex(&again))?)
}
