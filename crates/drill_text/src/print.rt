// How values are written in an answer's line.
use std::fmt;
use version::{ProtocolVersion, SendKind, Version};

// Bytes, two digits each, or '-' for none.
#[derive(Clone, Copy, Debug)]
pub struct Hex<'a>(pub &'a [u8]);

impl fmt::Display for Hex<'_> {
    fn fmt<W: fmt::Write>(&self, f: &mut fmt::Formatter<W>) -> fmt::Result {
        if self.0.is_empty() {
            return f.write_str("-");
        }
        for b in self.0 {
            write!(f, "{b:02x}")?;
        }
        Ok(())
    }
}

// Numbers joined by commas, or '-' for none.
#[derive(Clone, Copy, Debug)]
pub struct Joined<'a, T>(pub &'a [T]);

impl<T: fmt::Display> fmt::Display for Joined<'_, T> {
    fn fmt<W: fmt::Write>(&self, f: &mut fmt::Formatter<W>) -> fmt::Result {
        let Some((first, rest)) = self.0.split_first() else {
            return f.write_str("-");
        };
        write!(f, "{first}")?;
        for n in rest {
            write!(f, ",{n}")?;
        }
        Ok(())
    }
}

#[derive(Clone, Copy, Debug)]
pub struct YesNo(pub bool);

impl fmt::Display for YesNo {
    fn fmt<W: fmt::Write>(&self, f: &mut fmt::Formatter<W>) -> fmt::Result {
        f.write_str(if self.0 { "yes" } else { "no" })
    }
}

// A version as its key takes it.
#[derive(Clone, Copy)]
pub struct VersionName(pub Version);

impl fmt::Display for VersionName {
    fn fmt<W: fmt::Write>(&self, f: &mut fmt::Formatter<W>) -> fmt::Result {
        match self.0.kind {
            ProtocolVersion::V4 => f.write_str("v4"),
            ProtocolVersion::Upgrading(tries) => write!(f, "upgrading:{tries}"),
            ProtocolVersion::Upgraded => f.write_str("upgraded"),
            ProtocolVersion::V5 => f.write_str("v5"),
        }
    }
}

// A kind of request as its key takes it.
#[derive(Clone, Copy)]
pub struct KindName(pub SendKind);

impl fmt::Display for KindName {
    fn fmt<W: fmt::Write>(&self, f: &mut fmt::Formatter<W>) -> fmt::Result {
        f.write_str(match self.0 {
            SendKind::V4 => "v4",
            SendKind::V4Upgrade => "v4-upgrade",
            SendKind::V5 => "v5",
            SendKind::NtsV4 => "nts-v4",
            SendKind::NtsV5 => "nts-v5",
        })
    }
}
