// The call compare.
use answers::Refusal;
use drill_text::fault::Fault;
use drill_text::keys::Pairs;
use drill_text::print::{VersionName, YesNo};
use drill_text::value::{self, COLLECT_ROOM, FILE_ROOM, FILLER};
use handover_compare::{CompareRefusal, ENTRY, Side};
use std::alloc::{AllocError, Global};
use std::fmt;
use version::Version;

// The reading of a cookie that a box does not have.
const NO_COOKIE: u64 = 65536;

// What the readings of a field are.
#[derive(Clone, Copy)]
enum Form {
    Number,
    Poll,
    Mark,
    Version,
    YesNo,
    Identifier,
    Cookie,
}

// The name of a field, and what its readings are.
// Kept: a field is a code here, since the list that handover_compare writes has a byte for each (docs/HANDOVER.md).
fn field(code: u8) -> (&'static str, Form) {
    match code {
        1 => ("min", Form::Poll),
        2 => ("max", Form::Poll),
        3 => ("startup", Form::Number),
        4 => ("window", Form::Number),
        5 => ("mark", Form::Mark),
        6 => ("start", Form::Version),
        7 => ("nts", Form::YesNo),
        8 => ("source", Form::Identifier),
        9 => ("capacity", Form::Number),
        16 => ("read", Form::Number),
        32 => ("cookie0", Form::Cookie),
        33 => ("cookie1", Form::Cookie),
        34 => ("cookie2", Form::Cookie),
        35 => ("cookie3", Form::Cookie),
        36 => ("cookie4", Form::Cookie),
        37 => ("cookie5", Form::Cookie),
        38 => ("cookie6", Form::Cookie),
        39 => ("cookie7", Form::Cookie),
        48 => ("reach", Form::Number),
        49 => ("tries", Form::Number),
        50 => ("version", Form::Version),
        51 => ("last", Form::Poll),
        52 => ("remote", Form::Poll),
        53 => ("stratum", Form::Number),
        54 => ("refid", Form::Identifier),
        55 => ("denial", Form::YesNo),
        _ => ("-", Form::Number),
    }
}

// A reading, which is written as the drill writes such a value elsewhere.
#[derive(Clone, Copy)]
struct Reading {
    form: Form,
    n: u64,
}

// A version's reading is its kind times 256, and the tries left.
// Kept: the number of a version is one of the list that handover_compare writes (docs/HANDOVER.md), which this command alone reads.
fn version_of(n: u64) -> Version {
    let [.., kind, tries] = n.to_be_bytes();
    Version {
        kind: handover_groups::kind_of(kind, tries),
    }
}

impl fmt::Display for Reading {
    fn fmt<W: fmt::Write>(&self, f: &mut fmt::Formatter<W>) -> fmt::Result {
        let n = self.n;
        match self.form {
            Form::Cookie if n == NO_COOKIE => f.write_str("-"),
            Form::Number | Form::Cookie => write!(f, "{n}"),
            Form::Poll => write!(f, "{}", n.cast_signed()),
            Form::Mark => write!(f, "{n:016x}"),
            Form::Version => write!(f, "{}", VersionName(version_of(n))),
            Form::YesNo => write!(f, "{}", YesNo(n == 1)),
            Form::Identifier => write!(f, "{n:08x}"),
        }
    }
}

// An entry of the list: the code, both readings and the place of a cookie.
#[derive(Clone, Copy)]
struct Entry {
    code: u8,
    left: u64,
    right: u64,
    place: u16,
}

impl Entry {
    fn read(bytes: &[u8]) -> Option<Entry> {
        let (code, rest) = bytes.split_first()?;
        let (left, rest) = rest.split_first_chunk()?;
        let (right, rest) = rest.split_first_chunk()?;
        Some(Entry {
            code: *code,
            left: u64::from_be_bytes(*left),
            right: u64::from_be_bytes(*right),
            place: u16::from_be_bytes(*rest.first_chunk()?),
        })
    }
}

impl fmt::Display for Entry {
    fn fmt<W: fmt::Write>(&self, f: &mut fmt::Formatter<W>) -> fmt::Result {
        let (name, form) = field(self.code);
        let left = Reading { form, n: self.left };
        let right = Reading {
            form,
            n: self.right,
        };
        write!(f, "{name}:{left}/{right}")?;
        if let Form::Cookie = form {
            write!(f, "@{}", self.place)?;
        }
        Ok(())
    }
}

fn listed(alloc: Global, list: &[u8], n: usize) -> Result<String, AllocError> {
    let mut out = format!(in alloc; "compare 0 {n}")?;
    for entry in list.chunks_exact(ENTRY).take(n).filter_map(Entry::read) {
        write!(out, " {entry}")?;
    }
    Ok(out)
}

fn refused(alloc: Global, refusal: CompareRefusal) -> Result<String, AllocError> {
    let number = refusal.number();
    match refusal {
        CompareRefusal::WrongMark(side)
        | CompareRefusal::WrongLength(side)
        | CompareRefusal::NoAssociation(side) => {
            let side = match side {
                Side::Left => "left",
                Side::Right => "right",
            };
            format!(in alloc; "compare {number} side={side}")
        }
        CompareRefusal::ShortBuffer => format!(in alloc; "compare {number}"),
    }
}

pub fn compare(alloc: Global, line: &[u8]) -> Result<String, Fault> {
    let pairs = Pairs::read(alloc, line, &["left", "right", "room"])?;
    let left = pairs.value("left").bytes(alloc, FILE_ROOM)?;
    let right = pairs.value("right").bytes(alloc, FILE_ROOM)?;
    let room = pairs
        .value("room")
        .or(b"4096")
        .parse(|text| value::up_to(text, COLLECT_ROOM))?;
    let mut list = vec![in alloc; FILLER; room]?;
    Ok(match handover_compare::compare(&left, &right, &mut list) {
        Ok(n) => listed(alloc, &list, n)?,
        Err(refusal) => refused(alloc, refusal)?,
    })
}
