// Compares two hand-over files, each read in place: every field in which the two boxes differ, as a list of bytes. Module `fields` compares what was read.
// Promises: the list is empty exactly when the two loaded records are equal; the left file is rejected before the right one; a rejected call writes nothing.
// Rule: RULES, No. 10 and No. 12; fields in specs/Readings.antt and specs/Fields.antt, answers in specs/Answers.antt, number by number in specs/Numbers.antt.
#![tactic(auto)]

pub mod fields;

ghost use Rattle.std.specs.Prelude.{◌≡◌, ◌+◌, ◌≤◌, length, ◌∷◌, [], Err};
ghost use Rattle.handover_compare.specs.Fields.{differing, entry_bytes, list_bytes};
ghost use Rattle.handover_compare.specs.Steps.{all_of};
ghost use Rattle.words.specs.Put.{Put};
ghost use Rattle.std.proofs.Common.{rules};
ghost use Rattle.handover_load.specs.Reading.{contents_in, read_of};
ghost use Rattle.handover_compare.specs.Answer.{compare_number};
ghost use Rattle.handover_compare.specs.Answers.{refused_of, sided, compare_of, out_of};

use crate::fields::{Compared, Field, Groups};
use answers::Refusal;
use handover_file::LoadRefusal;
use handover_load::FileRead;

// How many bytes an entry has: the code, two readings, and the place.
pub const ENTRY: usize = 19;

// How many bytes the longest list has: an entry for each of the 26 fields.
pub const MAX_LIST: usize = 494;

// Which of the two files.
#[derive(Clone, Copy, PartialEq, Eq)]
pub enum Side {
    Left,
    Right,
}

// Why nothing is listed: which file was rejected, and why; or that the buffer is shorter than the list.
#[derive(Clone, Copy, PartialEq, Eq)]
pub enum CompareRefusal {
    WrongMark(Side),
    WrongLength(Side),
    NoAssociation(Side),
    ShortBuffer,
}

impl Refusal for CompareRefusal {
    ghost number_of = { λ refusal. compare_number (Err refusal) };

    // promise: no10.5
    fn number(self) -> u8 {
        match self {
            CompareRefusal::WrongMark(_) => 61,
            CompareRefusal::WrongLength(_) => 62,
            CompareRefusal::NoAssociation(_) => 63,
            CompareRefusal::ShortBuffer => 71,
        }
    }

    ghost never_zero = { Prim.search rules };
}

// The refusal of reading the file on this side.
// Kept: no twin of `refused` of exports_values, which makes C's struct of a refusal that has its side.
fn refused(side: Side, refusal: LoadRefusal) -> CompareRefusal
    ensures { result ≡ refused_of side refusal }
{
    match refusal {
        LoadRefusal::WrongMark => CompareRefusal::WrongMark(side),
        LoadRefusal::WrongLength => CompareRefusal::WrongLength(side),
        LoadRefusal::NoAssociation => CompareRefusal::NoAssociation(side),
    }
}

fn read_side(file: &[u8], side: Side) -> Result<FileRead<'_>, CompareRefusal>
    ensures { contents_in result ≡ sided side (read_of file.now) }
{
    handover_load::read::read(file).map_err(|refusal| refused(side, refusal))
}

// How many entries a field has: one if it differs, otherwise none.
fn entries_of(f: Field) -> usize
    ensures { (result ≡ length (differing (f ∷ []))) × (result ≤ 1) }
{
    usize::from(!f.same)
}

// How many of eight fields differ.
fn count(fields: [Field; 8]) -> usize
    ensures { (result ≡ length (differing fields)) × (result ≤ 8) }
{
    let mut n = 0;
    for field in fields {
        n += entries_of(field);
    }
    n
}

// How many fields differ.
fn entries(g: Groups) -> usize
    ensures { (result ≡ length (differing (all_of g))) × (result ≤ 26) }
{
    count(g.settings)
        + entries_of(g.capacity)
        + entries_of(g.read)
        + count(g.cookies)
        + count(g.state)
}

// An entry: the code, both readings, and the place.
fn entry(f: Field) -> [u8; 19]
    ensures { result ≡ entry_bytes f }
{
    let mut bytes = [0; 19];
    bytes[0] = f.code;
    bytes[1..9].copy_from_slice(&words::be64_bytes(f.left));
    bytes[9..17].copy_from_slice(&words::be64_bytes(f.right));
    bytes[17..19].copy_from_slice(&words::be16_bytes(f.place));
    bytes
}

// Writes the entry of a field, if it differs.
// Kept: a buffer and a place, which the contract names: `Put` says what every byte is, before the place and behind it.
fn put_field(out: &mut [u8], at: usize, f: Field) -> usize
    requires { at + length (list_bytes (differing (f ∷ []))) ≤ length out.old }
    ensures { Put out.old at (list_bytes (differing (f ∷ []))) result out.new }
{
    if f.same {
        return at;
    }
    words::lay(out, at, &entry(f))
}

// Writes the entries of eight fields.
// Kept: a buffer and a place, which the contract names: `Put` says what every byte is, before the place and behind it.
fn put_eight(out: &mut [u8], at: usize, fields: [Field; 8]) -> usize
    requires { at + length (list_bytes (differing fields)) ≤ length out.old }
    ensures { Put out.old at (list_bytes (differing fields)) result out.new }
{
    let mut to = at;
    for field in fields {
        to = put_field(out, to, field);
    }
    to
}

// Writes the whole list to the start of the buffer.
fn put_list(out: &mut [u8], g: Groups) -> usize
    requires { length (list_bytes (differing (all_of g))) ≤ length out.old }
    ensures { Put out.old 0 (list_bytes (differing (all_of g))) result out.new }
{
    let to = put_eight(out, 0, g.settings);
    let to = put_field(out, to, g.capacity);
    let to = put_field(out, to, g.read);
    let to = put_eight(out, to, g.cookies);
    put_eight(out, to, g.state)
}

// Compares two files. The left one is read first.
// promise: no10.1, no10.5
pub fn compare(left: &[u8], right: &[u8], out: &mut [u8]) -> Result<usize, CompareRefusal>
    ensures { (result ≡ compare_of left.now right.now (length out.old)) ×
        (out.new ≡ out_of left.now right.now out.old) }
{
    let l = read_side(left, Side::Left)?;
    let r = read_side(right, Side::Right)?;
    let a = Compared {
        settings: l.settings,
        state: l.state,
        stash: l.stash,
    };
    let b = Compared {
        settings: r.settings,
        state: r.state,
        stash: r.stash,
    };
    let g = fields::fields(a, b);
    let n = entries(g);
    if out.len() < ENTRY * n {
        return Err(CompareRefusal::ShortBuffer);
    }
    put_list(out, g);
    Ok(n)
}
