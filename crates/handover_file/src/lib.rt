// The hand-over file: what it is, byte by byte, and what its writer and its readers answer. Module `cut` finds its records and its cookies.
// Promises: what is written is read back; two whole records have the same file exactly if all that is written agrees; the first wrong mark or length is found.
// Rule: RULES, No. 6, No. 12 and No. 14; definitions in specs/Sections.antt, Cookies.antt, File.antt, Answers.antt and Steps.antt, by number in Numbers.antt.
#![tactic(auto)]

pub mod cut;

ghost use Rattle.std.specs.Prelude.{◌≡◌, Err};
ghost use Rattle.std.proofs.Common.{rules};
ghost use Rattle.handover_file.specs.Answers.{save_number, load_number, refusal_of, says_retired};

use answers::Refusal;
use association::Association;
use cut::Fault;

// Why save wrote nothing.
#[derive(Clone, Copy, PartialEq, Eq)]
pub enum SaveRefusal {
    NotWhole,
    ShortBuffer,
}

impl Refusal for SaveRefusal {
    ghost number_of = { λ refusal. save_number (Err refusal) };

    // promise: no6.6
    fn number(self) -> u8 {
        match self {
            SaveRefusal::NotWhole => 32,
            SaveRefusal::ShortBuffer => 60,
        }
    }

    ghost never_zero = { Prim.search rules };
}

// What save returns: the length of the file that was written, or why none was; and the association, whose cookies now belong to the file.
#[derive(Clone, Copy)]
pub struct SaveOut {
    pub answer: Result<usize, SaveRefusal>,
    pub association: Association,
}

// A file that was loaded.
#[derive(Clone, Copy, PartialEq, Eq)]
pub struct Loaded {
    // Whether a version of the file was of the retired kind, and was loaded as V4.
    pub retired: bool,
}

// Why a file is rejected: the first wrong mark or wrong length in the file, and only then that its bytes are no association.
#[derive(Clone, Copy, PartialEq, Eq)]
pub enum LoadRefusal {
    WrongMark,
    WrongLength,
    NoAssociation,
}

impl Refusal for LoadRefusal {
    ghost number_of = { λ refusal. load_number (Err refusal) };

    // promise: no6.7, no14.4
    fn number(self) -> u8 {
        match self {
            LoadRefusal::WrongMark => 61,
            LoadRefusal::WrongLength => 62,
            LoadRefusal::NoAssociation => 63,
        }
    }

    ghost never_zero = { Prim.search rules };
}

// A file that is not cut into its records is rejected for its first fault.
impl From<Fault> for LoadRefusal {
    ghost from_gives = { λ fault refusal. refusal ≡ refusal_of fault };

    fn from(fault: Fault) -> LoadRefusal {
        match fault {
            Fault::Misplaced => LoadRefusal::WrongMark,
            Fault::Missized => LoadRefusal::WrongLength,
        }
    }
}

// Whether an answer says that a version of the file was of the retired kind.
// promise: no14.4
pub fn says_retired(answer: Result<Loaded, LoadRefusal>) -> bool
    ensures { result ≡ says_retired answer }
{
    matches!(answer, Ok(Loaded { retired: true }))
}

// What load returns: its answer, and the association, which is blank if the file was rejected.
#[derive(Clone, Copy)]
pub struct LoadOut {
    pub answer: Result<Loaded, LoadRefusal>,
    pub association: Association,
}
