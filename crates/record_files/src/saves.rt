// Writes the hand-over file from a record in lent bytes, and empties the record's stash in place.
// Promises: what `save` promises, for the record in the bytes and every byte of record and buffer; bytes that are no record give 32 and do not change.
// Rule: RULES, No. 6 and No. 12; definitions in specs/Save.antt.
ghost use Rattle.std.specs.Prelude.{◌≡◌, true, get_or};
ghost use Rattle.cookiestash.specs.Whole.{seen_of, Typed};
ghost use Rattle.handover_file.specs.Cookies.{empty_at};
ghost use Rattle.record_stash.specs.Rows.{stash_in, sized_in, Sized};
ghost use Rattle.record_stash.specs.Slots.{Becomes};
ghost use Rattle.record_files.specs.Save.{gave, save_call};

use association::{Settings, State};
use cookiestash::{SLOT_BYTES, Seen};
use handover_file::SaveRefusal;
use handover_file::cut::Stored;
use handover_save::Savable;
use record_bytes::Opened;
use record_stash::{HEAD, ROW};

// The bytes of a record, and what they hold besides its stash.
#[derive(Clone, Copy)]
struct Lent<'a> {
    bytes: &'a [u8],
    opened: Opened,
    ghost sized: { sized_in bytes.now opened.settings.capacity ≡ true },
}

// The summary of the stash, whose slots have the sizes that bytes of this number allow.
// Kept: `Sized` stands in the contract. A `&Lent` was tried, which has the fact: of a field's bytes it is not known there that they are bytes.
fn see(b: &[u8], capacity: u8) -> Seen
    requires { Sized b.now capacity }
    ensures tells { result ≡ seen_of capacity (stash_in b.now capacity) }
    ensures typed { Typed (stash_in b.now capacity) }
{
    record_stash::see(b, capacity)
}

impl Savable for Lent<'_> {
    ghost association = { λ r. record {
      settings = r.opened.settings;
      stash = stash_in r.bytes.now r.opened.settings.capacity;
      state = r.opened.state;
    } };

    fn settings(&self) -> Settings {
        self.opened.settings
    }

    fn state(&self) -> State {
        self.opened.state
    }

    fn seen(&self) -> Seen {
        see(self.bytes, self.opened.settings.capacity)
    }

    fn read(&self) -> usize {
        usize::from(self.bytes[27])
    }

    // Kept: a byte of the record each, with the name that the trait has for it.
    fn held(&self) -> usize {
        usize::from(self.bytes[28])
    }

    fn cookie(&self, place: usize) -> Stored<'_> {
        if place >= usize::from(self.opened.settings.capacity) {
            return Stored { len: 0, bytes: &[] };
        }
        let from = HEAD + place * ROW;
        let len = words::be16_at(self.bytes, from + SLOT_BYTES);
        let n = cookiestash::stored_bytes(usize::from(len));
        Stored {
            len,
            bytes: &self.bytes[from..from + n],
        }
    }
}

// Empties the stash; its reading place does not change.
// Kept: `Sized` stands in the contract: a struct around the lent bytes would have to name the bytes before and after, as at `make` of record_new.
fn empty(b: &mut [u8], capacity: u8)
    requires { Sized b.old capacity }
    ensures { Becomes capacity b.old b.new (empty_at (get_or b.old 27 0)) }
{
    record_stash::clear(&mut b[92..]);
    b[28] = 0;
}

// Writes the file of the record, which then has no cookies: a cookie has one owner.
// promise: exports.3
pub fn save(b: &mut [u8], out: &mut [u8]) -> Result<usize, SaveRefusal>
    ensures { gave result b.new out.new ≡ save_call b.old out.old }
{
    let Some(opened) = record_bytes::open_record(b) else {
        return Err(SaveRefusal::NotWhole);
    };
    let n = handover_save::write(&Lent { bytes: b, opened }, out)?;
    empty(b, opened.settings.capacity);
    Ok(n)
}
