// Loads the hand-over file into lent bytes: the cookies are written in place, and no record is held on the stack.
// Promises: for any file, the answer of its definition, and every byte: the loaded record, or zeros; with 31 the bytes do not change.
// Rule: RULES, No. 6, No. 12 and No. 14; definitions in specs/Load.antt.
ghost use Rattle.std.specs.Prelude.{◌≡◌, Err, length, get_or, replicate};
ghost use Rattle.handover_file.specs.Cookies.{empty_at, stash_of};
ghost use Rattle.handover_file.specs.Answers.{load_of};
ghost use Rattle.record_stash.specs.Rows.{stash_in, Sized};
ghost use Rattle.record_stash.specs.Slots.{Becomes};
ghost use Rattle.record_bytes.specs.Record.{packed};
ghost use Rattle.record_files.specs.Load.{gave, loaded_by};

use handover_file::cut::Cookies;
use handover_file::{LoadRefusal, Loaded};
use handover_load::FileRead;
use record_new::InBytes;

// Writes the cookies of a file that was read to an empty stash with the file's reading place.
// Kept: `Sized` stands in the contract: a struct around the lent bytes would have to name the bytes before and after, as at `make` of record_new.
fn lay_all(b: &mut [u8], found: FileRead)
    requires { (Sized b.old found.settings.capacity)
        × (stash_in b.old found.settings.capacity ≡ empty_at (get_or found.stash.now 0 0)) }
    ensures { Becomes found.entry.settings.capacity b.old b.new
        (stash_of found.entry.settings.capacity found.entry.stash.now) }
{
    for cookie in Cookies::new(found.stash) {
        record_stash::lay(b, found.settings.capacity, cookie.len, cookie.bytes);
    }
}

// Writes the record that was read to bytes whose number fits its capacity: its head, then the cookies.
// Kept: `Sized` stands in the contract, as at `lay_all`.
fn write(b: &mut [u8], found: FileRead)
    requires { Sized b.old found.settings.capacity }
    ensures { b.new ≡ packed (record {
      settings = found.entry.settings;
      stash = stash_of found.entry.settings.capacity found.entry.stash.now;
      state = found.entry.state;
    }) }
{
    record_stash::clear(b);
    let read = handover_load::place_of(found.stash);
    record_bytes::store_head(b, found.settings, read, found.state);
    lay_all(b, found);
}

// Reads a file into lent bytes. A rejected file leaves zeros.
// Kept: beside `load` of handover_load, which makes a record; here none is held, and the lent bytes are written. The file is read by one `read` for both.
// promise: exports.3, exports.4
pub fn load(b: &mut [u8], file: &[u8]) -> Result<Loaded, InBytes<LoadRefusal>>
    ensures { gave result b.new ≡ loaded_by b.old (load_of file.now) }
{
    let found = match handover_load::read::read(file) {
        Ok(found) => found,
        Err(refusal) => {
            record_stash::clear(b);
            return Err(InBytes::Said(refusal));
        }
    };
    if b.len() != record_stash::HEAD + usize::from(found.settings.capacity) * record_stash::ROW {
        return Err(InBytes::WrongSize);
    }
    write(b, found);
    Ok(Loaded {
        retired: found.retired,
    })
}
