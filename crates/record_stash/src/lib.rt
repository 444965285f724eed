// A stash in lent bytes, whose number fits its capacity: summarizes it, takes a cookie, and stores a list, all in place.
// Promises: what `cookiestash` promises of a stash by value, and no other byte changes; no slot is copied. If the number of bytes is wrong, nothing changes.
// Rule: RULES, part 3, No. 5 and No. 12; definitions in specs/Rows.antt and specs/Slots.antt.
#![tactic(auto)]

ghost use Rattle.std.specs.Prelude.{◌≡◌, true, ◌&&◌, ◌+◌, ◌*◌, ◌≤◌, ◌<◌, min, length, get_or, replicate};
ghost use Rattle.words.specs.Bytes.{be, part, zeros};
ghost use Rattle.cookiestash.specs.Stash.{range_of, put_of};
ghost use Rattle.cookiestash.specs.Whole.{padded, all_padded, has_of, seen_from};
ghost use Rattle.cookiestash.specs.Falling.{oldest_of};
ghost use Rattle.cookiestash.specs.Handed.{handed_of};
ghost use Rattle.record_stash.specs.Rows.{slot_in, slots_in, stash_in, lens_in, sized_in, Sized, row_of};
ghost use Rattle.record_stash.specs.Slots.{seen_in, took, taken_in, refilled, refilled_in, kept_slot};
ghost use Rattle.record_stash.specs.Slots.{Becomes, PlacedIn, TakenIn, LaidIn, StoredIn, RefilledIn};

use cookielist::Cookies;
use cookiestash::{Dropped, MAX_COOKIES, SLOT_BYTES, Seen};

// How many bytes come before the rows, and how many a row has.
pub const HEAD: usize = 92;

pub const ROW: usize = 726;

// Where in the head the place of the oldest cookie stands, and where the count.
const READ: usize = 27;

const HELD: usize = 28;

// How many bytes two rows have.
const PAIR: usize = 1452;

// Whether the number of bytes is that of a record of this capacity.
// promise: exports.2
#[tactic(auto, unfolding(crate::specs::Rows::sized_in))]
pub fn sized(b: &[u8], capacity: u8) -> bool
    ensures { result ≡ sized_in b.now capacity }
{
    let cap = usize::from(capacity);
    cap <= MAX_COOKIES && b.len() == HEAD + cap * ROW
}

// The length of the slot at an offset, read from a part whose own length the compiler knows.
// Kept: a row by its offset, as `slot_in` has it: as an array it would come out of an Option, with an arm that no run meets, as in `give`.
fn length_at(b: &[u8], at: usize) -> u16
    requires { at + 726 ≤ length b.now }
    ensures { result ≡ be (part b.now (at + 724) 2) }
{
    let from = at + SLOT_BYTES;
    let end = at + ROW;
    words::be16_at(&b[from..end], 0)
}

// Whether the slot at an offset, with this length, is zero past its stored bytes. An empty one is tested as a whole, with bounds that the compiler knows.
// Kept: a row by its offset, as `slot_in` has it: as an array it would come out of an Option, with an arm that no run meets, as in `give`.
fn padded_at(b: &[u8], at: usize, len: u16) -> bool
    requires { (at + 726 ≤ length b.now) × (len ≡ be (part b.now (at + 724) 2)) }
    ensures { result ≡ padded (slot_in b.now at) }
{
    let end = at + SLOT_BYTES;
    if len == 0 {
        return words::zeros_from(&b[at..end], 0);
    }
    words::zeros_from(&b[at..end], cookiestash::stored_bytes(usize::from(len)))
}

// Reads the rows once, lengths and zeros in one pass: whether every slot is zero past its stored bytes, and how long the cookies are.
// Kept: the bytes and the capacity apart, as at `store_at`.
fn read_rows(b: &[u8], cap: usize) -> (bool, [u16; MAX_COOKIES])
    requires { Sized b.now cap }
    ensures padded { result.0 ≡ all_padded (slots_in b.now 92 cap) }
    ensures lens { result.1 ≡ lens_in b.now cap }
{
    let mut padded = true;
    let mut lens = [0; MAX_COOKIES];
    for i in 0..cap {
        let at = HEAD + i * ROW;
        let len = length_at(b, at);
        lens[i] = len;
        padded &= padded_at(b, at, len);
    }
    (padded, lens)
}

// Whether the bytes are all zero; those of one row with bounds that the compiler knows.
fn zero_row(b: &[u8]) -> bool
    ensures { result ≡ zeros b.now }
{
    if b.len() == ROW {
        return words::zeros_from(&b[..ROW], 0);
    }
    words::zeros_from(b, 0)
}

// Whether the bytes are all zero, two rows at a time, with bounds that the compiler knows: of two rows it then tests 12 bytes one by one, of one row 22.
fn zero_rows(b: &[u8]) -> bool
    ensures { result ≡ zeros b.now }
{
    let mut rest = b;
    // Kept: the rows in pairs by `while let`: `chunks_exact` divides (RULES, No. 4); a piece of `chunks` has no bounds that the compiler knows.
    while let Some((pair, behind)) = rest.split_first_chunk::<PAIR>() {
        if !words::zeros_from(pair, 0) {
            return false;
        }
        rest = behind;
    }
    zero_row(rest)
}

// The summary of a stash that holds no cookie and whose rows are zero: it is whole if its place is within its capacity.
fn seen_empty(capacity: u8, read: usize) -> Seen
    ensures { result ≡ seen_from capacity read 0 true (replicate 8 0) }
{
    Seen {
        whole: cookiestash::in_range(usize::from(capacity), read, 0),
        oldest: None,
        gap: capacity,
        read,
        held: 0,
    }
}

// The summary of the stash. If no cookie is held all rows are tested at once: zeros are slots that hold nothing.
// promise: exports.2
#[tactic(auto, using(crate::proofs::With::sized_of), unfolding(crate::specs::Slots::seen_in))]
pub fn see(b: &[u8], capacity: u8) -> Seen
    ensures { result ≡ seen_in b.now capacity }
{
    if !sized(b, capacity) {
        return Seen {
            whole: false,
            oldest: None,
            gap: 0,
            read: 0,
            held: 0,
        };
    }
    let read = usize::from(b[READ]);
    let held = usize::from(b[HELD]);
    if held == 0 && zero_rows(&b[HEAD..]) {
        return seen_empty(capacity, read);
    }
    let (padded, lens) = read_rows(b, usize::from(capacity));
    cookiestash::seen_from(capacity, read, held, padded, lens)
}

// Sets every byte to zero.
// promise: exports.2
pub fn clear(out: &mut [u8])
    ensures { out.new ≡ replicate (length out.old) 0 }
{
    out.fill(0);
}

// A cookie as it is kept: its length, and its stored bytes; of a cookie longer than a slot only the length.
// Kept: beside `Stored` of handover_file, above, which may have any bytes: this one has no more than a slot, by its type.
#[derive(Clone, Copy)]
struct KeptCookie<'a> {
    len: u16,
    bytes: &'a [u8],
    ghost fits: { length bytes.now ≤ 724 },
}

// Fills a row with the slot of a kept cookie.
fn fill_row(row: &mut [u8], kept: KeptCookie)
    requires { length row.old ≡ 726 }
    ensures { row.new ≡ row_of (kept_slot kept.entry.len kept.entry.bytes.now) }
{
    let n = kept.bytes.len();
    row[..n].copy_from_slice(kept.bytes);
    clear(&mut row[n..SLOT_BYTES]);
    let word = words::be16_bytes(kept.len);
    row[SLOT_BYTES..ROW].copy_from_slice(&word);
}

// Writes a kept cookie to a place, and stores the reading place and the count.
// Kept: the bytes and the capacity stay parameters: the definitions, as `PlacedIn`, take the capacity, and the bytes before and after, one by one.
fn store_at(b: &mut [u8], cap: usize, place: usize, read: usize, held: usize, kept: KeptCookie)
    requires { (Sized b.old cap) × (place < cap) × (read < 256) × (held < 256) }
    ensures { PlacedIn cap place kept.entry.len kept.entry.bytes.now read held b.old b.new }
{
    let at = HEAD + place * ROW;
    let end = at + ROW;
    fill_row(&mut b[at..end], kept);
    b[READ] = read as u8;
    b[HELD] = held as u8;
}

// Copies the stored bytes of the slot at an offset to the start of the buffer, as many as fit.
// Kept: a row by its offset: its bytes come out of an Option, since `hand_out` takes an array; the whole row would too, and no run meets none.
fn give(b: &[u8], at: usize, buffer: &mut [u8])
    requires { at + 726 ≤ length b.now }
    ensures { buffer.new ≡ handed_of (slot_in b.now at) buffer.old }
{
    let len = words::be16_at(b, at + SLOT_BYTES);
    if let Some(bytes) = b[at..].first_chunk::<SLOT_BYTES>() {
        cookiestash::hand_out(bytes, len, buffer);
    }
}

// Takes the oldest cookie, if there is one, and clears its slot in place.
// Kept: the bytes and the capacity apart, as at `store_at`.
fn take_oldest(b: &mut [u8], capacity: u8, buffer: &mut [u8])
    requires { Sized b.old capacity }
    ensures { TakenIn capacity b.old b.new buffer.old buffer.new }
{
    let cap = usize::from(capacity);
    let read = usize::from(b[READ]);
    let held = usize::from(b[HELD]);
    if cookiestash::has_cookie(cap, read, held) {
        give(b, HEAD + read * ROW, buffer);
        let next = cookiestash::wrapped(cap, read + 1);
        let none = KeptCookie { len: 0, bytes: &[] };
        store_at(b, cap, read, next, held - 1, none);
    }
}

// Takes the oldest cookie, or nothing: its stored bytes go to the start of the buffer.
// promise: exports.2
#[tactic(auto, using(crate::proofs::With::sized_of), unfolding(crate::specs::Slots::taken_in))]
pub fn take(b: &mut [u8], capacity: u8, takes: bool, buffer: &mut [u8])
    ensures { took b.new buffer.new ≡ taken_in capacity takes b.old buffer.old }
{
    if !takes || !sized(b, capacity) {
        return;
    }
    take_oldest(b, capacity, buffer);
}

// Puts a kept cookie after the newest. If all are held the oldest falls out.
// Kept, 2: beside `cookiestash`'s, which gives a new stash; this writes one row of lent bytes. What both go by (`wrapped`, `in_range`) stands there, once.
// Kept, 5: the bytes and the capacity apart, as at `store_at`.
fn put(b: &mut [u8], cap: usize, kept: KeptCookie)
    requires { (Sized b.old cap) × (range_of cap (get_or b.old 27 0) (get_or b.old 28 0) ≡ true) }
    ensures { Becomes cap b.old b.new (put_of cap (stash_in b.old cap) (kept_slot kept.entry.len kept.entry.bytes.now)) }
{
    let read = usize::from(b[READ]);
    let held = usize::from(b[HELD]);
    let place = cookiestash::wrapped(cap, read + held);
    if held < cap {
        store_at(b, cap, place, read, held + 1, kept);
        return;
    }
    let next = cookiestash::wrapped(cap, read + 1);
    store_at(b, cap, place, next, held, kept);
}

// Puts a cookie, as it was kept, after the newest.
// promise: exports.2
#[tactic(auto, using(crate::proofs::With::sized_of, crate::proofs::With::of_sized), unfolding(crate::specs::Slots::laid_in))]
pub fn lay(b: &mut [u8], capacity: u8, len: u16, kept: &[u8])
    ensures { LaidIn capacity len kept.now b.old b.new }
{
    if !sized(b, capacity) {
        return;
    }
    let cap = usize::from(capacity);
    if !cookiestash::in_range(cap, usize::from(b[READ]), usize::from(b[HELD]))
        || kept.len() != cookiestash::stored_bytes(usize::from(len))
    {
        return;
    }
    put(b, cap, KeptCookie { len, bytes: kept });
}

// What falls out when one more is put: the oldest, if all are held.
// Kept, 2: beside `cookiestash`'s, as `put`.
// Kept, 5: the bytes and the capacity apart, as at `store_at`.
fn falls(b: &[u8], cap: usize) -> Option<u16>
    requires { (Sized b.now cap) × (range_of cap (get_or b.now 27 0) (get_or b.now 28 0) ≡ true) }
    ensures { result ≡ oldest_of cap (stash_in b.now cap) }
{
    let read = usize::from(b[READ]);
    let held = usize::from(b[HELD]);
    if held < cap {
        return None;
    }
    Some(words::be16_at(b, HEAD + read * ROW + SLOT_BYTES))
}

// Stores a cookie. A slot keeps its bytes only if they fit.
// Kept, 2: beside `cookiestash`'s, as `put`.
// Kept, 5: the bytes and the capacity apart, as at `store_at`.
fn store(b: &mut [u8], capacity: u8, cookie: &[u8]) -> Option<u16>
    requires { Sized b.old capacity }
    ensures { StoredIn capacity cookie.now b.old b.new result }
{
    let cap = usize::from(capacity);
    if !cookiestash::in_range(cap, usize::from(b[READ]), usize::from(b[HELD]))
        || cookiestash::MAX_LENGTH < cookie.len()
    {
        return None;
    }
    let fallen = falls(b, cap);
    let n = cookiestash::stored_bytes(cookie.len());
    let kept = KeptCookie {
        len: cookie.len() as u16,
        bytes: &cookie[..n],
    };
    put(b, cap, kept);
    fallen
}

// Stores the cookies of a list, or nothing if the list is broken. Returns what fell out.
// Kept, 2: beside `cookiestash`'s, as `put`.
// Kept, 5: the bytes and the capacity apart, as at `store_at`.
fn store_list(b: &mut [u8], capacity: u8, list: &[u8]) -> Dropped
    requires { Sized b.old capacity }
    ensures { RefilledIn capacity list.now b.old b.new result }
{
    let mut dropped = Dropped::none();
    if cookielist::list_whole(list) {
        for cookie in Cookies::new(list) {
            dropped = dropped.plus(store(b, capacity, cookie));
        }
    }
    dropped
}

// Stores the cookies of a list, or nothing. Returns what fell out.
// promise: exports.2
#[tactic(auto, using(crate::proofs::With::sized_of), unfolding(crate::specs::Slots::refilled_in))]
pub fn refill(b: &mut [u8], capacity: u8, stores: bool, list: &[u8]) -> Dropped
    ensures { refilled result b.new ≡ refilled_in capacity stores list.now b.old }
{
    if !stores || !sized(b, capacity) {
        return Dropped::none();
    }
    store_list(b, capacity, list)
}
