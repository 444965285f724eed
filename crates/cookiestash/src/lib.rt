// The cookies that a client holds, given out oldest first.
// Promises: the stash is a queue of at most as many cookies as its capacity; a cookie that was given out is no longer held; a whole stash stays whole.
// Rule: RULES, part 3 and No. 5; definitions in specs/Stash.antt, Queue.antt (a queue), Whole.antt (when it is whole) and Falling.antt (what falls out).
#![tactic(auto)]

ghost use Rattle.std.specs.Prelude.{◌≡◌, ◌&&◌, ◌++◌, ◌+◌, ◌-◌, ◌≤◌, ◌<◌, length, drop};
ghost use Rattle.words.specs.Bytes.{zeros};
ghost use Rattle.cookiestash.specs.Stash.{stored, slot_of, empty_slot, new_of, wrap, range_of, put_of, get_of};
ghost use Rattle.cookiestash.specs.Whole.{padded, all_padded, lens_of, round_free, has_of, seen_of, seen_from};
ghost use Rattle.cookiestash.specs.Handed.{handed_of};
ghost use Rattle.cookiestash.specs.Falling.{oldest_of, stored_of, none_dropped, counted_of, stored_list_of};

use cookielist::Cookies;

// How many bytes a slot has: those of the longest cookie that is kept.
pub const SLOT_BYTES: usize = cookielist::MAX_COOKIE;

// How many slots a stash has, and so the largest capacity.
pub const MAX_COOKIES: usize = 8;

// How many cookies the crate's stash holds: the default capacity.
pub const CAPACITY: u8 = 8;

// The greatest length that a slot can record.
pub const MAX_LENGTH: usize = 65535;

// One cookie: its length, and its bytes from the start, followed by zeros. If a cookie is longer than a slot, only its length is kept.
// Kept: a length beside a fixed array, with no heap. The definition `slot_of` has both: of a cookie over 724 bytes only the length is kept.
#[repr(C)]
#[derive(Clone, Copy)]
pub struct Slot {
    pub bytes: [u8; SLOT_BYTES],
    pub len: u16,
}

// The slots, the place of the oldest cookie, and how many are held.
// Kept: a place and a count beside a fixed array: the definitions `new_of` and `put_of` have them, and the library's queue would allocate.
#[repr(C)]
#[derive(Clone, Copy)]
pub struct CookieStash {
    pub slots: [Slot; MAX_COOKIES],
    pub read: usize,
    pub held: usize,
}

// What `get` returns: the oldest cookie, if there is one, and the stash without it.
#[derive(Clone, Copy)]
pub struct Taken {
    pub cookie: Option<Slot>,
    pub stash: CookieStash,
}

// What falls out when cookies are stored: how many, and the sum of their lengths.
#[repr(C)]
#[derive(Clone, Copy)]
pub struct Dropped {
    pub count: u64,
    pub bytes: u64,
}

// What `store` returns: the stash with the cookie, and the length of the cookie that fell out of it, if one did.
#[derive(Clone, Copy)]
pub struct StoreOut {
    pub stash: CookieStash,
    pub fallen: Option<u16>,
}

// What `store_list` returns: the stash with the cookies, and what fell out of it.
#[derive(Clone, Copy)]
pub struct StoreListOut {
    pub stash: CookieStash,
    pub dropped: Dropped,
}

// The summary of a stash that the rules read: whether it is whole; how long the oldest cookie is, if there is one, and how many more there is room for once
// that one is taken; its place and its count.
// Kept: `whole` beside what was seen: the other numbers are told of every stash, whole or not.
#[derive(Clone, Copy)]
pub struct Seen {
    pub whole: bool,
    pub oldest: Option<u16>,
    pub gap: u8,
    pub read: usize,
    pub held: usize,
}

// How many of a cookie's bytes a slot stores.
// Kept: a plain number: if a cookie is too long for a slot, the slot stores 0 bytes of it, and nothing is refused.
#[tactic(auto, unfolding(crate::specs::Stash::stored))]
pub fn stored_bytes(length: usize) -> usize
    ensures { result ≡ stored length }
{
    if length <= SLOT_BYTES { length } else { 0 }
}

// Wraps a place around: after the last comes the first.
#[tactic(auto, unfolding(crate::specs::Stash::wrap))]
pub fn wrapped(cap: usize, place: usize) -> usize
    ensures { result ≡ wrap cap place }
{
    if place < cap { place } else { place - cap }
}

// Whether a place and a count are in range for a stash of this capacity. The capacity may be at most the number of slots.
// Kept: three numbers and no struct of them: callers read them from a stash, from lent bytes or from a file, and would take the struct apart again.
pub fn in_range(cap: usize, read: usize, held: usize) -> bool
    ensures { result ≡ range_of cap read held }
{
    cap <= MAX_COOKIES && read < cap && held <= cap
}

// How many more cookies there is room for if so many are held.
// promise: 3.5
fn room(capacity: u8, held: usize) -> u8
    ensures { result ≡ capacity - held }
{
    usize::from(capacity).saturating_sub(held) as u8
}

// The bytes of the slot that holds a cookie: the stored ones, then zeros.
#[tactic(auto, using(crate::proofs::Stored::stored_bounds), unfolding(crate::specs::Stash::slot_of))]
pub fn kept_bytes(cookie: &[u8]) -> [u8; SLOT_BYTES]
    ensures { result ≡ (slot_of cookie.now).bytes }
{
    let mut bytes = [0; SLOT_BYTES];
    let stored = &cookie[..stored_bytes(cookie.len())];
    lay_first(&mut bytes, stored);
    bytes
}

// Copies bytes to the start of a buffer.
fn lay_first(buffer: &mut [u8], bytes: &[u8])
    requires { length bytes.now ≤ length buffer.old }
    ensures { buffer.new ≡ bytes.now ++ drop (length bytes.now) buffer.old }
{
    buffer[..bytes.len()].copy_from_slice(bytes);
}

// Hands out what a slot holds: copies its stored bytes to the start of a buffer, as many as fit.
pub fn hand_out(bytes: &[u8; SLOT_BYTES], len: u16, buffer: &mut [u8])
    ensures { buffer.new ≡ handed_of (record { bytes = bytes.now; len = len }) buffer.old }
{
    let n = stored_bytes(usize::from(len)).min(buffer.len());
    lay_first(buffer, &bytes[..n]);
}

// Whether a stash of this place and count has a cookie.
// Kept: three numbers, as at `in_range`.
pub fn has_cookie(cap: usize, read: usize, held: usize) -> bool
    ensures { result ≡ has_of cap read held }
{
    in_range(cap, read, held) && 0 < held
}

// Whether lengths are all zero.
fn unused(lens: &[u16]) -> bool
    ensures { result ≡ zeros lens.now }
{
    lens.iter().all(|len| *len == 0)
}

// Whether the slots that hold no cookie have length 0: those past the capacity, and the free ones of the ring.
// Kept: three numbers, as at `in_range`, which has tested the bounds before.
fn freed(lens: [u16; MAX_COOKIES], cap: usize, read: usize, held: usize) -> bool
    requires { (cap ≤ 8) × (read < cap) × (held ≤ cap) }
    ensures { result ≡ (zeros (drop cap lens) && round_free cap lens (wrap cap (read + held)) (cap - held)) }
{
    if !unused(&lens[cap..]) {
        return false;
    }
    for n in held..cap {
        if lens[wrapped(cap, read + n)] != 0 {
            return false;
        }
    }
    true
}

// The summary of a stash, given its place, its count, the slots' lengths, and whether every slot is zero past its stored bytes. The oldest cookie's length is
// looked up: no slot is taken, and none is cleared.
#[tactic(auto, unfolding(crate::specs::Whole::seen_from))]
pub fn seen_from(
    capacity: u8,
    read: usize,
    held: usize,
    padded: bool,
    lens: [u16; MAX_COOKIES],
) -> Seen
    ensures { result ≡ seen_from capacity read held padded lens }
{
    let cap = usize::from(capacity);
    let has_cookie = has_cookie(cap, read, held);
    Seen {
        whole: in_range(cap, read, held) && padded && freed(lens, cap, read, held),
        oldest: if has_cookie { Some(lens[read]) } else { None },
        gap: room(capacity, held - usize::from(has_cookie)),
        read,
        held,
    }
}

impl Slot {
    // promise: 3.1
    #[tactic(auto, unfolding(crate::specs::Stash::empty_slot))]
    fn empty() -> Slot
        ensures { result ≡ empty_slot }
    {
        Slot {
            bytes: [0; SLOT_BYTES],
            len: 0,
        }
    }

    // The slot that holds a cookie.
    #[tactic(auto, unfolding(crate::specs::Stash::slot_of))]
    fn filled(cookie: &[u8]) -> Slot
        requires { length cookie.now ≤ 65535 }
        ensures { result ≡ slot_of cookie.now }
    {
        let bytes = kept_bytes(cookie);
        Slot {
            bytes,
            len: cookie.len() as u16,
        }
    }

    // Whether the bytes past the stored ones are all zero. An empty slot is tested as a whole, with bounds that the compiler knows.
    #[tactic(auto, unfolding(crate::specs::Whole::padded, crate::specs::Stash::stored))]
    fn padded(&self) -> bool
        ensures { result ≡ padded self.now }
    {
        if self.len == 0 {
            return words::zeros_from(&self.bytes, 0);
        }
        words::zeros_from(&self.bytes, stored_bytes(usize::from(self.len)))
    }
}

impl Dropped {
    // Nothing fell out.
    pub fn none() -> Dropped
        ensures { result ≡ none_dropped }
    {
        Dropped { count: 0, bytes: 0 }
    }

    // Adds one cookie that fell out, or none. A sum past 64 bits would stay at the greatest number; none of a list's gets there.
    pub fn plus(self, fallen: Option<u16>) -> Dropped
        ensures { result ≡ counted_of self fallen }
    {
        let Some(len) = fallen else {
            return self;
        };
        Dropped {
            count: self.count.saturating_add(1),
            bytes: self.bytes.saturating_add(u64::from(len)),
        }
    }
}

impl CookieStash {
    // promise: 3.1
    #[tactic(auto, unfolding(crate::specs::Stash::new_of))]
    pub fn new() -> CookieStash
        ensures { result ≡ new_of }
    {
        let slot = Slot::empty();
        CookieStash {
            slots: [slot; MAX_COOKIES],
            read: 0,
            held: 0,
        }
    }

    // Kept: `in_range` tests these bounds. A type for them would be made and opened in `store` alone, just behind that test.
    // Puts a slot after the newest. If all are held the oldest falls out, since a newer cookie is valid for longer.
    #[tactic(auto, using(crate::proofs::Places::wrap_lt), unfolding(crate::specs::Stash::put_of, crate::specs::Stash::full))]
    fn put(mut self, cap: usize, slot: Slot) -> CookieStash
        requires { (cap ≤ 8) × (self.read < cap) × (self.held ≤ cap) }
        ensures { result ≡ put_of cap self slot }
    {
        self.slots[wrapped(cap, self.read + self.held)] = slot;
        if self.held < cap {
            self.held += 1;
        } else {
            self.read = wrapped(cap, self.read + 1);
        }
        self
    }

    // What falls out when one more is put: the oldest, if all are held.
    // Kept: the bound, as at `put`.
    #[tactic(auto, unfolding(crate::specs::Falling::oldest_of, crate::specs::Stash::full))]
    fn falls(&self, cap: usize) -> Option<u16>
        requires { (cap ≤ 8) × (self.now.read < cap) }
        ensures { result ≡ oldest_of cap self.now }
    {
        if self.held < cap {
            return None;
        }
        Some(self.slots[self.read].len)
    }

    // Stores a cookie. Changes nothing if the stash is out of range, or if the cookie is longer than a slot can record.
    // promise: 3.2, 3.3, 3.6, 3.9, no5.1, no5.6
    #[tactic(auto, unfolding(crate::specs::Stash::store_of, crate::specs::Falling::fallen_of, crate::specs::Stash::in_range))]
    pub fn store(self, capacity: u8, cookie: &[u8]) -> StoreOut
        ensures { result ≡ stored_of capacity self cookie.now }
    {
        let cap = usize::from(capacity);
        if !in_range(cap, self.read, self.held) || MAX_LENGTH < cookie.len() {
            return StoreOut {
                stash: self,
                fallen: None,
            };
        }
        let fallen = self.falls(cap);
        StoreOut {
            stash: self.put(cap, Slot::filled(cookie)),
            fallen,
        }
    }

    // Takes the oldest cookie and clears its slot: a cookie that is used twice would show an observer that both requests come from the same client.
    // promise: 3.4, 3.9
    #[tactic(auto, unfolding(crate::specs::Stash::get_of, crate::specs::Stash::in_range, crate::specs::Stash::rest_of))]
    pub fn get(mut self, capacity: u8) -> Taken
        ensures { result ≡ get_of capacity self }
    {
        let cap = usize::from(capacity);
        if !has_cookie(cap, self.read, self.held) {
            return Taken {
                cookie: None,
                stash: self,
            };
        }
        let oldest = self.slots[self.read];
        self.slots[self.read] = Slot::empty();
        self.read = wrapped(cap, self.read + 1);
        self.held -= 1;
        Taken {
            cookie: Some(oldest),
            stash: self,
        }
    }

    // Whether every slot is zero past its stored bytes.
    fn all_padded(&self) -> bool
        ensures { result ≡ all_padded self.now.slots }
    {
        self.slots.iter().all(|slot| slot.padded())
    }

    // The length of each slot: a search among these copies no slot.
    fn lengths(&self) -> [u16; MAX_COOKIES]
        ensures { result ≡ lens_of self.now }
    {
        std::array::from_fn(|i| self.slots[i].len)
    }

    // The summary of a stash. It is whole if the place and the count are in range, free slots have length 0, and bytes past the stored ones are zero.
    // promise: 3.7, 3.9, 3.10 (`whole` in what it gives), 10.4, no12.3
    pub fn seen(self, capacity: u8) -> Seen
        ensures { result ≡ seen_of capacity self }
    {
        seen_from(
            capacity,
            self.read,
            self.held,
            self.all_padded(),
            self.lengths(),
        )
    }

    // Stores the cookies of a list in order, or nothing if the list is broken. The sums cannot overflow: what falls out was held or is in the list, where each
    // cookie has four bytes before it.
    // promise: 3.9, 3.13, no5.2, no5.6
    pub fn store_list(mut self, capacity: u8, list: &[u8]) -> StoreListOut
        ensures { result ≡ stored_list_of capacity self list.now }
    {
        let mut dropped = Dropped::none();
        if cookielist::list_whole(list) {
            for cookie in Cookies::new(list) {
                let stored = self.store(capacity, cookie);
                self = stored.stash;
                dropped = dropped.plus(stored.fallen);
            }
        }
        StoreListOut {
            stash: self,
            dropped,
        }
    }
}
