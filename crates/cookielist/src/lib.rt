// The list in which cookies are passed, in this project's own format: a run of records, each a mark, a length and a cookie.
// Promises: what is written is read back; a list is rejected exactly if a read from its start meets a broken entry.
// Rule: RULES, "Settings and a whole record"; definitions in specs/List.antt, and in specs/Cookies.antt what an iterator gives.
#![tactic(auto)]

ghost use Rattle.std.specs.Prelude.{◌≡◌, []};
ghost use Rattle.cookielist.specs.List.{entry_at, is_whole, cookies_in, list_broken};
ghost use Rattle.cookielist.specs.Cookies.{cookies_given, cookies_left, ends_whole};

// The mark that every record of a cookie list starts with.
pub const RECORD_MARK: u16 = 0xC00E;

// The bytes of a record before the cookie: the mark and the length.
pub const HEAD_BYTES: usize = 4;

// The longest cookie that is kept or sent.
pub const MAX_COOKIE: usize = 724;

// What is at an offset of a cookie list: a cookie, with its bytes from start to before end; the end of the list; or something broken.
// Kept: neither an Option nor a Result: a walk ends alike at two of the three, and the definition `entry_at` tells all three apart by name.
#[derive(Clone, Copy)]
pub enum Entry {
    Cookie { start: usize, end: usize },
    End,
    Broken,
}

// The list is broken past its bytes, and where the bytes that are left do not start with a whole record.
// promise: 3.12
#[tactic(auto, using(crate::proofs::Head::head_mark, crate::proofs::Head::head_length), unfolding(crate::specs::List::entry_at))]
pub fn entry_at(list: &[u8], at: usize) -> Entry
    ensures { result ≡ entry_at list.now at }
{
    if list.len() < at {
        return Entry::Broken;
    }
    let rest = list.len() - at;
    if rest == 0 {
        return Entry::End;
    }
    if rest < HEAD_BYTES {
        return Entry::Broken;
    }
    // Mark and length are read from a part whose own length the compiler knows.
    let head = &list[at..at + HEAD_BYTES];
    if words::be16_at(head, 0) != RECORD_MARK {
        return Entry::Broken;
    }
    let len = usize::from(words::be16_at(head, 2));
    if rest - HEAD_BYTES < len {
        return Entry::Broken;
    }
    let start = at + HEAD_BYTES;
    Entry::Cookie {
        start,
        end: start + len,
    }
}

// The cookies of a list, in order. It ends at the end of the list, and at a broken entry.
#[derive(Clone, Copy)]
pub struct Cookies<'a> {
    list: &'a [u8],
    at: usize,
}

impl<'a> Cookies<'a> {
    pub fn new(list: &'a [u8]) -> Cookies<'a>
        ensures cookies { cookies_left result ≡ cookies_given list.now }
        ensures whole { ends_whole result ≡ is_whole (cookies_in list.now) }
    {
        Cookies { list, at: 0 }
    }

    // Whether the list ends here.
    fn is_done(&self) -> bool
        ensures { cookies_left self.now ≡ [] → result ≡ ends_whole self.now }
    {
        self.at == self.list.len()
    }
}

impl<'a> Iterator for Cookies<'a> {
    ghost use Rattle.std.specs.Iterator.{item_count};
    ghost use Rattle.cookielist.specs.Cookies.{cookies_left, GivesCookie};

    type Item = &'a [u8];

    ghost next_gives = { GivesCookie };

    ghost remaining = { item_count cookies_left };

    // promise: 3.14
    fn next(&mut self) -> Option<&'a [u8]> {
        let Entry::Cookie { start, end } = entry_at(self.list, self.at) else {
            return None;
        };
        self.at = end;
        Some(&self.list[start..end])
    }
}

// Whether a list of bytes is a cookie list.
// promise: 3.12
pub fn list_whole(list: &[u8]) -> bool
    ensures { result ≡ is_whole (cookies_in list.now) }
{
    let mut cookies = Cookies::new(list);
    // Kept: a `for` over `&mut cookies` was tried: the proof could not name where the cookies end, which `is_done` then tests.
    while cookies.next().is_some() {}
    cookies.is_done()
}

// Whether a cookie list is broken, which matters with NTS only: without NTS no list is read.
pub fn list_broken(nts: bool, list: &[u8]) -> bool
    ensures { result ≡ list_broken nts list.now }
{
    nts && !list_whole(list)
}
