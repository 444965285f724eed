// Reading the pairs of a line by the keys of its command.
//
// A line is rejected for the first fault in this order: its length; its command; then from left to right the first thing that is not key=value, an unknown key
// or a repeated one; then, key by key in the order of the command's description, a missing key or a bad value. So a command first reads the line's pairs, and
// then the values in that order.
ghost use Rattle.std.specs.Prelude.{◌≡◌, ◌==◌, ok_or, option_copied};
ghost use Rattle.std.specs.Fn.{FnReturnsAt};
ghost use Rattle.std.specs.Option.{option_or};
ghost use Rattle.drill_text.specs.Lines.{command_of, words_of};
ghost use Rattle.drill_text.specs.Pairs.{value_at};
ghost use Rattle.drill_text.specs.Reads.{EndsAs, IsRead, IsParsed, IsList, bytes_read};

use crate::fault::Fault;
use crate::value::{self, NONE};
use std::alloc::Global;
use std::collections::BTreeMap;

fn is_space(b: &u8) -> bool
    ensures { result ≡ (b.now == 32) }
{
    *b == b' '
}

// The first word of a line.
// promise: drill.6
pub fn command(line: &[u8]) -> &[u8]
    ensures { result.now ≡ command_of line.now }
{
    line.split(is_space).next().unwrap_or(line)
}

// The pairs of a line, each key with its value.
#[derive(Drop)]
pub struct Pairs<'a>(BTreeMap<&'static str, &'a [u8]>);

impl<'a> Pairs<'a> {
    // The pairs behind a line's command, which takes these keys.
    // promise: drill.6
    pub fn read(alloc: Global, line: &'a [u8], keys: &[&'static str]) -> Result<Pairs<'a>, Fault>
        ensures { IsRead keys.now (words_of line.now) result }
    {
        let mut pairs = BTreeMap::new(alloc);
        for word in line.split(is_space).skip(1) {
            let (name, value) = value::split_once(word, b'=').ok_or(Fault::NoPair)?;
            let key = keys
                .iter()
                .copied()
                .find(|key| key.as_bytes() == name)
                .ok_or(Fault::UnknownKey)?;
            if pairs.insert(key, value)?.is_some() {
                return Err(Fault::Repeated(key));
            }
        }
        Ok(Pairs(pairs))
    }

    // promise: drill.7
    pub fn value(&self, key: &'static str) -> Value<'a>
        ensures { result ≡ record { key = key.entry; text = value_at self.now key.now } }
    {
        Value {
            key,
            text: self.0.get(key).copied(),
        }
    }
}

// A key, and its value if the line has it.
#[derive(Clone, Copy)]
pub struct Value<'a> {
    key: &'static str,
    text: Option<&'a [u8]>,
}

impl<'a> Value<'a> {
    // The value, with a text for a line that does not have it.
    // promise: drill.7
    pub fn or(self, default: &'static [u8]) -> Value<'a>
        ensures { result ≡ record self.entry { text = option_or self.entry.text (Some default.entry) } }
    {
        Value {
            text: self.text.or(Some(default)),
            ..self
        }
    }

    // The value as the line has it.
    // promise: drill.7
    pub fn text(self) -> Result<&'a [u8], Fault>
        ensures { result ≡ ok_or self.entry.text (Fault.Missing self.entry.key) }
    {
        self.text.ok_or(Fault::Missing(self.key))
    }

    // What a parser makes of the value.
    // promise: drill.7
    pub fn parse<T, P: Fn(&[u8]) -> Option<T>>(self, parse: P) -> Result<T, Fault>
        requires { P.IsAlwaysCallable parse }
        ensures { IsParsed (FnReturnsAt P.Fn parse) self.entry.key self.entry.text result }
    {
        parse(self.text()?).ok_or(Fault::Bad(self.key))
    }

    // The parts of the value between its commas, at most `most`; '-' is none.
    // promise: drill.4
    pub fn list<T: Drop, P: Fn(&[u8]) -> Option<T>>(
        self,
        alloc: Global,
        most: usize,
        parse: P,
    ) -> Result<Vec<T>, Fault>
        requires { P.IsAlwaysCallable parse }
        ensures { IsList (FnReturnsAt P.Fn parse) self.entry.key most self.entry.text result }
    {
        let text = self.text()?;
        let mut items = Vec::new(alloc);
        if text == NONE {
            return Ok(items);
        }
        // Kept: the parts of `split`, taken by hand. A `for` over `split` was tried: here, generic over `T` and `P`, its invariant gets no proof.
        let mut rest = Some(text);
        while let Some(left) = rest {
            if items.len() == most {
                return Err(Fault::Bad(self.key));
            }
            let (part, after) = value::first_part(left, b',');
            items.push(parse(part).ok_or(Fault::Bad(self.key))?)?;
            rest = after;
        }
        Ok(items)
    }

    // The bytes of a value of hexadecimal digits, two each, at most `most`; '-' is none.
    // promise: drill.3
    pub fn bytes(self, alloc: Global, most: usize) -> Result<Vec<u8>, Fault>
        ensures { EndsAs (λ bytes. bytes.items) (bytes_read self.entry.key most self.entry.text) result }
    {
        let text = self.text()?;
        let mut bytes = Vec::new(alloc);
        if text == NONE {
            return Ok(bytes);
        }
        if text.is_empty() || text.len() % 2 != 0 || most < text.len() / 2 {
            return Err(Fault::Bad(self.key));
        }
        for digits in text.chunks_exact(2) {
            bytes.push(value::byte(digits).ok_or(Fault::Bad(self.key))?)?;
        }
        Ok(bytes)
    }
}

#[cfg(test)]
mod tests {
    use super::*;
    use std::test::Fail;

    // A line with a default, with bytes in either case and with identifiers, as docs/DRILL.md, "The language", has them.
    const LINE: &[u8] = b"reply plain=0aFF packet=- local=c0000201,0A000001";

    #[test]
    fn pairs_are_read(rt: HostRuntime) -> Result<(), Fail> {
        let pairs = Pairs::read(rt.alloc(), LINE, &["packet", "auth", "plain", "local"])?;
        assert_eq!(rt; pairs.value("plain").text()?, &b"0aFF"[..]);
        assert_eq!(rt; pairs.value("auth").or(b"48").text()?, &b"48"[..]);
        Ok(())
    }

    #[test]
    fn bytes_are_read(rt: HostRuntime) -> Result<(), Fail> {
        let pairs = Pairs::read(rt.alloc(), LINE, &["plain", "packet", "local"])?;
        let plain = pairs.value("plain").bytes(rt.alloc(), 2)?;
        assert_eq!(rt; plain.as_slice(), &[0x0A, 0xFF][..]);
        let packet = pairs.value("packet").bytes(rt.alloc(), 4096)?;
        assert!(rt; packet.is_empty());
        Ok(())
    }

    #[test]
    fn a_list_is_read(rt: HostRuntime) -> Result<(), Fail> {
        let pairs = Pairs::read(rt.alloc(), LINE, &["plain", "packet", "local"])?;
        let local = pairs.value("local").list(rt.alloc(), 2, value::identifier)?;
        assert_eq!(rt; local.as_slice(), &[0xC000_0201, 0x0A00_0001][..]);
        Ok(())
    }
}
