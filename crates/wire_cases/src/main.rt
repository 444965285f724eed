// A program that answers cases of the wire format, one line for each line of its standard input; tools/wire_cases.py writes the cases and the answers.
// Promises: it ends and stays in its bounds. What it prints is tested, not proved (docs/EXCEPTIONS.md).
// Rule: RULES, parts 6 to 9 and No. 1.
#![tactic(auto)]

mod buffers;
mod headers;
mod uids;
mod walks;

use drill_text::fault::Fault;
use drill_text::keys::{self, Pairs};
use drill_text::value::{self, COLLECT_ROOM, MAX_BYTES, REQUEST_ROOM, UID_BYTES};
use std::alloc::Global;
use std::io::{self, ErrorKind, Read};
use time_types::PollInterval;
use wire_groups::Uid;
use wire_request::Request;

// All lines together must have fewer bytes than this.
const INPUT_ROOM: usize = 131072;

// The keys of every command, in the order in which they are read.
const KEYS: [&str; 15] = [
    "bytes",
    "zeros",
    "uid",
    "at",
    "len",
    "room",
    "authenticated",
    "encrypted",
    "untrusted",
    "ntsn",
    "kind",
    "poll",
    "id",
    "mark",
    "asked",
];

// What a line's keys say; a command ignores those that it does not need.
// The bytes are a packet, decrypted fields or a cookie. The offset is also an authenticated end, or where a part starts.
// Kept, 1 and 6: a line has each of these on its own. No length is another value's, and a group is given with `ntsn` or without, since a case tests both.
#[derive(Drop)]
struct Case {
    bytes: Vec<u8>,
    uid: [u8; UID_BYTES],
    at: usize,
    len: usize,
    room: usize,
    authenticated: Uid,
    encrypted: Uid,
    untrusted: Uid,
    ntsn: bool,
    request: Request,
    asked: u8,
}

// The bytes of a line and the zeros behind them; none if those are more than bytes may be.
fn filled(mut bytes: Vec<u8>, zeros: usize) -> Result<Vec<u8>, Fault> {
    match bytes.len().checked_add(zeros) {
        Some(count) if count <= MAX_BYTES => bytes.resize(count, 0)?,
        _ => bytes.clear(),
    }
    Ok(bytes)
}

impl Case {
    // Kept: beside those of the drill's commands: each reads the keys of its own lines; here all have a default, and one reader serves every command.
    fn read(alloc: Global, line: &[u8]) -> Result<Case, Fault> {
        let pairs = Pairs::read(alloc, line, &KEYS)?;
        let given = pairs.value("bytes").or(b"-").bytes(alloc, MAX_BYTES)?;
        let zeros = pairs
            .value("zeros")
            .or(b"0")
            .parse(|text| value::up_to(text, COLLECT_ROOM))?;
        Ok(Case {
            bytes: filled(given, zeros)?,
            uid: pairs.value("uid").or(b"-").parse(value::uid)?,
            at: pairs.value("at").or(b"0").parse(value::number)?,
            len: pairs.value("len").or(b"0").parse(value::number)?,
            room: pairs
                .value("room")
                .or(b"0")
                .parse(|text| value::up_to(text, REQUEST_ROOM))?,
            authenticated: pairs
                .value("authenticated")
                .or(b"absent")
                .parse(value::group)?,
            encrypted: pairs.value("encrypted").or(b"absent").parse(value::group)?,
            untrusted: pairs.value("untrusted").or(b"absent").parse(value::group)?,
            ntsn: pairs.value("ntsn").or(b"no").parse(value::yes_or_no)?,
            request: Request {
                kind: pairs.value("kind").or(b"v4").parse(value::send_kind)?,
                poll: PollInterval(pairs.value("poll").or(b"0").parse(value::number)?),
                id: pairs.value("id").or(b"0000000000000000").parse(value::id)?,
                upgrademark: pairs
                    .value("mark")
                    .or(b"0000000000000000")
                    .parse(value::id)?,
            },
            asked: pairs.value("asked").or(b"0").parse(value::number)?,
        })
    }
}

// The commands, and what they answer:
//   header     the number; every field, the kisses, and the header written again
//   walk       of a packet: what is at an offset, how the walk ends, whether the offset is a place
//   decrypted  of decrypted fields: what is at an offset, how the walk ends
//   walker     the part of a packet at an offset; what the walker finds first, and the body of that field
//   uid        what a packet's groups before and after an end say about the identifier
//   encrypted  what decrypted fields say about it
//   match      whether the groups match
//   collect    the buffer before, the number, the list's length, the buffer after
//   request    the number, the packet's length, the buffer after
fn answer(alloc: Global, line: &[u8]) -> Result<String, Fault> {
    let case = Case::read(alloc, line)?;
    match keys::command(line) {
        b"header" => headers::answer(alloc, &case.bytes),
        b"walk" => walks::packet(alloc, &case.bytes, case.at),
        b"decrypted" => walks::decrypted(alloc, &case.bytes, case.at),
        b"walker" => walks::walker(alloc, &case.bytes, case.at, case.len),
        b"uid" => uids::packet(alloc, &case.bytes, case.uid, case.at),
        b"encrypted" => uids::encrypted(alloc, &case.bytes, case.uid),
        b"match" => uids::matching(alloc, &case),
        b"collect" => buffers::collect(alloc, &case.bytes, case.room),
        b"request" => buffers::request(alloc, &case),
        _ => Err(Fault::UnknownCommand),
    }
}

// A comment is repeated, so that each answer is in the line of its case.
fn answer_line(rt: &(impl Print + AllocGlobal), line: &[u8], number: usize) -> io::Result<()> {
    let alloc = rt.alloc();
    if line.starts_with(b"#") {
        rt.write_all(line)?;
        return rt.write_all(b"\n");
    }
    let mut out = match answer(alloc, line) {
        Ok(answer) => answer,
        Err(Fault::OutOfMemory) => return Err(io::Error::from(ErrorKind::OutOfMemory)),
        Err(fault) => format!(in alloc; "error {number} {fault}")?,
    };
    out.push('\n')?;
    rt.write_all(out.as_bytes())
}

fn answer_lines(rt: &(impl Print + AllocGlobal), input: &[u8]) -> io::Result<()> {
    if input.is_empty() {
        return Ok(());
    }
    let lines = input.strip_suffix(b"\n").unwrap_or(input);
    let mut number = 1usize;
    for line in lines.split(|b| *b == b'\n') {
        answer_line(rt, line, number)?;
        number = number.wrapping_add(1);
    }
    Ok(())
}

fn main(rt: HostRuntime) -> io::Result<()> {
    let mut input = Vec::new(rt.alloc());
    // A read that fails ends the input there.
    if let Err(error) = rt.stdin().take(INPUT_ROOM as u64).read_to_end(&mut input) {
        if error.kind() == ErrorKind::OutOfMemory {
            return Err(error);
        }
    }
    if input.len() == INPUT_ROOM {
        return rt.write_all(b"error 0 the input does not fit\n");
    }
    answer_lines(&rt, &input)
}
