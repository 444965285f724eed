// The drill: a program that replays a log against the association and answers each of its lines.
// Promises: it ends and stays in its bounds. What it prints is tested, not proved: tools/reference and the crate give the same answers (docs/EXCEPTIONS.md).
// Rule: docs/DRILL.md defines the language, RULES the numbers.
#![tactic(auto)]

use association::Association;
use drill_commands::{
    calendars, calls, collects, compares, handovers, polls, profiles, record, replies, requests,
    salvages,
};
use drill_text::fault::Fault;
use drill_text::keys;
use std::alloc::{AllocError, Global};
use std::env::{Env, FillError};
use std::fs::File;
use std::io::{self, ErrorKind, Read};
use std::rt::Files;

// How many bytes a line may have.
const MAX_LINE: usize = 32768;

// How many bytes are read at once.
const CHUNK: usize = 65536;

// How many bytes an argument may have; a longer one counts as empty.
const MAX_NAME: usize = 4096;

// The first argument that names a log; argument 0 is the program's own name.
const FIRST_LOG: usize = 1;

#[derive(Clone, Copy)]
enum Command {
    New,
    Metered,
    Load,
    Blank,
    Timer,
    Reply,
    Reply5,
    Poke,
    Save,
    Accept,
    Show,
    Cookies,
    Collect,
    Request,
    Salvage,
    Calendar,
    Plan,
    Profile,
    Compare,
}

impl Command {
    // Kept: no TryFrom: it would be as long, with a type of error besides, and `named` says that it goes by a name.
    fn named(word: &[u8]) -> Option<Command> {
        Some(match word {
            b"new" => Command::New,
            b"metered" => Command::Metered,
            b"load" => Command::Load,
            b"blank" => Command::Blank,
            b"timer" => Command::Timer,
            b"reply" => Command::Reply,
            b"reply5" => Command::Reply5,
            b"poke" => Command::Poke,
            b"save" => Command::Save,
            b"accept" => Command::Accept,
            b"show" => Command::Show,
            b"cookies" => Command::Cookies,
            b"collect" => Command::Collect,
            b"request" => Command::Request,
            b"salvage" => Command::Salvage,
            b"calendar" => Command::Calendar,
            b"plan" => Command::Plan,
            b"profile" => Command::Profile,
            b"compare" => Command::Compare,
            _ => return None,
        })
    }
}

// The answer to a line. A rejected one leaves the association as it was.
// Kept: allocator, association and line are three parameters, as the commands take them.
fn answer(alloc: Global, a: &mut Association, line: &[u8]) -> Result<String, Fault> {
    if MAX_LINE < line.len() {
        return Err(Fault::LongLine);
    }
    match Command::named(keys::command(line)).ok_or(Fault::UnknownCommand)? {
        Command::New => calls::new(alloc, a, line),
        Command::Metered => profiles::metered(alloc, a, line),
        Command::Load => handovers::load(alloc, a, line),
        Command::Blank => record::blank(alloc, a, line),
        Command::Timer => polls::timer(alloc, a, line),
        Command::Reply => replies::reply(alloc, a, line),
        Command::Reply5 => replies::reply5(alloc, a, line),
        Command::Poke => record::poke(alloc, a, line),
        Command::Save => handovers::save(alloc, a, line),
        Command::Accept => calls::accept(alloc, a, line),
        Command::Show => record::show(alloc, a, line),
        Command::Cookies => record::cookies(alloc, a, line),
        Command::Collect => collects::collect(alloc, line),
        Command::Request => requests::request(alloc, line),
        Command::Salvage => salvages::salvage(alloc, line),
        Command::Calendar => calendars::calendar(alloc, line),
        Command::Plan => calendars::plan(alloc, line),
        Command::Profile => profiles::profile(alloc, line),
        Command::Compare => compares::compare(alloc, line),
    }
}

// A log as far as it is read: the association, and the line that is not ended yet, with its number. Of a line that is too long a byte too many is kept.
// Kept: the number is that of the line, and counts whatever the line holds.
#[derive(Drop)]
struct Log {
    association: Association,
    number: u64,
    line: Vec<u8>,
}

impl Log {
    fn new(alloc: Global) -> Log {
        Log {
            association: Association::blank(),
            number: 1,
            line: Vec::new(alloc),
        }
    }

    // Adds bytes to the line.
    fn add(&mut self, piece: &[u8]) -> Result<(), AllocError> {
        let room = (MAX_LINE + 1).saturating_sub(self.line.len());
        self.line.extend_from_slice(&piece[..piece.len().min(room)])
    }

    // Answers the line, unless it is empty or a comment, with one write, and begins the next one.
    fn end_line(&mut self, rt: &(impl Print + AllocGlobal)) -> io::Result<()> {
        let alloc = rt.alloc();
        if !matches!(self.line.as_slice(), [] | [b'#', ..]) {
            let mut out = match answer(alloc, &mut self.association, &self.line) {
                Ok(answer) => answer,
                Err(Fault::OutOfMemory) => return Err(io::Error::from(ErrorKind::OutOfMemory)),
                Err(fault) => format!(in alloc; "error {} {fault}", self.number)?,
            };
            out.push('\n')?;
            rt.write_all(out.as_bytes())?;
        }
        self.line.clear();
        self.number = self.number.wrapping_add(1);
        Ok(())
    }

    // Answers the lines that end in a chunk, and keeps what is left of it for the next one.
    fn take(&mut self, rt: &(impl Print + AllocGlobal), chunk: &[u8]) -> io::Result<()> {
        for piece in chunk.split_inclusive(|b| *b == b'\n') {
            match piece.strip_suffix(b"\n") {
                Some(last) => {
                    self.add(last)?;
                    self.end_line(rt)?;
                }
                None => self.add(piece)?,
            }
        }
        Ok(())
    }

    // The log has ended; its last line may lack the newline.
    fn end(&mut self, rt: &(impl Print + AllocGlobal)) -> io::Result<()> {
        if self.line.is_empty() {
            return Ok(());
        }
        self.end_line(rt)
    }
}

// Reads a log to its end and answers it, from the blank record on. Returns whether it could be read.
fn replay(rt: &(impl Print + AllocGlobal), from: &mut impl Read) -> io::Result<bool> {
    let mut log = Log::new(rt.alloc());
    let mut chunk = vec![in rt.alloc(); 0; CHUNK]?;
    // A proved loop has to end, so its turns are counted up to a number that no run reaches.
    for _ in 0..u64::MAX {
        match from.read(&mut chunk) {
            Ok(0) => {
                log.end(rt)?;
                return Ok(true);
            }
            Ok(n) => log.take(rt, &chunk[..n])?,
            Err(_) => {
                log.end(rt)?;
                return Ok(false);
            }
        }
    }
    Ok(true)
}

// Prints a message about a log file. A name need not be text.
fn say(
    rt: &(impl Print + AllocGlobal),
    before: &[u8],
    name: &[u8],
    after: &[u8],
) -> io::Result<()> {
    let mut message = Vec::from_slice(rt.alloc(), before)?;
    message.extend_from_slice(name)?;
    message.extend_from_slice(after)?;
    message.push(b'\n')?;
    rt.write_all(&message)
}

// Opens a log. A name that is not UTF-8 cannot be opened.
fn opened<R: Files>(rt: &R, name: &[u8]) -> Option<R::File> {
    File::open(rt, str::from_utf8(name).ok()?).ok()
}

fn replay_file(rt: &(impl Files + Print + AllocGlobal), name: &[u8]) -> io::Result<()> {
    say(rt, b"# ", name, b"")?;
    let Some(mut log) = opened(rt, name) else {
        return say(rt, b"error 0 ", name, b" cannot be opened");
    };
    if replay(rt, &mut log)? {
        return Ok(());
    }
    say(rt, b"error 0 ", name, b" cannot be read")
}

fn has_argument(rt: &impl Env, i: usize) -> bool {
    !matches!(rt.arg(i, &mut []), Err(FillError::NotPresent))
}

// Kept: the name is read into a buffer with its length beside it, since std's arguments, as Strings, refuse a name that is not UTF-8; it has an answer here.
fn replay_argument(rt: &(impl Env + Files + Print + AllocGlobal), i: usize) -> io::Result<()> {
    let mut name = [0; MAX_NAME];
    let n = rt.arg(i, &mut name).unwrap_or(0);
    replay_file(rt, &name[..n])
}

// Without arguments the log is the standard input; otherwise each argument names a log.
fn main(rt: HostRuntime) -> io::Result<()> {
    if !has_argument(&rt, FIRST_LOG) {
        replay(&rt, &mut rt.stdin())?;
        return Ok(());
    }
    for i in FIRST_LOG..usize::MAX {
        if !has_argument(&rt, i) {
            break;
        }
        replay_argument(&rt, i)?;
    }
    Ok(())
}
