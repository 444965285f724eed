// The calls new and accept.
ghost use Rattle.std.specs.Prelude.{◌≡◌, MatchResult, string_bytes};
ghost use Rattle.drill_text.specs.Lines.{words_of};
ghost use Rattle.drill_commands.specs.Made.{made_text};
ghost use Rattle.drill_commands.specs.Settings.{EndsWanted};

use crate::replies::Fell;
use answers::Refusal;
use association::{Association, Settings};
use association_accept::Bloom;
use cookiestash::Dropped;
use drill_text::fault::Fault;
use drill_text::keys::Pairs;
use drill_text::value::{self, MAX_BYTES};
use identifiers::ReferenceId;
use std::alloc::Global;
use time_types::PollInterval;

// More identifiers than a line has room for.
const MAX_IDENTIFIERS: usize = 4096;

// What a line says about an association to be made: its settings and its first cookie list.
#[derive(Drop)]
pub struct Wanted {
    pub settings: Settings,
    pub list: Vec<u8>,
}

impl Wanted {
    // promise: drill.8
    pub fn read(alloc: Global, line: &[u8]) -> Result<Wanted, Fault>
        ensures { EndsWanted (words_of line.now) result }
    {
        let pairs = Pairs::read(
            alloc,
            line,
            &[
                "min", "max", "startup", "window", "mark", "start", "nts", "source", "list",
                "capacity",
            ],
        )?;
        let min = PollInterval(pairs.value("min").parse(value::number)?);
        let max = PollInterval(pairs.value("max").parse(value::number)?);
        let startup = pairs.value("startup").parse(value::number)?;
        let window = pairs.value("window").parse(value::number)?;
        let upgrademark = pairs.value("mark").parse(value::id)?;
        let start = pairs.value("start").parse(value::version)?;
        let nts = pairs.value("nts").parse(value::yes_or_no)?;
        let source = ReferenceId(pairs.value("source").parse(value::identifier)?);
        let list = pairs.value("list").or(b"-").bytes(alloc, MAX_BYTES)?;
        let capacity = pairs.value("capacity").or(b"8").parse(value::number)?;
        let settings = Settings {
            min,
            max,
            startup,
            window,
            upgrademark,
            start,
            nts,
            source,
            capacity,
        };
        Ok(Wanted { settings, list })
    }
}

// The answer of new or metered; of an association that is made, also what fell out of the first list.
// promise: drill.9
pub fn made<E: Refusal>(
    alloc: Global,
    word: &str,
    answer: Result<(), E>,
    dropped: Dropped,
) -> Result<String, Fault>
    ensures { MatchResult result
        (λ text. string_bytes text ≡ made_text E.number_of word.now answer dropped)
        (λ fault. fault ≡ Fault.OutOfMemory) }
{
    Ok(match answer {
        Ok(()) => format!(in alloc; "{word} 0 {}", Fell(dropped))?,
        Err(refusal) => format!(in alloc; "{word} {}", refusal.number())?,
    })
}

pub fn new(alloc: Global, a: &mut Association, line: &[u8]) -> Result<String, Fault> {
    let wanted = Wanted::read(alloc, line)?;
    let new = Association::new(wanted.settings, &wanted.list);
    *a = new.association;
    made(alloc, "new", new.answer, new.dropped)
}

// Kept: the words are the drill's (docs/DRILL.md), and the kind a library's, which knows no words: std's traits would have to be written there.
fn bloom(text: &[u8]) -> Option<Bloom> {
    match text {
        b"none" => Some(Bloom::NoFilter),
        b"absent" => Some(Bloom::Absent),
        b"present" => Some(Bloom::Present),
        _ => None,
    }
}

pub fn accept(alloc: Global, a: &Association, line: &[u8]) -> Result<String, Fault> {
    let pairs = Pairs::read(alloc, line, &["stratum", "local", "bloom"])?;
    let stratum = pairs.value("stratum").parse(value::number)?;
    let local = pairs
        .value("local")
        .or(b"-")
        .list(alloc, MAX_IDENTIFIERS, value::identifier)?;
    let bloom = pairs.value("bloom").or(b"none").parse(bloom)?;
    let answer = association_accept::accept(*a, stratum, &local, bloom);
    Ok(format!(in alloc; "accept {}", answers::number(answer))?)
}

#[cfg(test)]
mod tests {
    use super::*;
    use association::NewRefusal;
    use std::test::Fail;

    // The first line of the example of docs/DRILL.md, in plain numbers.
    const LINE: &[u8] =
        b"new min=4 max=10 startup=3 window=5000000000 mark=4e54503544524654 start=v4 nts=no source=c0000201";

    #[test]
    fn settings_are_read(rt: HostRuntime) -> Result<(), Fail> {
        let wanted = Wanted::read(rt.alloc(), LINE)?;
        assert_eq!(rt; wanted.settings.max.0, 10);
        assert_eq!(rt; wanted.settings.window, 5_000_000_000);
        assert_eq!(rt; wanted.settings.source.0, 0xC000_0201);
        assert_eq!(rt; wanted.settings.capacity, 8);
        assert!(rt; wanted.list.is_empty());
        Ok(())
    }

    #[test]
    fn an_answer_is_made(rt: HostRuntime) -> Result<(), Fail> {
        let none = Dropped { count: 0, bytes: 0 };
        let made_it: Result<(), NewRefusal> = Ok(());
        assert_eq!(rt;
            made(rt.alloc(), "new", made_it, none)?.as_str(),
            "new 0 dropped=0 lost=0"
        );
        let refused: Result<(), NewRefusal> = Err(NewRefusal::Retired);
        assert_eq!(rt; made(rt.alloc(), "new", refused, none)?.as_str(), "new 38");
        Ok(())
    }
}
