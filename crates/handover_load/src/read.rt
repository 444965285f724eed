// Reads a hand-over file in place: why it is rejected, or its settings, its state, and the body of its stash. No stash is made.
// Promises: for any bytes, the answer of loading them; a file that loads is an association with these settings, this state, and the stash in the body.
// Rule: RULES, No. 6, No. 12 and No. 14; definitions in specs/Reading.antt, the relation to loading in proofs/Within.antt.
ghost use Rattle.std.specs.Prelude.{◌≡◌, ◌&&◌};
ghost use Rattle.association.specs.Record.{whole_seen};
ghost use Rattle.handover_groups.specs.Settings.{settings_known};
ghost use Rattle.handover_groups.specs.State.{version_known, source_known};
ghost use Rattle.handover_file.specs.Cookies.{stash_known};
ghost use Rattle.handover_load.specs.Reading.{counted_of, contents_in, read_of};

use crate::FileRead;
use association::{Settings, State};
use cookiestash::Seen;
use handover_file::LoadRefusal;
use handover_file::cut::{Bodies, Cookies};

// Whether the bodies are an association, given the settings and the state that it would be loaded with.
fn is_whole(b: Bodies, settings: Settings, state: State) -> bool
    ensures { result
        ≡ ((settings_known b.entry.settings.now
        && (stash_known settings.capacity b.entry.stash.now
        && (version_known b.entry.version.now && source_known b.entry.source.now)))
        && whole_seen settings (counted_of b.entry.stash.now) state) }
{
    let read = usize::from(crate::place_of(b.stash));
    let held = Cookies::new(b.stash).count();
    let seen = Seen {
        whole: true,
        oldest: None,
        gap: 0,
        read,
        held,
    };
    handover_groups::settings_known(b.settings)
        && cookiestash::in_range(usize::from(settings.capacity), read, held)
        && handover_groups::version_known(b.version)
        && handover_groups::source_known(b.source)
        && association::whole_seen(settings, seen, state)
}

// Reads a file.
// promise: no6.8
pub fn read(file: &[u8]) -> Result<FileRead<'_>, LoadRefusal>
    ensures { contents_in result ≡ read_of file.now }
{
    let b = handover_file::cut::bodies_of(file)?;
    let given = handover_groups::settings_of(b.settings);
    let read = crate::state_in(b.effort, b.version, b.polls, b.source);
    let settings = crate::settled_settings(given);
    let state = crate::settled_state(read);
    if !is_whole(b, settings, state) {
        return Err(LoadRefusal::NoAssociation);
    }
    Ok(FileRead {
        retired: crate::is_retired(given, read),
        settings,
        state,
        stash: b.stash,
    })
}
