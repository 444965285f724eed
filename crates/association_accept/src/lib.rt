// Acceptance: whether the source may be synchronised to.
// Promises: each number exactly when its rule says so, with the rules in their order.
// Rule: RULES, part 12; definitions in specs/Accept.antt, number by number in specs/Numbers.antt.
#![tactic(auto)]

ghost use Rattle.std.specs.Prelude.{◌≡◌, Err};
ghost use Rattle.std.proofs.Common.{rules};
ghost use Rattle.association_accept.specs.Accept.{is_ours, served_by_us, loops, number_of, accept_seen, accept_of};

use answers::Refusal;
use association::{Association, Settings, Source, State};
use cookiestash::Seen;
use identifiers::ReferenceId;

// What the caller's Bloom filter says about us: there is no filter, we are absent from it, or we are present in it.
#[derive(Clone, Copy, Debug, PartialEq, Eq)]
pub enum Bloom {
    NoFilter,
    Absent,
    Present,
}

// Why the source is not accepted.
#[derive(Clone, Copy, Debug, PartialEq, Eq)]
pub enum AcceptRefusal {
    Stratum,
    Loop,
    Unreachable,
    NotWhole,
}

impl Refusal for AcceptRefusal {
    ghost number_of = { λ refusal. number_of (Err refusal) };

    // promise: 12.1
    fn number(self) -> u8 {
        match self {
            AcceptRefusal::Stratum => 40,
            AcceptRefusal::Loop => 41,
            AcceptRefusal::Unreachable => 42,
            AcceptRefusal::NotWhole => 32,
        }
    }

    ghost never_zero = { Prim.search rules };
}

// Whether the source's identifier is one of ours. A source of stratum 1 has its own clock, so its identifier is not compared.
#[tactic(auto, using(crate::proofs::Among::contains_is))]
fn is_ours(stratum: u8, id: u32, local: &[u32]) -> bool
    ensures { result ≡ is_ours stratum id local.now }
{
    stratum != 1 && local.contains(&id)
}

// Whether the source reports that it gets its time from us. Below stratum 2 it reports a name, not an address.
#[tactic(auto, using(crate::proofs::Among::contains_is))]
fn served_by_us(stratum: u8, refid: u32, local: &[u32]) -> bool
    ensures { result ≡ served_by_us stratum refid local.now }
{
    2 <= stratum && local.contains(&refid)
}

// Whether our own time would come back to us.
// Kept: a pattern and no `==`: a derived `==` compares with a constant in memory, and the module for boards has none (boards/module.py refuses them).
fn is_loop(source: Source, own: ReferenceId, local: &[u32], bloom: Bloom) -> bool
    ensures { result ≡ loops source.stratum own.0 source.refid.0 local.now bloom }
{
    is_ours(source.stratum, own.0, local)
        || served_by_us(source.stratum, source.refid.0, local)
        || matches!(bloom, Bloom::Present)
}

// Whether the source is accepted, from the settings, the state, the summary of the stash, our stratum, our identifiers and what the Bloom filter says.
// Kept: settings, state and summary apart, as the definition `accept_seen` has them, and the caller's three apart, as C passes them.
#[tactic(auto, unfolding(crate::specs::Accept::accept_seen))]
pub fn accept_seen(
    settings: Settings,
    state: State,
    seen: Seen,
    stratum: u8,
    local: &[u32],
    bloom: Bloom,
) -> Result<(), AcceptRefusal>
    ensures { result ≡ accept_seen settings state seen stratum local.now bloom }
{
    if !association::whole_seen(settings, seen, state) {
        return Err(AcceptRefusal::NotWhole);
    }
    if stratum <= state.source.stratum {
        return Err(AcceptRefusal::Stratum);
    }
    if is_loop(state.source, settings.source, local, bloom) {
        return Err(AcceptRefusal::Loop);
    }
    if !state.effort.reach.is_reachable() {
        return Err(AcceptRefusal::Unreachable);
    }
    Ok(())
}

// The same for an association passed by value.
// Kept: stratum, identifiers and filter apart, as C passes them and the definition `accept_of` has them.
// promise: 12.1, 12.2
pub fn accept(a: Association, stratum: u8, local: &[u32], bloom: Bloom) -> Result<(), AcceptRefusal>
    ensures { result ≡ accept_of a stratum local.now bloom }
{
    let seen = a.stash.seen(a.settings.capacity);
    accept_seen(a.settings, a.state, seen, stratum, local, bloom)
}
