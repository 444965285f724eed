// Makes an association in lent bytes, in place: no record is held on the stack.
// Promises: the record that `new` or `metered` makes, packed; 31 with no change if the number of bytes is wrong; all zero if it is rejected otherwise.
// Rule: RULES, "Settings and a whole record", No. 5, No. 11, No. 12 and No. 14; definitions in specs/New.antt.
#![tactic(auto)]

ghost use Rattle.std.specs.Prelude.{◌≡◌, Err};
ghost use Rattle.std.proofs.Common.{rules};
ghost use Rattle.answers.specs.Answers.{number_in};
ghost use Rattle.association.specs.New.{made_of, first_dropped};
ghost use Rattle.record_stash.specs.Rows.{Sized};
ghost use Rattle.record_stash.specs.Slots.{refilled};
ghost use Rattle.record_bytes.specs.Record.{packed};
ghost use Rattle.record_new.specs.declared.InBytes.TheVariants.{WrongSize};
ghost use Rattle.record_new.specs.New.{in_bytes_number, in_bytes, gave, made_in, new_call, metered_call, blanked};

use answers::Refusal;
use association::{NewRefusal, Settings, State};
use association_metered::ProfileRefusal;
use cookiestash::Dropped;

// Why no association is made in lent bytes: what the call by value says, or that the number of bytes does not fit the capacity.
// Kept: no Option, since a wrong number of bytes is a refusal as well, with a number of its own.
#[derive(Clone, Copy, Debug, PartialEq, Eq)]
pub enum InBytes<E> {
    Said(E),
    WrongSize,
}

impl<E: Refusal> Refusal for InBytes<E> {
    ghost number_of = { in_bytes_number E.number_of };

    fn number(self) -> u8 {
        match self {
            InBytes::Said(refusal) => refusal.number(),
            InBytes::WrongSize => 31,
        }
    }

    ghost never_zero = { Prim.search rules };
}

// What a call returns: its answer, and what fell out while the first list was stored.
#[derive(Clone, Copy)]
pub struct Made<E> {
    pub answer: Result<(), InBytes<E>>,
    pub dropped: Dropped,
}

// Writes the new association in place, and returns what fell out of its first list.
// Kept: bytes, settings and list stay parameters here and below, as C passes them to `reckonstile_new`: a caller has each from somewhere else.
// Kept: `Sized` stands in the contract, as `record_stash` has it: a struct around the lent bytes would have to name the bytes before and after.
fn make(b: &mut [u8], settings: Settings, list: &[u8]) -> Dropped
    requires { Sized b.old settings.capacity }
    ensures { refilled result b.new ≡ refilled (first_dropped settings list.now) (packed (made_of settings list.now)) }
{
    record_stash::clear(b);
    record_bytes::store_head(b, settings, 0, State::fresh(settings));
    record_stash::refill(b, settings.capacity, settings.nts, list)
}

// Kept: bytes, settings and list are parameters here and below as at `make`.
// Carries out what the call by value says. An association is written in place, if the number of bytes fits its capacity. With a refusal the bytes are cleared.
fn carry_out<E: Refusal + Drop>(
    b: &mut [u8],
    settings: Settings,
    list: &[u8],
    said: Result<(), E>,
) -> Made<E>
    ensures { gave result.answer result.dropped b.new ≡ made_in b.old settings.capacity (number_in E.number_of said) (in_bytes said) (Err WrongSize)
        (first_dropped settings list.now) (made_of settings list.now) }
{
    if let Err(refusal) = said {
        record_stash::clear(b);
        return Made {
            answer: Err(InBytes::Said(refusal)),
            dropped: Dropped::none(),
        };
    }
    if !record_stash::sized(b, settings.capacity) {
        return Made {
            answer: Err(InBytes::WrongSize),
            dropped: Dropped::none(),
        };
    }
    let dropped = make(b, settings, list);
    Made {
        answer: Ok(()),
        dropped,
    }
}

// Makes an association. With NTS it stores a first cookie list, and reports what fell out.
// Kept: three parameters, as at `make`.
// promise: exports.3, exports.4
pub fn new(b: &mut [u8], settings: Settings, list: &[u8]) -> Made<NewRefusal>
    ensures { gave result.answer result.dropped b.new ≡ new_call settings list.now b.old }
{
    carry_out(b, settings, list, settings.tested(list))
}

// Makes an association that meets the profile for metered links.
// Kept, 2 and 5: a call of its own, as C has one, and with the parameters of `new`. Both are `carry_out`.
// promise: exports.3, exports.4
pub fn metered(b: &mut [u8], settings: Settings, list: &[u8]) -> Made<ProfileRefusal>
    ensures { gave result.answer result.dropped b.new ≡ metered_call settings list.now b.old }
{
    carry_out(
        b,
        settings,
        list,
        association_metered::profile(settings, list),
    )
}

// The blank record: every byte is zero.
// promise: exports.3
pub fn blank(b: &mut [u8])
    ensures { b.new ≡ blanked b.old }
{
    record_stash::clear(b);
}
