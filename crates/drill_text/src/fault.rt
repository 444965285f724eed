// What is wrong with a line, in the order in which it is looked for.
ghost use Rattle.std.specs.Prelude.{◌≡◌};
ghost use Rattle.drill_text.specs.declared.fault.Fault.TheVariants.{OutOfMemory};

use std::alloc::{AllocError, AllocFailed};
use std::fmt;

#[derive(Clone, Copy, Debug)]
pub enum Fault {
    LongLine,
    UnknownCommand,
    NoPair,
    UnknownKey,
    Repeated(&'static str),
    Missing(&'static str),
    Bad(&'static str),
    OutOfMemory,
}

impl fmt::Display for Fault {
    fn fmt<W: fmt::Write>(&self, f: &mut fmt::Formatter<W>) -> fmt::Result {
        match self {
            Fault::LongLine => write!(f, "long line"),
            Fault::UnknownCommand => write!(f, "unknown command"),
            Fault::NoPair => write!(f, "no pair"),
            Fault::UnknownKey => write!(f, "unknown key"),
            Fault::Repeated(key) => write!(f, "repeated {key}"),
            Fault::Missing(key) => write!(f, "missing {key}"),
            Fault::Bad(key) => write!(f, "bad {key}"),
            Fault::OutOfMemory => write!(f, "out of memory"),
        }
    }
}

impl From<AllocError> for Fault {
    ghost from_gives = { λ _ fault. fault ≡ OutOfMemory };

    fn from(_e: AllocError) -> Fault {
        Fault::OutOfMemory
    }
}

impl<T: Drop> From<AllocFailed<T>> for Fault {
    ghost from_gives = { λ _ fault. fault ≡ OutOfMemory };

    fn from(_e: AllocFailed<T>) -> Fault {
        Fault::OutOfMemory
    }
}
