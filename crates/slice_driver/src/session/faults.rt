// What went wrong, in words.
use super::SessionFault;
use crate::begin::BeginFault;
use crate::compacting::CompactFault;
use crate::pinned::NotPinned;
use gz_names::{CmdFault, Refusal};
use std::alloc::AllocError;
use std::fmt::{self, Display, Formatter, Write};

impl From<AllocError> for SessionFault {
    ghost use Rattle.std.specs.Prelude.{◌≡◌};
    ghost use Rattle.slice_driver.specs.declared.session.SessionFault.TheVariants.{NoMemory};

    ghost from_gives = { λ _ fault. fault ≡ NoMemory };

    fn from(_error: AllocError) -> Self {
        SessionFault::NoMemory
    }
}

impl From<CmdFault> for SessionFault {
    ghost use Rattle.std.specs.Prelude.{◌≡◌};
    ghost use Rattle.slice_driver.specs.Pins.{as_fault};

    ghost from_gives = { λ fault told. told ≡ as_fault fault };

    fn from(fault: CmdFault) -> Self {
        match fault {
            CmdFault::Refused(why) => SessionFault::Refused(why),
            CmdFault::NoMemory => SessionFault::NoMemory,
        }
    }
}

impl Display for SessionFault {
    fn fmt<W: Write>(&self, f: &mut Formatter<W>) -> fmt::Result {
        match self {
            SessionFault::Refused(why) => f.write_str(refusal_words(*why)),
            SessionFault::Full => f.write_str("the most cells were made: 4,294,967,295"),
            SessionFault::NoMemory => f.write_str("out of memory"),
        }
    }
}

impl Display for BeginFault {
    fn fmt<W: Write>(&self, f: &mut Formatter<W>) -> fmt::Result {
        match self {
            BeginFault::Running => f.write_str(refusal_words(Refusal::Running)),
            BeginFault::NoZone => f.write_str(refusal_words(Refusal::NoZone)),
        }
    }
}

impl Display for CompactFault {
    fn fmt<W: Write>(&self, f: &mut Formatter<W>) -> fmt::Result {
        match self {
            CompactFault::Running => f.write_str(refusal_words(Refusal::Running)),
            CompactFault::NoZone => f.write_str(refusal_words(Refusal::NoZone)),
            CompactFault::NoMemory => f.write_str("out of memory"),
        }
    }
}

impl Display for NotPinned {
    fn fmt<W: Write>(&self, f: &mut Formatter<W>) -> fmt::Result {
        f.write_str("the pinned root holds no cell")
    }
}

/// Why a command is refused.
pub fn refusal_words(why: Refusal) -> &'static str {
    match why {
        Refusal::Full => "the most zones or compartments are there",
        Refusal::NoZone => "a zone is not made, or none is named",
        Refusal::NoComp => "the compartment is not made",
        Refusal::Empty => "a register that is read is empty",
        Refusal::Kind => "a cell is of another kind",
        Refusal::NoField => "the object has no such field",
        Refusal::Cross => "two cells are of different compartments",
        Refusal::Running => "a collection runs",
        Refusal::Idle => "no collection runs",
        Refusal::Marking => "a zone is marking",
    }
}
