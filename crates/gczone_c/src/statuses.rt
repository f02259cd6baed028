// What a call returns: a number for each way in which it can end. gczone.h has the same numbers.
ghost use Rattle.std.specs.Prelude.{◌≡◌};
ghost use Rattle.gczone_c.specs.Statuses.{begin_status, compact_status, fault_status, refusal_status, root_status};

use gz_names::Refusal;
use slice_driver::{BeginFault, CompactFault, Compacted, NotPinned, SessionFault, refusal_words};

pub const DONE: u32 = 0;
/// The handle is closed.
pub const CLOSED: u32 = 1;
/// The handle is open already.
pub const OPEN: u32 = 2;

pub const NO_MEMORY: u32 = 3;
/// The most cells were made.
pub const HEAP_FULL: u32 = 4;
/// There is no such entry, name or report.
pub const NONE: u32 = 5;
// A number is out of range.
pub const BAD_REGISTER: u32 = 8;

pub const BAD_ZONE: u32 = 9;

pub const BAD_COMPARTMENT: u32 = 10;

pub const BAD_SLOT: u32 = 11;

pub const BAD_FIELD: u32 = 12;

pub const BAD_FIELD_COUNT: u32 = 13;

pub const BAD_KIND: u32 = 14;

pub const BAD_WEAK_SLOT: u32 = 15;
// The command is refused.
pub const FULL: u32 = 16;

pub const NO_ZONE: u32 = 17;

pub const NO_COMPARTMENT: u32 = 18;

pub const EMPTY: u32 = 19;

pub const KIND: u32 = 20;

pub const NO_FIELD: u32 = 21;

pub const CROSS: u32 = 22;

pub const RUNNING: u32 = 24;

pub const IDLE: u32 = 25;

pub const MARKING: u32 = 26;
/// No cell is pinned under this number.
pub const NOT_PINNED: u32 = 27;

/// The status of a refusal.
pub fn of_refusal(why: Refusal) -> u32
    ensures { result ≡ refusal_status why }
{
    match why {
        Refusal::Full => FULL,
        Refusal::NoZone => NO_ZONE,
        Refusal::NoComp => NO_COMPARTMENT,
        Refusal::Empty => EMPTY,
        Refusal::Kind => KIND,
        Refusal::NoField => NO_FIELD,
        Refusal::Cross => CROSS,
        Refusal::Running => RUNNING,
        Refusal::Idle => IDLE,
        Refusal::Marking => MARKING,
    }
}

/// The status of a command that was not done.
pub fn of_fault(fault: &SessionFault) -> u32
    ensures { result ≡ fault_status fault.now }
{
    match fault {
        SessionFault::Refused(why) => of_refusal(*why),
        SessionFault::Full => HEAP_FULL,
        SessionFault::NoMemory => NO_MEMORY,
    }
}

/// The status of what was done with a pinned root.
pub fn of_root(done: &Result<(), NotPinned>) -> u32
    ensures { result ≡ root_status done.now }
{
    match done {
        Ok(()) => DONE,
        Err(NotPinned) => NOT_PINNED,
    }
}

/// The status of a collection's beginning.
pub fn of_begin(begun: &Result<(), BeginFault>) -> u32
    ensures { result ≡ begin_status begun.now }
{
    match begun {
        Ok(()) => DONE,
        Err(BeginFault::Running) => RUNNING,
        Err(BeginFault::NoZone) => NO_ZONE,
    }
}

/// The status of a compaction.
pub fn of_compaction(done: &Result<Compacted, CompactFault>) -> u32
    ensures { result ≡ compact_status done.now }
{
    match done {
        Ok(_) => DONE,
        Err(CompactFault::Running) => RUNNING,
        Err(CompactFault::NoZone) => NO_ZONE,
        Err(CompactFault::NoMemory) => NO_MEMORY,
    }
}

/// A status in plain words.
pub fn text(status: u32) -> &'static str {
    match status {
        DONE => "done",
        CLOSED => "the handle is closed",
        OPEN => "the handle is open already",
        NO_MEMORY => "out of memory",
        HEAP_FULL => "the most cells were made: 4,294,967,295",
        NONE => "there is no such entry, name or report",
        BAD_REGISTER => "a register is above 15",
        BAD_ZONE => "a zone is above 63",
        BAD_COMPARTMENT => "a compartment is above 255",
        BAD_SLOT => "a gray slot is above 63",
        BAD_FIELD => "a field is above 7",
        BAD_FIELD_COUNT => "an object has at most 8 fields",
        BAD_KIND => "a name is of no cell or wrapper",
        BAD_WEAK_SLOT => "a weak slot is above 63",
        FULL => refusal_words(Refusal::Full),
        NO_ZONE => refusal_words(Refusal::NoZone),
        NO_COMPARTMENT => refusal_words(Refusal::NoComp),
        EMPTY => refusal_words(Refusal::Empty),
        KIND => refusal_words(Refusal::Kind),
        NO_FIELD => refusal_words(Refusal::NoField),
        CROSS => refusal_words(Refusal::Cross),
        RUNNING => refusal_words(Refusal::Running),
        IDLE => refusal_words(Refusal::Idle),
        MARKING => refusal_words(Refusal::Marking),
        NOT_PINNED => "no cell is pinned under this number",
        _ => "no status of this interface",
    }
}

/// Writes a text, as much as there is room for before a zero byte. Returns the length of the whole text.
pub fn write_text(text: &str, room: &mut [u8]) -> usize {
    let mut ended = false;
    let mut bytes = text.as_bytes().iter();
    let last = room.len().saturating_sub(1);
    for (index, place) in room.iter_mut().enumerate() {
        if index == last {
            ended = true;
        }
        match bytes.next() {
            Some(byte) if !ended => *place = *byte,
            _ => {
                *place = 0;
                break;
            }
        }
    }
    text.len()
}
