// Pinned roots: what is held beyond the sixteen registers.
ghost use Rattle.slice_driver.specs.Pins.{LoadsIn, PinDone, RootDone, UnpinsIn};

use crate::collector::Collector;
use gz_names::{CmdFault, Refusal, Reg};

/// A pinned root holds no cell.
#[derive(Clone, Copy, Debug, PartialEq, Eq)]
pub struct NotPinned;

impl Collector {
    /// A pinned root holds what a register holds (JS::PersistentRooted of js/public/RootingAPI.h). Returns its number,
    /// which no other root has that holds a cell. It is refused where the register is empty. What a register holds is
    /// black, or of a zone that is being prepared, so no barrier is needed. After a fault nothing changed.
    pub fn pin(&mut self, register: Reg) -> Result<usize, CmdFault>
        ensures { PinDone self.old register result self.new }
    {
        let Some(place) = self.heap.reg(register) else {
            return Err(CmdFault::Refused(Refusal::Empty));
        };
        match self.heap.pin(place) {
            Ok(root) => Ok(root),
            Err(_) => Err(CmdFault::NoMemory),
        }
    }

    /// A register holds what a pinned root holds. `NotPinned` is returned exactly where that holds nothing; then
    /// nothing changed.
    pub fn load(&mut self, register: Reg, root: usize) -> Result<(), NotPinned>
        ensures { RootDone (LoadsIn register root) self.old root result self.new }
    {
        match self.heap.load(register, root) {
            Some(_) => Ok(()),
            None => Err(NotPinned),
        }
    }

    /// A pinned root holds nothing any more, and its number may be given again. `NotPinned` is returned exactly where
    /// it holds nothing; then nothing changed.
    pub fn unpin(&mut self, root: usize) -> Result<(), NotPinned>
        ensures { RootDone (UnpinsIn root) self.old root result self.new }
    {
        match self.heap.unpin(root) {
            Some(_) => Ok(()),
            None => Err(NotPinned),
        }
    }
}
