// Pinned roots: what an embedder holds beyond the sixteen registers.
ghost use Rattle.slice_driver.specs.Pins.{LoadsIn, PinCalled, RootCalled, UnpinsIn};

use super::{Session, SessionFault};
use crate::pinned::NotPinned;
use gz_names::Reg;
use sweeping::Sweeper;

impl<S: Sweeper> Session<S> {
    /// A pinned root holds what a register holds, until `unpin`. It is a black root as a register is, and there are as
    /// many as there is memory for. Returns its number, which no other root has that holds a cell. It is refused
    /// where the register is empty. After a fault nothing changed.
    pub fn pin(&mut self, register: Reg) -> Result<usize, SessionFault>
        ensures { PinCalled S.bits self.old register result self.new }
    {
        Ok(self.collector.pin(register)?)
    }

    /// A register holds what a pinned root holds. `NotPinned` is returned exactly where that holds nothing; then
    /// nothing changed. It takes no memory.
    pub fn load(&mut self, register: Reg, root: usize) -> Result<(), NotPinned>
        ensures { RootCalled S.bits (LoadsIn register root) self.old root result self.new }
    {
        self.collector.load(register, root)
    }

    /// A pinned root holds nothing any more, and its number may be given again. `NotPinned` is returned exactly where
    /// it holds nothing; then nothing changed. It takes no memory.
    pub fn unpin(&mut self, root: usize) -> Result<(), NotPinned>
        ensures { RootCalled S.bits (UnpinsIn root) self.old root result self.new }
    {
        self.collector.unpin(root)
    }
}
