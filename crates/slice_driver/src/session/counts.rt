// How much a session holds.
ghost use Rattle.std.specs.Prelude.{◌≡◌, ◌≤◌, ◌*◌, ◌↔◌, None, length};
ghost use Rattle.slice_driver.specs.Bounds.{units_bound};
ghost use Rattle.slice_driver.specs.Left.{units_left};
ghost use Rattle.slice_driver.specs.Present.{arena_bytes, present_in_all};

use super::Session;
use sweeping::Sweeper;

// What an arena takes: its cells, their marks and its zone.
const ARENA_BYTES: u64 = 64 * 40 + 32;

impl<S: Sweeper> Session<S> {
    /// How many cells are present, wrappers among them. It walks over arenas only while some are being
    /// swept.
    pub fn cells(&self) -> u64
        ensures { result ≡ present_in_all self.now.collector.heap.shape.arenas }
    {
        self.collector.present()
    }

    /// How many objects and maps were ever made. The next one has this number.
    pub fn objects(&self) -> u64
        ensures { result ≡ self.now.collector.heap.shape.objects }
    {
        self.collector.objects()
    }

    /// How many arenas were made, each of 64 slots, those that compaction gave up among them. Memory is given back
    /// by the end of the session alone.
    pub fn arenas(&self) -> u32
        ensures { result ≡ length self.now.collector.heap.shape.arenas }
    {
        self.collector.heap.arenas()
    }

    /// How many bytes the arenas take: 64 cells of 40 bytes each, used or not, and 32 beside them. Not
    /// counted are the room that vectors keep to grow, the tables of wrappers and of weak entries, and
    /// what a collection keeps of its own.
    pub fn bytes(&self) -> u64
        ensures { result ≡ arena_bytes * length self.now.collector.heap.shape.arenas }
    {
        ARENA_BYTES * u64::from(self.arenas())
    }

    /// How many entries the weak maps have.
    pub fn entries(&self) -> u64
        ensures { result ≡ length self.now.collector.heap.shape.weak.entries }
    {
        self.collector.entries()
    }

    /// How many units the collection that runs may still take at most, if no command comes between. It counts what the
    /// heap holds and what is buffered, not what marking has found, so most collections take far fewer. It is 0
    /// exactly where none runs.
    pub fn units_left(&self) -> u64
        ensures bound { units_left self.now.collector (S.bits self.now.sweeper) ≤ result }
        ensures value { result ≡ units_bound self.now.collector }
        ensures none { (result ≡ 0) ↔ (self.now.collector.run ≡ None) }
    {
        self.collector.units_left()
    }
}
