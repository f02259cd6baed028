// Marking a heap of two zones.
ghost use Rattle.std.specs.Prelude.{◌≡◌, ◌<◌, false, length};
ghost use Rattle.colour_defs.specs.Step.{HasFewFields};
ghost use Rattle.par_mark.specs.TestHeaps.{IsMarkable, IsTakenOn};

use crate::mark_heap;
use gz_io::FreeGate;
use gz_names::{CompNo, GraphCmd, NoMemory, Place, Reg, ZoneNo};
use heap_core::Heap;
use mark_ahead::Marked;
use std::alloc::Global;
use std::marker::Model;
use std::sync::Wait;
use std::test::Fail;
use std::thread::Threads;

// A heap that commands alone have changed.
#[derive(Drop)]
struct TestHeap {
    heap: Heap,
}

impl Model for TestHeap {
    ghost use Rattle.heap_core.specs.Heap.{HeapState};
    ghost use Rattle.par_mark.specs.TestHeaps.{IsMarkable};

    ghost Value = { HeapState };

    ghost view = { λ h. h.heap };

    ghost invariant = { λ h. IsMarkable h.heap };
}

// What the registers of the test hold.
#[derive(Drop)]
struct Registers {
    root: Reg,
    child: Reg,
    far: Reg,
    wrapper: Reg,
    map: Reg,
}

impl Registers {
    fn first() -> Option<Self> {
        Some(Registers {
            root: Reg::new(0)?,
            child: Reg::new(1)?,
            far: Reg::new(2)?,
            wrapper: Reg::new(3)?,
            map: Reg::new(4)?,
        })
    }
}

// What marking leaves: how many cells are black, how many are listed as turned black, how many targets lie
// outside, and the first of these.
#[derive(Clone, Copy, Debug, PartialEq, Eq)]
struct Found {
    black: u32,
    won: usize,
    outside: usize,
    first: Option<Place>,
}

fn count_found(words: &[u64], marked: &Marked) -> Found {
    let mut black = 0u32;
    for word in words {
        black = black.wrapping_add(word.count_ones());
    }
    Found {
        black,
        won: marked.won.len(),
        outside: marked.outside.len(),
        first: marked.outside.first().copied(),
    }
}

// Whether no more cells can be made.
fn is_full(heap: &Heap) -> bool
    ensures { result ≡ false → heap.now.made < 4294967295 }
{
    heap.made() >= 4_294_967_295
}

impl TestHeap {
    fn new(alloc: Global) -> Result<Self, NoMemory> {
        let heap = Heap::new(alloc)?;
        Ok(TestHeap { heap })
    }

    // Does a command, which is not to be refused.
    fn step(&mut self, cmd: &GraphCmd) -> Result<(), Fail>
        requires { HasFewFields cmd.now }
    {
        if is_full(&self.heap) {
            return Err(Fail::new("the heap is full"));
        }
        let plan = match self.heap.resolve(cmd) {
            Ok(plan) => plan,
            Err(why) => return Err(Fail::from(why)),
        };
        match self.heap.commit(&plan) {
            Ok(_) => Ok(()),
            Err(fault) => Err(Fail::from(fault)),
        }
    }

    // Makes a zone and a compartment of it.
    fn add_zone(&mut self, zone: u8) -> Result<(), Fail> {
        let zone = ZoneNo::new(zone).ok_or("zone")?;
        self.step(&GraphCmd::Zone)?;
        self.step(&GraphCmd::Comp(zone))
    }

    // Makes a root and another object, which name each other.
    fn add_ring(&mut self, regs: &Registers) -> Result<(), Fail> {
        self.step(&GraphCmd::New(regs.root, CompNo(0), 2))?;
        self.step(&GraphCmd::New(regs.child, CompNo(0), 1))?;
        self.step(&GraphCmd::Set(regs.root, 0, Some(regs.child)))?;
        self.step(&GraphCmd::Set(regs.child, 0, Some(regs.root)))
    }

    // The root names the wrapper of an object of the other zone. One more object is named by none.
    fn add_far(&mut self, regs: &Registers) -> Result<(), Fail> {
        self.step(&GraphCmd::New(regs.far, CompNo(1), 0))?;
        self.step(&GraphCmd::Wrap(regs.wrapper, regs.far, CompNo(0)))?;
        self.step(&GraphCmd::Set(regs.root, 1, Some(regs.wrapper)))?;
        self.step(&GraphCmd::New(regs.child, CompNo(0), 0))
    }

    // Makes a weak map that nothing names, with an entry for the root.
    fn add_entry(&mut self, regs: &Registers) -> Result<(), Fail> {
        self.step(&GraphCmd::Map(regs.map, CompNo(0)))?;
        self.step(&GraphCmd::Put(regs.map, regs.root, regs.child))
    }

    // Makes two zones, with a ring in the first.
    fn add_zones(&mut self, regs: &Registers) -> Result<(), Fail> {
        self.add_zone(0)?;
        self.add_zone(1)?;
        self.add_ring(regs)?;
        self.add_far(regs)
    }

    fn build(alloc: Global, regs: &Registers) -> Result<Self, Fail> {
        let mut heap = TestHeap::new(alloc)?;
        heap.add_zones(regs)?;
        Ok(heap)
    }

    fn reg(&self, reg: Reg) -> Option<Place> {
        self.heap.reg(reg)
    }

    fn find<R: Threads + Wait + Sync>(
        self,
        rt: &R,
        alloc: Global,
        reg: Reg,
    ) -> Result<Found, Fail> {
        let mut heap = self.heap;
        find_in(rt, alloc, &mut heap, reg)
    }
}

fn find_in<R: Threads + Wait + Sync>(
    rt: &R,
    alloc: Global,
    heap: &mut Heap,
    reg: Reg,
) -> Result<Found, Fail>
    requires { IsMarkable heap.old }
{
    let (words, marked) = mark_in(rt, alloc, heap, reg)?;
    Ok(count_found(&words, &marked))
}

// Takes a zone on to its marking: its mark bits count for nothing, so that there are none to clear.
fn take_to_marking(heap: &mut Heap, zone: ZoneNo)
    requires { zone < length heap.old.shape.states }
    ensures { IsTakenOn heap.old heap.new }
{
    heap.advance(zone);
    heap.advance(zone);
}

// Takes the first zone on to its marking, and marks from what a register holds, which is black.
fn mark_in<R: Threads + Wait + Sync>(
    rt: &R,
    alloc: Global,
    heap: &mut Heap,
    reg: Reg,
) -> Result<(Vec<u64>, Marked), Fail>
    requires { IsMarkable heap.old }
{
    let zone = ZoneNo::new(0).ok_or("zone")?;
    let Some(root) = heap.reg(reg) else {
        return Err(Fail::new("the register is empty"));
    };
    if heap.zones() == 0 {
        return Err(Fail::new("there is no zone"));
    }
    take_to_marking(heap, zone);
    if heap.comps() == 0 {
        return Err(Fail::new("there is no compartment"));
    }
    let mut words = Vec::from_elem(alloc, 0u64, heap.arenas() as usize)?;
    if let Some(word) = words.get_mut(root.arena() as usize) {
        *word |= 1 << root.slot();
    }
    Ok(mark_heap(rt, alloc, heap, &[root], words, &FreeGate)?)
}

#[test]
fn a_heap_is_marked_as_far_as_its_zone_goes(rt: HostRuntime) -> Result<(), Fail> {
    let regs = Registers::first().ok_or("registers")?;
    let mut heap = TestHeap::build(rt.alloc(), &regs)?;
    heap.add_entry(&regs)?;
    let far = heap.reg(regs.far);
    let found = heap.find(&rt, rt.alloc(), regs.root)?;
    let wanted = Found {
        black: 3,
        won: 2,
        outside: 1,
        first: far,
    };
    assert_eq!(rt; found, wanted, "the ring and the wrapper");
    Ok(())
}

#[test]
fn without_weak_entries_no_cell_is_listed(rt: HostRuntime) -> Result<(), Fail> {
    let regs = Registers::first().ok_or("registers")?;
    let heap = TestHeap::build(rt.alloc(), &regs)?;
    let found = heap.find(&rt, rt.alloc(), regs.root)?;
    assert_eq!(rt;
        (found.black, found.won),
        (3, 0),
        "the ring and the wrapper are black"
    );
    Ok(())
}
