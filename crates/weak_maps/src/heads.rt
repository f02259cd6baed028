// The numbers of the lists of places.
ghost use Rattle.std.specs.Prelude.{◌≡◌, ◌<◌, ℕ, [], false, None, Some, IfOk, OnOk, OnErr, if◌then◌else◌};
ghost use Rattle.weak_maps.specs.Heads.{number_from as number_kept};

use gz_names::{Move, Moves, NoMemory, Place};
use std::alloc::{AllocError, Global};
use std::marker::Model;

/// The number of each place's list. The numbers of an arena's slots lie side by side, so a cell is asked about without
/// a search. They take 256 bytes for each arena that has or had a list, and four bytes for each arena before it.
#[derive(Drop)]
pub(crate) struct Heads {
    // One more than the number of each arena's page, and zero for an arena that has none.
    arenas: Vec<u32>,
    // One more than the number of each slot's list, and zero for a slot that has none.
    pages: Vec<[u32; 64]>,
}

impl Model for Heads {
    ghost use Rattle.weak_maps.specs.Heads.{HeadsState, ArePages};

    ghost Value = { HeadsState };

    ghost view = { λ h. record { arenas = h.arenas.items; pages = h.pages.items } };

    ghost invariant = { λ h. ArePages (record { arenas = h.arenas.items; pages = h.pages.items }) };
}

impl Heads {
    ghost use Rattle.weak_maps.specs.Heads.{head_of, no_heads, page_of};
    ghost use Rattle.weak_maps.specs.Moving.{exchanged, other_of};
    ghost use Rattle.weak_maps.specs.Places.{is_same};

    /// No place has a list.
    pub fn new(alloc: Global) -> Self
        ensures { result ≡ no_heads }
    {
        Heads {
            arenas: Vec::new(alloc),
            pages: Vec::new(alloc),
        }
    }

    /// The number of a place's list.
    #[inline(always)]
    pub fn get(&self, place: Place) -> Option<u32>
        ensures { result ≡ head_of self.now place }
    {
        let page = self.page(place.arena())?;
        number_from(self.pages[page as usize][place.slot() as usize])
    }

    /// Whether an arena has a page. If it has none, no place of it has a list.
    #[inline(always)]
    pub fn has_page(&self, arena: u32) -> bool
        ensures { result ≡ false → (place : Place) → place.0 ≡ arena → head_of self.now place ≡ None }
    {
        self.page(arena).is_some()
    }

    // The number of an arena's page.
    #[inline(always)]
    fn page(&self, arena: u32) -> Option<u32>
        ensures { result ≡ page_of self.now arena }
    {
        let kept = self.arenas.get(arena as usize)?;
        number_from(*kept)
    }

    /// A place has a list with this number from now on.
    pub fn insert(&mut self, place: Place, list: u32) -> Result<(), NoMemory>
        requires { list < 4294967295 }
        ensures ok { OnOk result ((q : Place) → head_of self.new q
            ≡ (if is_same place q then Some list else head_of self.old q)) }
        ensures err { OnErr result (self.new ≡ self.old) }
    {
        self.keep(place, list + 1)
    }

    // What is kept for a place.
    fn kept_for(&self, place: Place) -> u32
        ensures { number_kept result ≡ head_of self.now place }
    {
        match self.page(place.arena()) {
            Some(page) => self.pages[page as usize][place.slot() as usize],
            None => 0,
        }
    }

    // This is kept for a place from now on.
    fn keep(&mut self, place: Place, number: u32) -> Result<(), NoMemory>
        ensures ok { OnOk result ((q : Place) → head_of self.new q
            ≡ (if is_same place q then number_kept number else head_of self.old q)) }
        ensures err { OnErr result (self.new ≡ self.old) }
    {
        let page = self.page_for(place.arena())?;
        self.pages[page as usize][place.slot() as usize] = number;
        Ok(())
    }

    // Two places exchange their lists.
    fn exchange(&mut self, step: Move) -> Result<(), NoMemory>
        ensures { OnOk result ((q : Place) → head_of self.new q ≡ head_of self.old (other_of step q)) }
    {
        let (first, second) = (self.kept_for(step.from), self.kept_for(step.to));
        if first == 0 && second == 0 {
            return Ok(());
        }
        self.keep(step.from, second)?;
        self.keep(step.to, first)
    }

    // The numbers of the lists of all places, anew.
    fn copied(&self) -> Result<Self, NoMemory>
        ensures { IfOk result (λ heads. heads ≡ self.now) }
    {
        let arenas = Vec::from_slice(*self.arenas.allocator(), self.arenas.as_slice())?;
        let pages = Vec::from_slice(*self.pages.allocator(), self.pages.as_slice())?;
        Ok(Heads { arenas, pages })
    }

    /// The numbers of the lists, anew, where the places of each move have exchanged their lists, one move after
    /// the other. A place to which a cell goes may have an empty list, which goes to the place that is left.
    pub fn exchanged(&self, moves: &Moves) -> Result<Self, NoMemory>
        ensures { IfOk result (λ heads. (q : Place)
            → head_of heads q ≡ head_of self.now (exchanged moves.now q)) }
    {
        let mut heads = self.copied()?;
        for step in moves.as_slice() {
            heads.exchange(*step)?;
        }
        Ok(heads)
    }

    // The number of an arena's page, which it has from now on.
    fn page_for(&mut self, arena: u32) -> Result<u32, NoMemory>
        ensures page { IfOk result (λ page. page_of self.new arena ≡ Some page) }
        ensures same { OnOk result ((q : Place) → head_of self.new q ≡ head_of self.old q) }
        ensures err { OnErr result (self.new ≡ self.old) }
    {
        match self.page(arena) {
            Some(page) => Ok(page),
            None => self.add_page(arena),
        }
    }

    // An arena has a page from now on, with no lists.
    #[cold]
    #[inline(never)]
    fn add_page(&mut self, arena: u32) -> Result<u32, NoMemory>
        requires { page_of self.old arena ≡ None }
        ensures page { IfOk result (λ page. page_of self.new arena ≡ Some page) }
        ensures same { OnOk result ((q : Place) → head_of self.new q ≡ head_of self.old q) }
        ensures err { OnErr result (self.new ≡ self.old) }
    {
        if self.pages.len() >= u32::MAX as usize {
            return Err(AllocError);
        }
        self.pages.reserve(1)?;
        let arenas = self.arenas.len().max(arena as usize + 1);
        self.arenas.resize(arenas, 0)?;
        let page = self.pages.len() as u32;
        self.arenas[arena as usize] = page + 1;
        self.pages.push_reserved([0; 64]);
        Ok(page)
    }
}

// The number that is kept as one more.
#[inline(always)]
fn number_from(kept: u32) -> Option<u32>
    ensures { result ≡ number_kept kept }
{
    match kept {
        0 => None,
        next => Some(next - 1),
    }
}
