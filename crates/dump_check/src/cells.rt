// The cells of a dump, ascending.
ghost use Rattle.std.specs.Prelude.{◌≡◌, ◌++◌, ◌∷◌, [], IfSome, IsTrue, Some, length, OnErr, OnOk};
ghost use Rattle.gz_names.specs.DumpTexts.{FitsName};
ghost use Rattle.gz_names.specs.Dumps.{colour_among, is_after};
ghost use Rattle.dump_check.specs.Seen.{entry_of};

use gz_names::{CompNo, DumpColour, Name, NoMemory, name_order};
use std::alloc::Global;
use std::marker::Model;

/// A cell as it is kept, in 8 bytes: the number is its own, or its target's where it is the wrapper
/// of a compartment.
#[derive(Clone, Copy)]
pub struct SeenCell {
    pub number: u32,
    pub comp: Option<CompNo>,
    pub colour: DumpColour,
}

impl SeenCell {
    ghost use Rattle.dump_check.specs.Seen.{name_of};

    #[inline(always)]
    fn name(&self) -> Name
        ensures { result ≡ name_of self.now }
    {
        match self.comp {
            None => Name::Cell(u64::from(self.number)),
            Some(comp) => Name::Wrap(comp, u64::from(self.number)),
        }
    }
}

// What is kept of a cell.
fn seen_as(name: Name, colour: DumpColour) -> SeenCell
    requires { FitsName name }
    ensures { entry_of result ≡ (name, colour) }
{
    let (comp, number) = match name {
        Name::Cell(number) => (None, number as u32),
        Name::Wrap(comp, target) => (Some(comp), target as u32),
    };
    SeenCell {
        number,
        comp,
        colour,
    }
}

/// The cells of a dump and their colours, in ascending order of their names.
#[derive(Drop)]
pub struct Cells {
    seen: Vec<SeenCell>,
}

impl Model for Cells {
    ghost use Rattle.std.specs.Prelude.{List, map};
    ghost use Rattle.gz_names.specs.declared.names.Name.{Name as AName};
    ghost use Rattle.gz_names.specs.declared.dumps.DumpColour.{DumpColour as AColour};
    ghost use Rattle.dump_check.specs.Seen.{AreAscending, entry_of};

    ghost Value = { List (AName × AColour) };

    ghost view = { λ c. map entry_of c.seen.items };

    ghost invariant = { λ c. AreAscending (map entry_of c.seen.items) };
}

impl Cells {
    ghost use Rattle.gz_names.specs.Order.{name_cmp};
    ghost use Rattle.dump_check.specs.Seen.{name_of};

    /// No cells. It takes no memory.
    pub fn new(alloc: Global) -> Self
        ensures { result ≡ [] }
    {
        Cells {
            seen: Vec::new(alloc),
        }
    }

    pub fn len(&self) -> usize
        ensures { result ≡ length self.now }
    {
        self.seen.len()
    }

    /// Whether a name is greater than that of the last cell.
    pub fn is_after(&self, name: Name) -> bool
        ensures { result ≡ is_after self.now name }
    {
        match self.seen.last() {
            None => true,
            Some(cell) => name_order(cell.name(), name).is_lt(),
        }
    }

    /// Puts a cell behind the others.
    pub fn push(&mut self, name: Name, colour: DumpColour) -> Result<(), NoMemory>
        requires after { IsTrue (is_after self.old name) }
        requires fits { FitsName name }
        ensures ok { OnOk result (self.new ≡ self.old ++ (name, colour) ∷ []) }
        ensures err { OnErr result (self.new ≡ self.old) }
    {
        self.seen.push(seen_as(name, colour))?;
        Ok(())
    }

    // The colour of the cell that stands at the number of an object or a map, if that is its own, as it
    // is where no number is left out.
    #[inline(always)]
    fn colour_at_number(&self, name: Name) -> Option<DumpColour>
        ensures { IfSome result (λ colour. colour_among self.now name ≡ Some colour) }
    {
        let Name::Cell(number) = name else {
            return None;
        };
        let cell = self.seen.get(number as usize)?;
        if name_order(cell.name(), name).is_eq() {
            Some(cell.colour)
        } else {
            None
        }
    }

    /// The colour of a name, if it is that of a cell.
    pub fn colour(&self, name: Name) -> Option<DumpColour>
        ensures { result ≡ colour_among self.now name }
    {
        if let Some(colour) = self.colour_at_number(name) {
            return Some(colour);
        }
        let found = self.seen.binary_search_by(
            |cell|
                ensures { result ≡ name_cmp (name_of cell.now) name }
            { name_order(cell.name(), name) },
        );
        match found {
            Ok(at) => Some(self.seen[at].colour),
            Err(_) => None,
        }
    }
}
