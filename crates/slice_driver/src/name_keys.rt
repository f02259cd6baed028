// Names as numbers, which are sorted faster than names are.
ghost use Rattle.std.specs.Prelude.{◌≡◌, ◌<◌, ◌+◌, ◌*◌, ◌++◌, ◌∷◌, [], IfOk, OnOk};
ghost use Rattle.std.specs.List.{All};
ghost use Rattle.std.specs.List.Sorted.{IsPermutation, IsSorted};
ghost use Rattle.gz_names.specs.Order.{name_cmp, number_of};
ghost use Rattle.slice_driver.specs.NameKeys.{IsWrapperKey, names_at, wrapper_at};

use gz_names::{CompNo, Name, NoMemory};
use std::alloc::Global;
use std::marker::Model;

// More than the number of any cell.
const NUMBERS: u64 = 4_294_967_296;

// Names in some order, those of cells and those of wrappers apart. A cell's name is its number here, and a wrapper's
// is one number as well, in which the compartment stands above the target.
#[derive(Drop)]
pub(crate) struct NameKeys {
    cells: Vec<u64>,
    wrappers: Vec<u64>,
}

impl Model for NameKeys {
    ghost use Rattle.std.specs.Prelude.{List};
    ghost use Rattle.std.specs.List.{All};
    ghost use Rattle.gz_names.specs.declared.names.Name.{Name as AName};
    ghost use Rattle.slice_driver.specs.NameKeys.{IsWrapperKey, names_at};

    ghost Value = { List AName };

    ghost view = { λ k. names_at k.cells.items k.wrappers.items };

    ghost invariant = { λ k. All IsWrapperKey k.wrappers.items };
}

impl NameKeys {
    // No names.
    pub fn new(alloc: Global) -> Self
        ensures { result ≡ [] }
    {
        NameKeys {
            cells: Vec::new(alloc),
            wrappers: Vec::new(alloc),
        }
    }

    // Takes memory for this number of names more of each kind.
    pub fn reserve(&mut self, count: usize) -> Result<(), NoMemory>
        ensures { self.new ≡ self.old }
    {
        self.cells.reserve(count)?;
        self.wrappers.reserve(count)?;
        Ok(())
    }

    // Adds a name.
    #[inline(always)]
    pub fn push(&mut self, name: Name) -> Result<(), NoMemory>
        requires { number_of name < 4294967296 }
        ensures { OnOk result (IsPermutation (self.old ++ name ∷ []) self.new) }
    {
        match name {
            Name::Cell(number) => self.cells.push(number)?,
            Name::Wrap(comp, target) => self.wrappers.push(wrapper_key(comp, target))?,
        }
        Ok(())
    }

    // The names, ascending.
    pub fn into_names(self, alloc: Global) -> Result<Vec<Name>, NoMemory>
        ensures permutation { IfOk result (λ names. IsPermutation self names.items) }
        ensures sorted { IfOk result (λ names. IsSorted name_cmp names.items) }
    {
        let NameKeys {
            mut cells,
            mut wrappers,
        } = self;
        cells.sort_unstable();
        wrappers.sort_unstable();
        names_of_keys(alloc, &cells, &wrappers)
    }
}

// The number that stands for a wrapper's name.
fn wrapper_key(comp: CompNo, target: u64) -> u64
    requires { target < 4294967296 }
    ensures { result ≡ 4294967296 * comp.0 + target }
{
    NUMBERS * u64::from(comp.0) + target
}

// The wrapper's name for which a number stands.
fn wrapper_named(key: u64) -> Name
    requires { IsWrapperKey key }
    ensures { result ≡ wrapper_at key }
{
    Name::Wrap(CompNo((key / NUMBERS) as u8), key % NUMBERS)
}

// The names of the cells with these numbers, and then those for which the others stand.
fn names_of_keys(alloc: Global, cells: &[u64], wrappers: &[u64]) -> Result<Vec<Name>, NoMemory>
    requires { All IsWrapperKey wrappers.now }
    ensures { IfOk result (λ names. names.items ≡ names_at cells.now wrappers.now) }
{
    let mut names = Vec::with_capacity(alloc, cells.len() + wrappers.len())?;
    for number in cells {
        names.push(Name::Cell(*number))?;
    }
    'wrappers: for key in wrappers {
        names.push(wrapper_named(*key))?;
    }
    Ok(names)
}
