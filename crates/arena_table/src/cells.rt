// Cells as they are kept.
ghost use Rattle.std.specs.Prelude.{◌≡◌, ◌≤◌, ◌<◌, ◌+◌, ◌*◌, ◌-◌, ◌^◌, ℕ, All, None, replicate, slice_set, length};
ghost use Rattle.std.specs.Option.{ForSome, option_map};
ghost use Rattle.gz_names.specs.Moves.{moved};
ghost use Rattle.gz_names.specs.Order.{number_of};
ghost use Rattle.arena_table.specs.Kinds.{AreNullFrom, field_count};

use gz_names::{CompNo, Kind, Moves, Name, Place};

/// More arenas than can be made: a link to the last slot of the last arena still fits its four
/// bytes.
pub(crate) const ARENA_LIMIT: u32 = 67_108_863;

/// What a field holds, in four bytes: 0 for null, and for a cell one more than its position among
/// the slots of all arenas.
#[derive(Clone, Copy)]
pub(crate) struct Link {
    pub position: u32,
}

/// A cell as it is kept, in 40 bytes. Links past the fields that its kind has are null. What marking
/// reads stands first. Its name is not kept: the kind, the compartment and the number tell it.
#[derive(Clone, Copy)]
pub(crate) struct Cell {
    pub kind: Kind,
    pub comp: CompNo,
    /// Written to fetch the cell, and never read.
    pub fetched: bool,
    pub fields: [Link; 8],
    /// The number that the name tells.
    pub number: u32,
    ghost few: { field_count kind ≤ 8 },
    ghost null_past: { AreNullFrom (field_count kind) fields },
}

/// What stands in a slot that holds no cell.
pub(crate) const NO_CELL: Cell = Cell {
    kind: Kind::Map,
    comp: CompNo(0),
    fetched: false,
    fields: [Link { position: 0 }; 8],
    number: 0,
};

/// The position of a place among the slots of all arenas.
#[inline(always)]
pub(crate) fn position(place: Place) -> u32
    requires { place.0 < ARENA_LIMIT }
    ensures value { result ≡ 64 * place.0 + place.1 }
    ensures slot { place.1 < 64 }
{
    64 * place.arena() + u32::from(place.slot())
}

impl Link {
    ghost use Rattle.arena_table.specs.Cells.{place_at};

    /// The link to a cell, or null.
    pub fn to(value: Option<Place>) -> Self
        requires { ForSome value (λ place. place.0 < ARENA_LIMIT) }
        ensures { place_at result.position ≡ value }
    {
        match value {
            Some(place) => Link {
                position: position(place) + 1,
            },
            None => Link { position: 0 },
        }
    }

    /// The cell that a link leads to.
    pub fn place(self) -> Option<Place>
        ensures { result ≡ place_at self.position }
    {
        if self.position == 0 {
            return None;
        }
        let at = self.position - 1;
        Place::new(at / 64, (at % 64) as u8)
    }
}

/// How many fields a cell of a kind has.
pub(crate) fn fields_of(kind: Kind) -> u8
    ensures { result ≡ field_count kind }
{
    match kind {
        Kind::Object(count) => count,
        Kind::Map => 0,
        Kind::Wrapper => 1,
    }
}

// The number that a name tells.
fn number_in(name: Name) -> u32
    requires { number_of name < 4294967296 }
    ensures { result ≡ number_of name }
{
    match name {
        Name::Cell(number) => number as u32,
        Name::Wrap(_, number) => number as u32,
    }
}

impl Cell {
    ghost use Rattle.arena_table.specs.Cells.{CellState, field_of, name_of, state_of, with_value};
    ghost use Rattle.arena_table.specs.Moving.{forwarded};

    /// A cell whose fields are null.
    pub fn new(kind: Kind, comp: CompNo, name: Name) -> Self
        requires fields { field_count kind ≤ 8 }
        requires name { name ≡ name_of kind comp (number_of name) }
        requires number { number_of name < 4294967296 }
        ensures { state_of result ≡ record {
          kind = kind;
          comp = comp;
          name = name;
          fields = replicate (field_count kind) None;
        } }
    {
        Cell {
            kind,
            comp,
            fetched: false,
            fields: [Link { position: 0 }; 8],
            number: number_in(name),
        }
    }

    /// What the cell is called.
    pub fn name(&self) -> Name
        ensures value { result ≡ (state_of self.now).name }
        ensures few { number_of result < 4294967296 }
    {
        let number = u64::from(self.number);
        match self.kind {
            Kind::Object(_) => Name::Cell(number),
            Kind::Map => Name::Cell(number),
            Kind::Wrapper => Name::Wrap(self.comp, number),
        }
    }

    /// What a field holds.
    pub fn field(&self, f: u8) -> Option<Place>
        ensures { result ≡ field_of (state_of self.now) f }
    {
        self.fields.get(f as usize)?.place()
    }

    /// How many fields the cell has.
    pub fn field_count(&self) -> u8
        ensures count { result ≡ length (state_of self.now).fields }
        ensures most { result ≤ 8 }
    {
        // With the bound in sight the compiler drops the test of each index.
        fields_of(self.kind).min(8)
    }

    /// A field takes a value.
    pub fn set_field(&mut self, f: u8, value: Option<Place>)
        requires field { f < length (state_of self.old).fields }
        requires value { ForSome value (λ place. place.0 < ARENA_LIMIT) }
        ensures { state_of self.new ≡ record (state_of self.old) {
          fields = slice_set (state_of self.old).fields f value;
        } }
    {
        self.fields[f as usize] = Link::to(value);
    }

    /// The fields lead to where their cells have gone.
    pub fn forward(&mut self, moves: &Moves)
        requires { All (λ m. m.to.0 < ARENA_LIMIT) moves.now }
        ensures { state_of self.new ≡ forwarded moves.now (state_of self.old) }
    {
        for f in 0..self.field_count() {
            self.forward_field(f, moves);
        }
    }

    // A field leads to where its cell has gone.
    fn forward_field(&mut self, f: u8, moves: &Moves)
        requires field { f < length (state_of self.old).fields }
        requires goals { All (λ m. m.to.0 < ARENA_LIMIT) moves.now }
        ensures { state_of self.new ≡ with_value f (option_map (moved moves.now)
            (field_of (state_of self.old) f)) (state_of self.old) }
    {
        let Some(place) = self.field(f) else {
            return;
        };
        let gone = moves.moved_to(place);
        if gone != place {
            self.set_field(f, Some(gone));
        }
    }
}
