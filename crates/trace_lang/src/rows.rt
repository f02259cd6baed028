// Rows of the table of commands: those of the words that most lines begin with. The five most frequent ones come first.
// Three of these are inlined where the first bytes of a line are told apart; with all five that function would be too
// large to be inlined itself.
ghost use Rattle.std.specs.Prelude.{◌≡◌, ℕ, List, Some, IfSome};
ghost use Rattle.gz_names.specs.declared.commands.Cmd.{Cmd};
ghost use Rattle.trace_lang.specs.declared.words.Word.{Word};
ghost use Rattle.trace_lang.specs.declared.words.Word.TheVariants as word;
ghost use Rattle.trace_lang.specs.Grammar.{SpellsRest};

use crate::arguments::{Field, FieldCount, Target, one, three, two};
use gz_names::{Cmd, GraphCmd};

/// The row of a first word.
pub trait Row {
    // the word
    ghost first: { Word };

    /// The command for what follows the word in a line.
    fn read(rest: &[u8]) -> Option<Cmd>
        ensures some { IfSome result (SpellsRest first rest.now) }
        ensures exact { (c : Cmd) → SpellsRest first rest.now c → result ≡ Some c };
}

/// The row of `new`.
pub struct NewRow;

impl Row for NewRow {
    ghost first = { word.New };

    fn read(rest: &[u8]) -> Option<Cmd> {
        let (r, c, FieldCount(n)) = three(rest)?;
        Some(Cmd::Graph(GraphCmd::New(r, c, n)))
    }
}

/// The row of `get`.
pub struct GetRow;

impl Row for GetRow {
    ghost first = { word.Get };

    #[inline(always)]
    fn read(rest: &[u8]) -> Option<Cmd> {
        let (r, s, Field(f)) = three(rest)?;
        Some(Cmd::Graph(GraphCmd::Get(r, s, f)))
    }
}

/// The row of `set`.
pub struct SetRow;

impl Row for SetRow {
    ghost first = { word.Set };

    #[inline(always)]
    fn read(rest: &[u8]) -> Option<Cmd> {
        let (s, Field(f), Target(t)) = three(rest)?;
        Some(Cmd::Graph(GraphCmd::Set(s, f, t)))
    }
}

/// The row of `copy`.
pub struct CopyRow;

impl Row for CopyRow {
    ghost first = { word.Copy };

    #[inline(always)]
    fn read(rest: &[u8]) -> Option<Cmd> {
        let (r, s) = two(rest)?;
        Some(Cmd::Graph(GraphCmd::Copy(r, s)))
    }
}

/// The row of `drop`.
pub struct DropRow;

impl Row for DropRow {
    ghost first = { word.Drop };

    fn read(rest: &[u8]) -> Option<Cmd> {
        Some(Cmd::Graph(GraphCmd::Drop(one(rest)?)))
    }
}

/// The row of `map`.
pub struct MapRow;

impl Row for MapRow {
    ghost first = { word.Map };

    #[inline(always)]
    fn read(rest: &[u8]) -> Option<Cmd> {
        let (r, c) = two(rest)?;
        Some(Cmd::Graph(GraphCmd::Map(r, c)))
    }
}

/// The row of `put`.
pub struct PutRow;

impl Row for PutRow {
    ghost first = { word.Put };

    #[inline(always)]
    fn read(rest: &[u8]) -> Option<Cmd> {
        let (m, k, v) = three(rest)?;
        Some(Cmd::Graph(GraphCmd::Put(m, k, v)))
    }
}

/// The row of `wrap`.
pub struct WrapRow;

impl Row for WrapRow {
    ghost first = { word.Wrap };

    #[inline(always)]
    fn read(rest: &[u8]) -> Option<Cmd> {
        let (r, s, c) = three(rest)?;
        Some(Cmd::Graph(GraphCmd::Wrap(r, s, c)))
    }
}

/// The row of `hold`.
pub struct HoldRow;

impl Row for HoldRow {
    ghost first = { word.Hold };

    #[inline(always)]
    fn read(rest: &[u8]) -> Option<Cmd> {
        let (g, r) = two(rest)?;
        Some(Cmd::Graph(GraphCmd::Hold(g, r)))
    }
}

/// The row of `find`.
pub struct FindRow;

impl Row for FindRow {
    ghost first = { word.Find };

    #[inline(always)]
    fn read(rest: &[u8]) -> Option<Cmd> {
        let (r, m, k) = three(rest)?;
        Some(Cmd::Graph(GraphCmd::Find(r, m, k)))
    }
}

/// The row of `unwrap`.
pub struct UnwrapRow;

impl Row for UnwrapRow {
    ghost first = { word.Unwrap };

    #[inline(always)]
    fn read(rest: &[u8]) -> Option<Cmd> {
        let (r, s) = two(rest)?;
        Some(Cmd::Graph(GraphCmd::Unwrap(r, s)))
    }
}

/// The row of `expose`.
pub struct ExposeRow;

impl Row for ExposeRow {
    ghost first = { word.Expose };

    #[inline(always)]
    fn read(rest: &[u8]) -> Option<Cmd> {
        let (r, g) = two(rest)?;
        Some(Cmd::Graph(GraphCmd::Expose(r, g)))
    }
}

/// The row of `slice`.
pub struct SliceRow;

impl Row for SliceRow {
    ghost first = { word.Slice };

    #[inline(always)]
    fn read(rest: &[u8]) -> Option<Cmd> {
        Some(Cmd::Slice(one(rest)?))
    }
}
