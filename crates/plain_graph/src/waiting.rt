// The maps and keys of entries, by a number.
ghost use Rattle.std.specs.Prelude.{◌≡◌, ◌∷◌, [], ℕ, Contains, IfOk, OnOk};
ghost use Rattle.gz_names.specs.declared.names.Name.{Name as AName};
ghost use Rattle.plain_graph.specs.Indexed.{IsListed};

use gz_names::{Name, NoMemory};
use std::alloc::Global;
use std::collections::BTreeMap;
use std::marker::Model;

/// A map and a key.
pub(crate) type Pair = (Name, Name);

/// Some pairs.
#[derive(Drop)]
pub(crate) struct Pairs {
    items: Vec<Pair>,
}

impl Model for Pairs {
    ghost use Rattle.std.specs.Prelude.{List};
    ghost use Rattle.gz_names.specs.declared.names.Name.{Name as AName};

    ghost Value = { List (AName × AName) };

    ghost view = { λ p. p.items.items };
}

impl Pairs {
    fn only(alloc: Global, pair: Pair) -> Result<Self, NoMemory>
        ensures { IfOk result (λ pairs. pairs ≡ pair ∷ []) }
    {
        let mut items = Vec::new(alloc);
        items.push(pair)?;
        Ok(Pairs { items })
    }

    fn push(&mut self, pair: Pair) -> Result<(), NoMemory>
        ensures kept { (p : AName × AName) → Contains self.old p → Contains self.new p }
        ensures ok { OnOk result (Contains self.new pair) }
    {
        self.items.push(pair)?;
        Ok(())
    }

    fn as_slice(&self) -> &[Pair]
        ensures { result.now ≡ self.now }
    {
        self.items.as_slice()
    }
}

/// Adds a pair at a number.
pub(crate) fn add_pair(
    alloc: Global,
    waiting: &mut BTreeMap<u64, Pairs>,
    number: u64,
    pair: Pair,
) -> Result<(), NoMemory>
    ensures kept { (n : ℕ) (p : AName × AName) → IsListed waiting.old n p → IsListed waiting.new n p }
    ensures ok { OnOk result (IsListed waiting.new number pair) }
{
    if let Some(pairs) = waiting.get_mut(&number) {
        return pairs.push(pair);
    }
    let pairs = Pairs::only(alloc, pair)?;
    waiting.insert(number, pairs)?;
    Ok(())
}

/// The pairs at a number.
pub(crate) fn pairs_at(waiting: &BTreeMap<u64, Pairs>, number: u64) -> &[Pair]
    ensures { (p : AName × AName) → IsListed waiting.now number p → Contains result.now p }
{
    match waiting.get(&number) {
        None => &[],
        Some(pairs) => pairs.as_slice(),
    }
}
