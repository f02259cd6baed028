// Sets of compartments, a bit a compartment.
ghost use Rattle.std.specs.Prelude.{◌≡◌, ◌≢◌, ◌≤◌, ◌*◌, ◌<◌, ◌↔◌, ◌⊎◌, ℕ, IsTrue, IfSome, IfNone};
ghost use Rattle.gz_names.specs.Zones.{HasZone};
ghost use Rattle.gray_lists.specs.CompSets.{HasComp, IsEnd};

use gz_names::CompNo;

// Compartment c is in the set where bit c % 64 of word c / 64 is set.
#[derive(Clone, Copy)]
pub(crate) struct CompSet {
    pub(crate) words: [u64; 4],
    // Above each compartment of the set: a search goes no further.
    pub(crate) end: u16,
}

impl CompSet {
    // No compartment.
    pub(crate) fn new() -> Self
        ensures none { (c : ℕ) → HasComp result.words c → ⊥ }
        ensures end { IsEnd result.words result.end }
    {
        CompSet {
            words: [0; 4],
            end: 0,
        }
    }

    // Adds a compartment, if it is not there.
    pub(crate) fn insert(&mut self, comp: CompNo)
        requires { IsEnd self.old.words self.old.end }
        ensures added { (c : ℕ) → HasComp self.new.words c
            ↔ (HasComp self.old.words c ⊎ (c ≡ comp.0)) }
        ensures end { IsEnd self.new.words self.new.end }
    {
        let at = (comp.0 / 64) as usize;
        self.words[at] = with_bit(self.words[at], comp.0 % 64);
        self.end = self.end.max(u16::from(comp.0) + 1);
    }

    // Takes a compartment out, if it is there.
    pub(crate) fn remove(&mut self, comp: CompNo)
        requires { IsEnd self.old.words self.old.end }
        ensures removed { (c : ℕ) → HasComp self.new.words c
            ↔ (HasComp self.old.words c × (c ≢ comp.0)) }
        ensures end { IsEnd self.new.words self.new.end }
    {
        let at = (comp.0 / 64) as usize;
        self.words[at] = without_bit(self.words[at], comp.0 % 64);
        if self.is_empty() {
            self.end = 0;
        }
    }

    // Whether no compartment is in the set.
    fn is_empty(&self) -> bool
        ensures { IsTrue result → (c : ℕ) → HasComp self.now.words c → ⊥ }
    {
        self.words[0] | self.words[1] | self.words[2] | self.words[3] == 0
    }

    // The lowest compartment from a number on. It looks at four words at most.
    pub(crate) fn first_from(&self, from: u16) -> Option<CompNo>
        requires { IsEnd self.now.words self.now.end }
        ensures some { IfSome result (λ c. (from ≤ c.0) × HasComp self.now.words c.0) }
        ensures between { IfSome result
            (λ c. (n : ℕ) → from ≤ n → n < c.0 → HasComp self.now.words n → ⊥) }
        ensures none { IfNone result ((n : ℕ) → from ≤ n → HasComp self.now.words n → ⊥) }
    {
        if from >= self.end {
            return None;
        }
        let word = from / 64;
        if let Some(bit) = lowest_from(self.words[word as usize], (from % 64) as u8) {
            return Some(CompNo((64 * word) as u8 + bit));
        }
        self.first_of_words(word + 1)
    }

    // The lowest compartment of the words from one on.
    fn first_of_words(&self, from: u16) -> Option<CompNo>
        requires { from ≤ 4 }
        ensures some { IfSome result (λ c. (64 * from ≤ c.0) × HasComp self.now.words c.0) }
        ensures between { IfSome result
            (λ c. (n : ℕ) → 64 * from ≤ n → n < c.0 → HasComp self.now.words n → ⊥) }
        ensures none { IfNone result ((n : ℕ) → 64 * from ≤ n → HasComp self.now.words n → ⊥) }
    {
        for word in from..4 {
            if let Some(bit) = lowest_from(self.words[word as usize], 0) {
                return Some(CompNo((64 * word) as u8 + bit));
            }
        }
        None
    }
}

// A word with a bit set.
fn with_bit(word: u64, bit: u8) -> u64
    requires { bit < 64 }
    ensures { (b : ℕ) → HasZone result b ↔ (HasZone word b ⊎ (b ≡ bit)) }
{
    word | 1 << bit
}

// A word with a bit clear.
fn without_bit(word: u64, bit: u8) -> u64
    requires { bit < 64 }
    ensures { (b : ℕ) → HasZone result b ↔ (HasZone word b × (b ≢ bit)) }
{
    word & !(1 << bit)
}

// The lowest bit of a word that is set, from a number on.
fn lowest_from(word: u64, from: u8) -> Option<u8>
    requires { from < 64 }
    ensures some { IfSome result (λ bit. (from ≤ bit) × (bit < 64) × HasZone word bit) }
    ensures between { IfSome result (λ bit. (b : ℕ) → from ≤ b → b < bit → HasZone word b → ⊥) }
    ensures none { IfNone result ((b : ℕ) → from ≤ b → HasZone word b → ⊥) }
{
    let rest = bits_from(word, from);
    if rest == 0 {
        None
    } else {
        Some(rest.trailing_zeros() as u8)
    }
}

// The bits of a word from a number on.
fn bits_from(word: u64, from: u8) -> u64
    requires { from < 64 }
    ensures { (b : ℕ) → HasZone result b ↔ (HasZone word b × (from ≤ b)) }
{
    word & u64::MAX << from
}
