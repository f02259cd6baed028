// The words that follow the first one, by what they stand for.
ghost use Rattle.std.specs.Prelude.{◌≡◌, ◌<◌, ◌≤◌, ◌++◌, ◌∷◌, ◌^◌, ℕ, List, [], Some, refl, IfSome, MatchOption};
ghost use Rattle.std.specs.Fmt.{decimal};
ghost use Rattle.trace_lang.specs.Words.{IsBreak, number_word, reg_word, gray_word, target_word, target_spaced};
ghost use Rattle.trace_lang.specs.Words.{FitsTarget, weak_word};

use crate::numbers::{lettered_number, spaced_digit, spaced_number};
use gz_names::{CompNo, GrayNo, Reg, WeakNo, ZoneNo};

/// What a word of a line stands for.
pub trait Argument: Copy {
    // the word for a value, behind its space
    ghost word: { Self → List ℕ };
    // whether there is a word for it
    ghost fits: { Self → Type 0 };

    /// The value whose word comes first, and what follows it.
    fn read(text: &[u8]) -> Option<(Self, &[u8])>
        ensures some { IfSome result (λ p. fits p.0 × (text.now ≡ word p.0 ++ p.1.now)) }
        ensures exact { (x : Self) (rest : List ℕ) → fits x → IsBreak rest
            → text.now ≡ word x ++ rest
            → MatchOption result ⊥ (λ p. (p.0 ≡ x) × (p.1.now ≡ rest)) };

    // each word stands behind a space
    ghost spaced: { (x : Self) → (tail : List ℕ) × (word x ≡ 32 ∷ tail) };
}

impl Argument for Reg {
    ghost word = { reg_word };

    ghost fits = { λ r. r < 16 };

    ghost spaced = { λ r. (_, refl) };

    #[inline(always)]
    fn read(text: &[u8]) -> Option<(Self, &[u8])> {
        let (n, rest) = lettered_number(text, b'r', 16)?;
        Some((Reg::new(n as u8)?, rest))
    }
}

impl Argument for GrayNo {
    ghost word = { gray_word };

    ghost fits = { λ g. g < 64 };

    ghost spaced = { λ g. (_, refl) };

    #[inline(always)]
    fn read(text: &[u8]) -> Option<(Self, &[u8])> {
        let (n, rest) = lettered_number(text, b'g', 64)?;
        Some((GrayNo::new(n as u8)?, rest))
    }
}

impl Argument for WeakNo {
    ghost word = { weak_word };

    ghost fits = { λ q. q < 64 };

    ghost spaced = { λ q. (_, refl) };

    #[inline(always)]
    fn read(text: &[u8]) -> Option<(Self, &[u8])> {
        let (n, rest) = lettered_number(text, b'q', 64)?;
        Some((WeakNo::new(n as u8)?, rest))
    }
}

impl Argument for ZoneNo {
    ghost word = { number_word };

    ghost fits = { λ z. z < 64 };

    ghost spaced = { λ z. (_, refl) };

    #[inline(always)]
    fn read(text: &[u8]) -> Option<(Self, &[u8])> {
        let (n, rest) = spaced_number(text, 64)?;
        Some((ZoneNo::new(n as u8)?, rest))
    }
}

impl Argument for CompNo {
    ghost word = { λ d. number_word d.0 };

    ghost fits = { λ d. d.0 < 256 };

    ghost spaced = { λ d. (_, refl) };

    #[inline(always)]
    fn read(text: &[u8]) -> Option<(Self, &[u8])> {
        let (n, rest) = spaced_number(text, 256)?;
        Some((CompNo(n as u8), rest))
    }
}

/// How many fields an object has, at most 8.
#[derive(Clone, Copy)]
pub struct FieldCount(pub u8);

impl Argument for FieldCount {
    ghost word = { λ n. number_word n.0 };

    ghost fits = { λ n. n.0 < 9 };

    ghost spaced = { λ n. (_, refl) };

    #[inline(always)]
    fn read(text: &[u8]) -> Option<(Self, &[u8])> {
        let (n, rest) = spaced_digit(text, 9)?;
        Some((FieldCount(n as u8), rest))
    }
}

/// A field of an object, below 8.
#[derive(Clone, Copy)]
pub struct Field(pub u8);

impl Argument for Field {
    ghost word = { λ f. number_word f.0 };

    ghost fits = { λ f. f.0 < 8 };

    ghost spaced = { λ f. (_, refl) };

    #[inline(always)]
    fn read(text: &[u8]) -> Option<(Self, &[u8])> {
        let (n, rest) = spaced_digit(text, 8)?;
        Some((Field(n as u8), rest))
    }
}

// The units of a slice.
impl Argument for u32 {
    ghost word = { number_word };

    ghost fits = { λ n. n < 2 ^ 32 };

    ghost spaced = { λ n. (_, refl) };

    #[inline(always)]
    fn read(text: &[u8]) -> Option<(Self, &[u8])> {
        let (n, rest) = spaced_number(text, 1 << 32)?;
        Some((n as u32, rest))
    }
}

/// What a field is set to: what a register holds, or null.
#[derive(Clone, Copy)]
pub struct Target(pub Option<Reg>);

impl Argument for Target {
    ghost word = { λ t. target_word t.0 };

    ghost fits = { λ t. FitsTarget t.0 };

    ghost spaced = { λ t. target_spaced t.0 };

    #[inline(always)]
    fn read(text: &[u8]) -> Option<(Self, &[u8])> {
        match text {
            [b' ', b'-', rest @ ..] => Some((Target(None), rest)),
            _ => {
                let Some((reg, rest)) = Reg::read(text) else {
                    return None;
                };
                Some((Target(Some(reg)), rest))
            }
        }
    }
}

/// The value that a text is the word of.
#[inline(always)]
pub fn one<A: Argument>(text: &[u8]) -> Option<A>
    ensures some { IfSome result (λ x. A.fits x × (text.now ≡ A.word x)) }
    ensures exact { (x : A) → A.fits x → text.now ≡ A.word x → result ≡ Some x }
{
    let (x, rest) = A::read(text)?;
    if rest.is_empty() { Some(x) } else { None }
}

/// The two values that a text is the words of.
#[inline(always)]
pub fn two<A: Argument, B: Argument>(text: &[u8]) -> Option<(A, B)>
    ensures some { IfSome result
        (λ p. A.fits p.0 × B.fits p.1 × (text.now ≡ A.word p.0 ++ B.word p.1)) }
    ensures exact { (x : A) (y : B) → A.fits x → B.fits y → text.now ≡ A.word x ++ B.word y
        → result ≡ Some (x, y) }
{
    let (x, rest) = A::read(text)?;
    Some((x, one(rest)?))
}

/// The three values that a text is the words of.
#[inline(always)]
pub fn three<A: Argument, B: Argument, C: Argument>(text: &[u8]) -> Option<(A, B, C)>
    ensures some { IfSome result (λ p. A.fits p.0 × B.fits p.1 × C.fits p.2
        × (text.now ≡ A.word p.0 ++ B.word p.1 ++ C.word p.2)) }
    ensures exact { (x : A) (y : B) (z : C) → A.fits x → B.fits y → C.fits z
        → text.now ≡ A.word x ++ B.word y ++ C.word z → result ≡ Some (x, y, z) }
{
    let (x, rest) = A::read(text)?;
    let (y, z) = two(rest)?;
    Some((x, y, z))
}
