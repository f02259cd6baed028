// Numbers and names that a text begins with.
ghost use Rattle.std.specs.Prelude.{
  ◌≡◌,
  ◌<◌,
  ◌≤◌,
  ◌+◌,
  ◌^◌,
  ◌++◌,
  ◌∷◌,
  ℕ,
  List,
  IfSome,
  IfNone,
  MatchOption,
  Some,
  false,
  length,
  slice_index,
};
ghost use Rattle.std.specs.Char.{is_ascii_digit};
ghost use Rattle.std.specs.Fmt.{decimal};
ghost use Rattle.gz_names.specs.declared.names.Name.{Name as AName};
ghost use Rattle.gz_names.specs.DumpTexts.{FitsName, name_text};
ghost use Rattle.dump_check.specs.Digits.{after_digits, front_digits, IsStop, IsWordEnd, read_on};

use gz_names::{CompNo, Name};

// The number that the first digits are, if it is below 2^32, and what follows them. It is 0
// where there are none.
fn digits(text: &[u8]) -> Option<(u64, &[u8])>
    ensures some { IfSome result (λ p. (p.0 < 2 ^ 32)
        × (p.0 ≡ read_on 0 (front_digits text.now)) × (p.1.now ≡ after_digits text.now)) }
    ensures none { IfNone result (2 ^ 32 ≤ read_on 0 (front_digits text.now)) }
{
    let mut n = 0u64;
    let mut count = 0usize;
    for digit in text {
        if !digit.is_ascii_digit() {
            break;
        }
        n = 10 * n + u64::from(*digit - b'0');
        if n >= 1 << 32 {
            return None;
        }
        count += 1;
    }
    Some((n, &text[count..]))
}

// The digit that a text begins with, and what follows it.
fn first_digit(text: &[u8]) -> Option<(u64, &[u8])>
    ensures some { IfSome result (λ p. (p.0 < 10) × (text.now ≡ (48 + p.0) ∷ p.1.now)) }
    ensures none { IfNone result
        (0 < length text.now → is_ascii_digit (slice_index text.now 0) ≡ false) }
{
    match text {
        [first, rest @ ..] if first.is_ascii_digit() => Some((u64::from(*first - b'0'), rest)),
        _ => None,
    }
}

// The number that a text begins with, if it is below 2^32, and what follows it. A number is `0`, or
// digits of which the first is not `0`.
fn number(text: &[u8]) -> Option<(u64, &[u8])>
    ensures some { IfSome result (λ p. (p.0 < 2 ^ 32) × (text.now ≡ decimal p.0 ++ p.1.now)) }
    ensures exact { (n : ℕ) (rest : List ℕ) → n < 2 ^ 32 → IsStop rest
        → text.now ≡ decimal n ++ rest → MatchOption result ⊥ (λ p. (p.0 ≡ n) × (p.1.now ≡ rest)) }
{
    let (first, rest) = first_digit(text)?;
    if first == 0 {
        Some((0, rest))
    } else {
        digits(text)
    }
}

// What follows a colon.
fn after_colon(text: &[u8]) -> Option<&[u8]>
    ensures some { IfSome result (λ rest. text.now ≡ 58 ∷ rest.now) }
    ensures exact { (rest : List ℕ) → text.now ≡ 58 ∷ rest
        → MatchOption result ⊥ (λ r. r.now ≡ rest) }
{
    match text {
        [b':', rest @ ..] => Some(rest),
        _ => None,
    }
}

// The name that a text begins with, and what follows it.
fn name(text: &[u8]) -> Option<(Name, &[u8])>
    ensures some { IfSome result (λ p. FitsName p.0 × (text.now ≡ name_text p.0 ++ p.1.now)) }
    ensures exact { (x : AName) (rest : List ℕ) → FitsName x → IsWordEnd rest
        → text.now ≡ name_text x ++ rest → MatchOption result ⊥ (λ p. (p.0 ≡ x) × (p.1.now ≡ rest)) }
{
    let (first, rest) = number(text)?;
    let Some(others) = after_colon(rest) else {
        return Some((Name::Cell(first), rest));
    };
    if first > 255 {
        return None;
    }
    let (target, rest) = number(others)?;
    Some((Name::Wrap(CompNo(first as u8), target), rest))
}

// What follows a space.
fn after_space(text: &[u8]) -> Option<&[u8]>
    ensures some { IfSome result (λ rest. text.now ≡ 32 ∷ rest.now) }
    ensures exact { (rest : List ℕ) → text.now ≡ 32 ∷ rest
        → MatchOption result ⊥ (λ r. r.now ≡ rest) }
{
    match text {
        [b' ', rest @ ..] => Some(rest),
        _ => None,
    }
}

/// The number before the first space of a text, and what follows that space.
pub fn spaced_number(text: &[u8]) -> Option<(u64, &[u8])>
    ensures some { IfSome result (λ p. (p.0 < 2 ^ 32) × (text.now ≡ decimal p.0 ++ 32 ∷ p.1.now)) }
    ensures exact { (n : ℕ) (rest : List ℕ) → n < 2 ^ 32 → text.now ≡ decimal n ++ 32 ∷ rest
        → MatchOption result ⊥ (λ p. (p.0 ≡ n) × (p.1.now ≡ rest)) }
{
    let (n, rest) = number(text)?;
    Some((n, after_space(rest)?))
}

/// The name before the first space of a text, and what follows that space.
pub fn spaced_name(text: &[u8]) -> Option<(Name, &[u8])>
    ensures some { IfSome result (λ p. FitsName p.0 × (text.now ≡ name_text p.0 ++ 32 ∷ p.1.now)) }
    ensures exact { (x : AName) (rest : List ℕ) → FitsName x → text.now ≡ name_text x ++ 32 ∷ rest
        → MatchOption result ⊥ (λ p. (p.0 ≡ x) × (p.1.now ≡ rest)) }
{
    let (x, rest) = name(text)?;
    Some((x, after_space(rest)?))
}

/// The name that a text is.
pub fn only_name(text: &[u8]) -> Option<Name>
    ensures some { IfSome result (λ x. FitsName x × (text.now ≡ name_text x)) }
    ensures exact { (x : AName) → FitsName x → text.now ≡ name_text x → result ≡ Some x }
{
    let (x, rest) = name(text)?;
    if rest.is_empty() { Some(x) } else { None }
}
