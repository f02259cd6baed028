// Numbers that a text begins with.
ghost use Rattle.std.specs.Prelude.{◌≡◌, ◌<◌, ◌≤◌, ◌+◌, ◌*◌, ◌^◌, ◌++◌, ◌∷◌, ℕ, List, IfSome, IfNone, MatchOption};
ghost use Rattle.std.specs.Prelude.{false, drop, length, nat_lt, slice_index, if◌then◌else◌};
ghost use Rattle.std.specs.Char.{is_ascii_digit};
ghost use Rattle.std.specs.Fmt.{decimal};
ghost use Rattle.trace_lang.specs.Words.{IsBreak, number_word};
ghost use Rattle.trace_lang.specs.Numbers.{front_digits, after_digits, read_on};

use crate::fronts::is_spaced;

// The number that a number goes on to by the first digits, if it is below the limit, and what follows
// them.
#[inline(never)]
fn digits(first: u64, text: &[u8], limit: u64) -> Option<(u64, &[u8])>
    requires below { first < limit }
    requires most { limit ≤ 2 ^ 32 }
    ensures some { IfSome result (λ p. (p.0 < limit) × (p.0 ≡ read_on first (front_digits text.now))
        × (p.1.now ≡ after_digits text.now)) }
    ensures none { IfNone result (limit ≤ read_on first (front_digits text.now)) }
{
    let mut n = first;
    let mut count = 0usize;
    for digit in text {
        if !digit.is_ascii_digit() {
            break;
        }
        n = 10 * n + u64::from(*digit - b'0');
        if n >= limit {
            return None;
        }
        count += 1;
    }
    Some((n, &text[count..]))
}

// The digit that a byte is.
#[inline(always)]
fn digit(byte: u8) -> Option<u64>
    ensures some { IfSome result (λ d. (d < 10) × (byte ≡ 48 + d)) }
    ensures none { IfNone result (is_ascii_digit byte ≡ false) }
{
    if byte.is_ascii_digit() {
        Some(u64::from(byte - b'0'))
    } else {
        None
    }
}

// The digit that a text begins with, or a number above 9 where it begins with none.
fn digit_or_more(text: &[u8]) -> u8
    ensures digit { result < 10 → text.now ≡ (48 + result) ∷ drop 1 text.now }
    ensures more { 10 ≤ result → 0 < length text.now → is_ascii_digit (slice_index text.now 0) ≡ false }
{
    match text {
        [first, ..] => first.wrapping_sub(b'0'),
        _ => u8::MAX,
    }
}

// How many digits a number that may be one stands for: 1 below 10, and else 0. Arithmetic tells it, of which
// the compiler makes no branch, since no processor foresees whether a number has one digit or two.
#[inline(always)]
fn count_digit(number: u8) -> usize
    ensures { result ≡ (if nat_lt number 10 then 1 else 0) }
{
    (u32::from(number).wrapping_sub(10) >> 31) as usize
}

// A digit, or two where the second is one.
#[inline(always)]
fn join_digits(first: u64, second: u8) -> u64
    requires { first < 10 }
    ensures { result ≡ (if nat_lt second 10 then 10 * first + second else first) }
{
    first + count_digit(second) as u64 * (9 * first + u64::from(second))
}

// The number of at most two digits below a limit that begins with a digit, and what follows it. A third
// digit begins no word, so the rest of the line is refused.
#[inline(always)]
fn short_number(first: u64, rest: &[u8], limit: u64) -> Option<(u64, &[u8])>
    requires digit { first < 10 }
    requires most { limit ≤ 100 }
    ensures some { IfSome result
        (λ p. (p.0 < limit) × ((48 + first) ∷ rest.now ≡ decimal p.0 ++ p.1.now)) }
    ensures exact { (n : ℕ) (others : List ℕ) → n < limit → IsBreak others
        → (48 + first) ∷ rest.now ≡ decimal n ++ others
        → MatchOption result ⊥ (λ p. (p.0 ≡ n) × (p.1.now ≡ others)) }
{
    let second = digit_or_more(rest);
    let more = count_digit(second);
    let n = join_digits(first, second);
    let is_padded = (more != 0) & (first == 0);
    if n >= limit || is_padded {
        return None;
    }
    Some((n, &rest[more..]))
}

// The number of one digit below a limit, and what follows it. Of two digits the second begins no word,
// so the rest of the line is refused.
fn single_digit(first: u64, rest: &[u8], limit: u64) -> Option<(u64, &[u8])>
    requires digit { first < 10 }
    requires most { limit ≤ 10 }
    ensures some { IfSome result
        (λ p. (p.0 < limit) × ((48 + first) ∷ rest.now ≡ decimal p.0 ++ p.1.now)) }
    ensures exact { (n : ℕ) (others : List ℕ) → n < limit → IsBreak others
        → (48 + first) ∷ rest.now ≡ decimal n ++ others
        → MatchOption result ⊥ (λ p. (p.0 ≡ n) × (p.1.now ≡ others)) }
{
    if first < limit {
        Some((first, rest))
    } else {
        None
    }
}

// The number below a limit that begins with a digit, and what follows it. A number is `0`, or
// digits of which the first is not `0`.
#[inline(always)]
fn number(first: u64, rest: &[u8], limit: u64) -> Option<(u64, &[u8])>
    requires digit { first < 10 }
    requires least { 10 ≤ limit }
    requires most { limit ≤ 2 ^ 32 }
    ensures some { IfSome result
        (λ p. (p.0 < limit) × ((48 + first) ∷ rest.now ≡ decimal p.0 ++ p.1.now)) }
    ensures exact { (n : ℕ) (others : List ℕ) → n < limit → IsBreak others
        → (48 + first) ∷ rest.now ≡ decimal n ++ others
        → MatchOption result ⊥ (λ p. (p.0 ≡ n) × (p.1.now ≡ others)) }
{
    if first == 0 {
        return Some((0, rest));
    }
    if digit_or_more(rest) > 9 {
        return Some((first, rest));
    }
    digits(first, rest, limit)
}

/// A digit below a limit behind a space, and what follows it.
#[inline(always)]
pub fn spaced_digit(text: &[u8], limit: u64) -> Option<(u64, &[u8])>
    requires most { limit ≤ 10 }
    ensures some { IfSome result (λ p. (p.0 < limit) × (text.now ≡ number_word p.0 ++ p.1.now)) }
    ensures exact { (n : ℕ) (rest : List ℕ) → n < limit → IsBreak rest
        → text.now ≡ number_word n ++ rest
        → MatchOption result ⊥ (λ p. (p.0 ≡ n) × (p.1.now ≡ rest)) }
{
    match text {
        [b' ', first, rest @ ..] => single_digit(digit(*first)?, rest, limit),
        _ => None,
    }
}

/// A number below a limit behind a space, and what follows it.
#[inline(always)]
pub fn spaced_number(text: &[u8], limit: u64) -> Option<(u64, &[u8])>
    requires least { 10 ≤ limit }
    requires most { limit ≤ 2 ^ 32 }
    ensures some { IfSome result (λ p. (p.0 < limit) × (text.now ≡ number_word p.0 ++ p.1.now)) }
    ensures exact { (n : ℕ) (rest : List ℕ) → n < limit → IsBreak rest
        → text.now ≡ number_word n ++ rest
        → MatchOption result ⊥ (λ p. (p.0 ≡ n) × (p.1.now ≡ rest)) }
{
    match text {
        [b' ', first, rest @ ..] => number(digit(*first)?, rest, limit),
        _ => None,
    }
}

/// A letter behind a space and a number below a limit, and what follows them.
#[inline(always)]
pub fn lettered_number(text: &[u8], letter: u8, limit: u64) -> Option<(u64, &[u8])>
    requires most { limit ≤ 100 }
    ensures some { IfSome result
        (λ p. (p.0 < limit) × (text.now ≡ 32 ∷ letter ∷ decimal p.0 ++ p.1.now)) }
    ensures exact { (n : ℕ) (rest : List ℕ) → n < limit → IsBreak rest
        → text.now ≡ 32 ∷ letter ∷ decimal n ++ rest
        → MatchOption result ⊥ (λ p. (p.0 ≡ n) × (p.1.now ≡ rest)) }
{
    match text {
        [space, second, first, rest @ ..] if is_spaced(*space, *second, letter) => {
            short_number(digit(*first)?, rest, limit)
        }
        _ => None,
    }
}
