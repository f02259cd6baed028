// Which bytes a text begins with. Several bytes are compared as one number.
ghost use Rattle.std.specs.Prelude.{◌≡◌, ◌↔◌, ◌++◌, IsTrue, codes};
ghost use Rattle.std.specs.Io.{StartsWith};

// Whether four bytes are these four.
fn are_same(bytes: [u8; 4], others: [u8; 4]) -> bool
    ensures { IsTrue result ↔ (bytes ≡ others) }
{
    u32::from_le_bytes(bytes) == u32::from_le_bytes(others)
}

// Whether two bytes are these two.
fn are_both(bytes: [u8; 2], others: [u8; 2]) -> bool
    ensures { IsTrue result ↔ (bytes ≡ others) }
{
    u16::from_le_bytes(bytes) == u16::from_le_bytes(others)
}

/// Whether a text begins with these four bytes.
pub fn begins_with(text: &[u8], front: [u8; 4]) -> bool
    ensures { IsTrue result ↔ StartsWith text.now front }
{
    match text {
        [a, b, c, d, ..] => are_same([*a, *b, *c, *d], front),
        _ => false,
    }
}

/// Whether a text begins with these four bytes and a space.
pub fn begins_spaced(text: &[u8], front: [u8; 4]) -> bool
    ensures { IsTrue result ↔ StartsWith text.now (front ++ codes " ") }
{
    match text {
        [a, b, c, d, b' ', ..] => are_same([*a, *b, *c, *d], front),
        _ => false,
    }
}

/// Whether two bytes are a space and this letter.
pub fn is_spaced(first: u8, second: u8, letter: u8) -> bool
    ensures { IsTrue result ↔ ((first ≡ 32) × (second ≡ letter)) }
{
    are_both([first, second], [b' ', letter])
}
