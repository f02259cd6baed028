// The first line in bytes.
//
// The bytes are looked at 16 at a time: a comparison of vectors marks those of them that no line may
// have, which are line feeds and bytes of 128 or more. The lowest mark is the end of the line.
ghost use Rattle.std.specs.Prelude.{◌≡◌, ◌<◌, ◌≤◌, length, map, take, slice_index};
ghost use Rattle.std.specs.List.{prefix_len};
ghost use Rattle.std.specs.Simd.Lanes.{mask_l};
ghost use Rattle.gz_io.specs.Lines.{IsPlain};
ghost use Rattle.gz_io.specs.Finding.{Finds, is_stop, is_plain, Stops};

use std::simd::prelude::*;

/// What bytes show of the next line.
#[derive(Clone, Copy, Debug, PartialEq, Eq)]
pub enum Found {
    /// A line of this length stands first, with its line feed.
    Line(usize),
    /// A 256th byte of the line stands there.
    TooLong,
    /// A byte of 128 or more stands there.
    NotAscii,
    /// There is no line feed yet, and nothing bad.
    More,
}

// The bytes that no line may have, as the bits of a mask.
fn marks(bytes: u8x16) -> u64
    ensures { result ≡ mask_l (map is_stop bytes) }
{
    (bytes.simd_eq(u8x16::splat(b'\n')) | bytes.simd_ge(u8x16::splat(128))).to_bitmask()
}

// How many of the first 16 bytes stand before the first of them that no line may have.
#[inline(always)]
fn plain_of_16(bytes: &[u8]) -> usize
    requires { 16 ≤ length bytes.now }
    ensures { result ≡ prefix_len is_plain (take 16 bytes.now) }
{
    let stops = marks(u8x16::from_slice(bytes));
    if stops == 0 {
        16
    } else {
        stops.trailing_zeros() as usize
    }
}

// How many bytes stand before the first that no line may have.
fn plain_end(bytes: &[u8]) -> usize
    ensures most { result ≤ length bytes.now }
    ensures plain { IsPlain (take result bytes.now) }
    ensures stop { result < length bytes.now → Stops (slice_index bytes.now result) }
{
    let mut end = 0usize;
    while bytes.len() - end >= 16 {
        let plain = plain_of_16(&bytes[end..]);
        end += plain;
        if plain < 16 {
            return end;
        }
    }
    while end < bytes.len() && bytes[end] < 128 && bytes[end] != b'\n' {
        end += 1;
    }
    end
}

// The first line of any bytes.
#[inline(never)]
fn find_any(bytes: &[u8]) -> Found
    ensures { Finds bytes.now result }
{
    let end = plain_end(&bytes[..bytes.len().min(255)]);
    match bytes.get(end) {
        Some(b'\n') => Found::Line(end),
        Some(_) if end == 255 => Found::TooLong,
        Some(_) => Found::NotAscii,
        None => Found::More,
    }
}

/// The first line of bytes, or why there is none. A 256th byte is too much whatever it is. A line that
/// ends within 16 bytes, as most do, is found in a few steps.
#[inline(always)]
pub fn find_line(bytes: &[u8]) -> Found
    ensures { Finds bytes.now result }
{
    if bytes.len() < 16 {
        return find_any(bytes);
    }
    let end = plain_of_16(bytes);
    if end == 16 {
        return find_any(bytes);
    }
    if bytes[end] == b'\n' {
        Found::Line(end)
    } else {
        Found::NotAscii
    }
}
