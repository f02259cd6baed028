// Lists of numbers, most of them short.
ghost use Rattle.std.specs.Prelude.{◌≡◌, ◌<◌, ◌≤◌, ◌++◌, ◌∷◌, [], IfOk, OnOk, OnErr, length, slice_get, slice_set};
ghost use Rattle.std.specs.Prelude.{swap_remove};

use gz_names::NoMemory;
use std::alloc::Global;
use std::marker::Model;

// How many numbers need no memory.
const FEW: usize = 3;

// A few numbers are kept in place: the first `count` of the array. More of them take memory, and keep it as they become
// few again.
#[derive(Drop)]
enum Kept {
    Few { count: u8, numbers: [u32; FEW] },
    Many(Box<Vec<u32>>),
}

/// A list of numbers.
#[derive(Drop)]
pub(crate) struct Numbers {
    kept: Kept,
}

impl Model for Numbers {
    ghost use Rattle.std.specs.Prelude.{ℕ, List};
    ghost use Rattle.weak_maps.specs.Numbers.{AreFew, numbers_of};

    ghost Value = { List ℕ };

    ghost view = { λ n. numbers_of n.kept };

    ghost invariant = { λ n. AreFew n.kept };
}

impl Numbers {
    /// No numbers.
    pub fn new() -> Self
        ensures { result ≡ [] }
    {
        Numbers {
            kept: Kept::Few {
                count: 0,
                numbers: [0; FEW],
            },
        }
    }

    // The numbers.
    fn as_slice(&self) -> &[u32]
        ensures { result.now ≡ self.now }
    {
        match &self.kept {
            Kept::Few { count, numbers } => &numbers[..*count as usize],
            Kept::Many(many) => many.as_slice(),
        }
    }

    /// How many there are.
    pub fn len(&self) -> usize
        ensures { result ≡ length self.now }
    {
        self.as_slice().len()
    }

    /// The number at an index.
    pub fn get(&self, at: usize) -> Option<u32>
        ensures { result ≡ slice_get self.now at }
    {
        self.as_slice().get(at).copied()
    }

    /// Another number stands at an index.
    pub fn set(&mut self, at: usize, number: u32)
        requires { at < length self.old }
        ensures { self.new ≡ slice_set self.old at number }
    {
        match &mut self.kept {
            Kept::Few { numbers, .. } => numbers[at] = number,
            Kept::Many(many) => many[at] = number,
        }
    }

    /// A number comes last.
    #[inline(always)]
    pub fn push(&mut self, alloc: Global, number: u32) -> Result<(), NoMemory>
        ensures ok { OnOk result (self.new ≡ self.old ++ number ∷ []) }
        ensures err { OnErr result (self.new ≡ self.old) }
    {
        match self.kept {
            Kept::Few { count, mut numbers } => {
                if (count as usize) < FEW {
                    numbers[count as usize] = number;
                    self.kept = Kept::Few {
                        count: count + 1,
                        numbers,
                    };
                } else {
                    let many = many_from(alloc, &numbers, number)?;
                    self.kept = Kept::Many(many);
                }
            }
            Kept::Many(ref mut many) => many.push(number)?,
        }
        Ok(())
    }

    /// Takes out the number at an index; the last one takes its place.
    pub fn swap_remove(&mut self, at: usize)
        requires { at < length self.old }
        ensures { self.new ≡ swap_remove self.old at 0 }
    {
        match self.kept {
            Kept::Few { count, mut numbers } => {
                numbers[at] = numbers[count as usize - 1];
                self.kept = Kept::Few {
                    count: count - 1,
                    numbers,
                };
            }
            Kept::Many(ref mut many) => {
                many.swap_remove(at);
            }
        }
    }
}

// A few numbers and one after them, which are the first to take memory. There is room for as many again.
#[cold]
#[inline(never)]
fn many_from(alloc: Global, few: &[u32; FEW], number: u32) -> Result<Box<Vec<u32>>, NoMemory>
    ensures { IfOk result (λ many. many.value.items ≡ few.now ++ number ∷ []) }
{
    let mut many = Vec::with_capacity(alloc, 2 * FEW)?;
    many.extend_from_slice(few)?;
    many.push(number)?;
    let many = Box::new(alloc, many)?;
    Ok(many)
}
