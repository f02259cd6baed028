// How many helpers sweep beside main.
ghost use Rattle.std.specs.Prelude.{◌≡◌, ◌⊎◌, ◌<◌, ◌≤◌, length};

use arena_table::Jobs;

// Where the words do not ask for helpers, none starts for fewer arenas: making their board and starting a thread takes
// longer than sweeping some thousand of them (our choice).
const FEWEST_ARENAS: usize = 16_384;

/// How many helpers sweep beside main at most, and from how many arenas on. No output depends on it.
#[derive(Clone, Copy, Debug, PartialEq, Eq)]
pub struct Helpers {
    most: usize,
    fewest_arenas: usize,
}

impl Helpers {
    /// This number of helpers: for any arenas where the words ask for helpers, and else for 16,384 arenas or more.
    pub fn of(words: &[&str], most: u8) -> Self
        ensures most { result.most ≡ most }
        ensures fewest_arenas { (result.fewest_arenas ≡ 0) ⊎ (result.fewest_arenas ≡ 16384) }
    {
        Helpers {
            most: usize::from(most),
            fewest_arenas: if ask_for_helpers(words) {
                0
            } else {
                FEWEST_ARENAS
            },
        }
    }

    /// How many helpers there are for the arenas of these jobs: all of them, or none where the arenas are too few.
    pub fn beside(self, jobs: &Jobs) -> usize
        ensures none { length jobs.now < self.fewest_arenas → result ≡ 0 }
        ensures most { self.fewest_arenas ≤ length jobs.now → result ≡ self.most }
    {
        if jobs.as_slice().len() < self.fewest_arenas {
            return 0;
        }
        self.most
    }
}

// Whether the words of a command line say how many helpers there are.
fn ask_for_helpers(words: &[&str]) -> bool {
    words.iter().any(|word| word.starts_with("--helpers"))
}
