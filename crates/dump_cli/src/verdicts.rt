// The text of a verdict.
ghost use Rattle.std.specs.Prelude.{◌≡◌, IfOk};
ghost use Rattle.dump_cli.specs.Verdicts.{kind_text, verdict_text};

use dump_check::Verdict;
use gz_names::{DumpFault, NoMemory};
use itoa::Buffer;
use std::alloc::Global;

fn kind_text(why: DumpFault) -> &'static [u8]
    ensures { result.now ≡ kind_text why }
{
    match why {
        DumpFault::Order => b"order",
        DumpFault::Absent => b"absent",
        DumpFault::Gray => b"gray",
        DumpFault::Cut => b"cut",
    }
}

/// A verdict's line with its line feed; a bad line has none.
pub fn verdict_text(alloc: Global, verdict: Verdict) -> Result<Vec<u8>, NoMemory>
    ensures { IfOk result (λ text. text.items ≡ verdict_text verdict) }
{
    let mut digits = Buffer::new();
    let mut text = Vec::new(alloc);
    match verdict {
        Verdict::Sound(cells, edges, entries) => {
            text.extend_from_slice(b"ok ")?;
            text.extend_from_slice(digits.format(cells).as_bytes())?;
            text.extend_from_slice(b" ")?;
            text.extend_from_slice(digits.format(edges).as_bytes())?;
            text.extend_from_slice(b" ")?;
            text.extend_from_slice(digits.format(entries).as_bytes())?;
            text.extend_from_slice(b"\n")?;
        }
        Verdict::Fault(line, why) => {
            text.extend_from_slice(b"fault ")?;
            text.extend_from_slice(digits.format(line).as_bytes())?;
            text.extend_from_slice(b" ")?;
            text.extend_from_slice(kind_text(why))?;
            text.extend_from_slice(b"\n")?;
        }
        Verdict::Bad(_) => {}
    }
    Ok(text)
}
