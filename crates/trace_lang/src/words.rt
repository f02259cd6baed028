// The first words of lines.
ghost use Rattle.std.specs.Prelude.{◌≡◌, ◌≢◌, IfSome, Some, length};
ghost use Rattle.trace_lang.specs.declared.words.Word.{Word};
ghost use Rattle.trace_lang.specs.Words.{word_text};

/// The word that a line begins with; it names the command.
#[derive(Clone, Copy, Debug, PartialEq, Eq)]
pub enum Word {
    Zone,
    Comp,
    New,
    Map,
    Get,
    Set,
    Wrap,
    Unwrap,
    Copy,
    Drop,
    Hold,
    Release,
    Expose,
    Put,
    Del,
    Find,
    Gc,
    Slice,
    Finish,
    Collect,
    Colours,
    Dump,
    Reset,
    Weaken,
    Deref,
    Watch,
    Unwatch,
    Compact,
}

// The word of three letters that a text is.
fn word_of_three(text: &[u8]) -> Option<Word>
    requires { length text.now ≡ 3 }
    ensures some { IfSome result (λ w. text.now ≡ word_text w) }
    ensures exact { (w : Word) → text.now ≡ word_text w → result ≡ Some w }
{
    match text {
        b"new" => Some(Word::New),
        b"map" => Some(Word::Map),
        b"get" => Some(Word::Get),
        b"set" => Some(Word::Set),
        b"put" => Some(Word::Put),
        b"del" => Some(Word::Del),
        _ => None,
    }
}

// The word of four letters that a text is.
fn word_of_four(text: &[u8]) -> Option<Word>
    requires { length text.now ≡ 4 }
    ensures some { IfSome result (λ w. text.now ≡ word_text w) }
    ensures exact { (w : Word) → text.now ≡ word_text w → result ≡ Some w }
{
    match text {
        b"zone" => Some(Word::Zone),
        b"comp" => Some(Word::Comp),
        b"wrap" => Some(Word::Wrap),
        b"copy" => Some(Word::Copy),
        b"drop" => Some(Word::Drop),
        b"hold" => Some(Word::Hold),
        b"find" => Some(Word::Find),
        b"dump" => Some(Word::Dump),
        _ => None,
    }
}

// The word of another length that a text is.
fn other_word(text: &[u8]) -> Option<Word>
    requires three { length text.now ≢ 3 }
    requires four { length text.now ≢ 4 }
    ensures some { IfSome result (λ w. text.now ≡ word_text w) }
    ensures exact { (w : Word) → text.now ≡ word_text w → result ≡ Some w }
{
    match text {
        b"unwrap" => Some(Word::Unwrap),
        b"release" => Some(Word::Release),
        b"expose" => Some(Word::Expose),
        b"gc" => Some(Word::Gc),
        b"slice" => Some(Word::Slice),
        b"finish" => Some(Word::Finish),
        b"collect" => Some(Word::Collect),
        b"colours" => Some(Word::Colours),
        b"reset" => Some(Word::Reset),
        b"weaken" => Some(Word::Weaken),
        b"deref" => Some(Word::Deref),
        b"watch" => Some(Word::Watch),
        b"unwatch" => Some(Word::Unwatch),
        b"compact" => Some(Word::Compact),
        _ => None,
    }
}

/// The word that a text is.
pub fn word_of(text: &[u8]) -> Option<Word>
    ensures some { IfSome result (λ w. text.now ≡ word_text w) }
    ensures exact { (w : Word) → text.now ≡ word_text w → result ≡ Some w }
{
    match text.len() {
        3 => word_of_three(text),
        4 => word_of_four(text),
        _ => other_word(text),
    }
}
