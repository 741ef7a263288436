//! The lines of a script, read as commands.
ghost use Rattle.std.specs.Prelude.{◌≡◌, ◌≢◌, ◌↔◌, ◌≤◌, ℕ, List, ◌∷◌, ◌++◌};
ghost use Rattle.std.specs.Prelude.{IsTrue, MatchOption, All};
ghost use Rattle.hse_shell.specs.Grammar.{Means, IsWord, IsPut, IsKeyed, IsSilent, HaveOneMeaning};
ghost use Rattle.hse_shell.specs.Commands.{meaning_of, HasNoSpace};

/// What a line asks for, in slices of that line.
#[derive(Clone, Copy)]
pub(crate) enum Command<'a> {
    /// Set a key to a value.
    Put(&'a [u8], &'a [u8]),
    /// Remove a key.
    Del(&'a [u8]),
    /// Read a key.
    Get(&'a [u8]),
    /// Make all that was stored safe.
    Sync,
    /// An empty line or a comment, which has no reply.
    Silent,
    /// The line is outside the grammar.
    Unknown,
}

/// What a line asks for. It takes no memory.
pub(crate) fn parse(line: &[u8]) -> Command<'_>
    ensures means { Means line.now (meaning_of result) }
{
    if is_silent(line) {
        return Command::Silent;
    }
    if line == b"sync".as_slice() {
        return Command::Sync;
    }
    if let Some(key) = parse_key(line, b"get @ s ") {
        return Command::Get(key);
    }
    if let Some(key) = parse_key(line, b"del @ s ") {
        return Command::Del(key);
    }
    match parse_put(line) {
        Some((key, value)) => Command::Put(key, value),
        None => Command::Unknown,
    }
}

/// Whether the line is empty or a comment.
fn is_silent(line: &[u8]) -> bool
    ensures { IsTrue result ↔ IsSilent line.now }
{
    match line {
        [] => true,
        [first, ..] => *first == b'#',
    }
}

/// The key of a line that is this front and a key.
fn parse_key<'a>(line: &'a [u8], front: &[u8]) -> Option<&'a [u8]>
    ensures cases { MatchOption result ((key : List ℕ) → ¬ (IsKeyed front.now line.now key))
        (λ key. IsKeyed front.now line.now key.now) }
{
    let key = behind(line, front)?;
    if is_word(key) { Some(key) } else { None }
}

/// The key and the value of a line that sets one.
fn parse_put(line: &[u8]) -> Option<(&[u8], &[u8])>
    ensures cases { MatchOption result ((key value : List ℕ) → ¬ (IsPut line.now key value))
        (λ parts. IsPut line.now parts.0.now parts.1.now) }
{
    let (key, value) = at_space(behind(line, b"put @ s ")?)?;
    if !is_word(key) {
        return None;
    }
    if is_word(value) {
        Some((key, value))
    } else {
        None
    }
}

/// The line behind a front that it begins with.
fn behind<'a>(line: &'a [u8], front: &[u8]) -> Option<&'a [u8]>
    ensures cases { MatchOption result ((rest : List ℕ) → line.now ≢ front.now ++ rest)
        (λ rest. line.now ≡ front.now ++ rest.now) }
{
    line.strip_prefix(front)
}

/// The bytes before and behind the first space.
fn at_space(text: &[u8]) -> Option<(&[u8], &[u8])>
    ensures cases { MatchOption result (HasNoSpace text.now)
        (λ parts. HasNoSpace parts.0.now × (text.now ≡ parts.0.now ++ 32 ∷ parts.1.now)) }
{
    let place = text.iter().position(|&byte| byte == b' ')?;
    let (word, _) = text.split_at(place);
    let (_, rest) = text.split_at(place + 1);
    Some((word, rest))
}

/// Whether the text is a word that stands for itself.
fn is_word(text: &[u8]) -> bool
    ensures { IsTrue result ↔ IsWord text.now }
{
    if text.is_empty() || behind(text, b"x:").is_some() {
        return false;
    }
    is_printable(text)
}

/// Whether each byte is printable and no space.
fn is_printable(text: &[u8]) -> bool
    ensures { IsTrue result ↔ All (λ byte. (33 ≤ byte) × (byte ≤ 126)) text.now }
{
    text.iter().all(|byte| byte.is_ascii_graphic())
}

/// A law: a line has one meaning at most.
pub fn lines_have_one_meaning()
    ensures one_meaning { HaveOneMeaning }
{}
