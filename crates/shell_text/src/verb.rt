//! The first word of a line.
ghost use Rattle.std.specs.Prelude.{◌≡◌, ◌≢◌, MatchOption};
ghost use Rattle.shell_text.specs.declared.verb.Verb.{Verb};
ghost use Rattle.shell_text.specs.Verbs.{verb_word};

/// What the first word of a line says.
#[derive(Clone, Copy, Debug, PartialEq, Eq)]
pub(crate) enum Verb {
    CreateStore,
    DropStore,
    Stores,
    Begin,
    Put,
    Del,
    Pdel,
    Get,
    Commit,
    Abort,
    Cursor,
    Seek,
    SeekRange,
    Read,
    Update,
    CloseCursor,
    Take,
    Write,
    End,
    Sync,
    Info,
    Reopen,
}

/// What a first word says. None where no line begins with it.
pub(crate) fn verb_of(word: &[u8]) -> Option<Verb>
    ensures cases { MatchOption result ((verb : Verb) → word.now ≢ verb_word verb)
        (λ verb. word.now ≡ verb_word verb) }
{
    match word {
        b"create-store" => Some(Verb::CreateStore),
        b"drop-store" => Some(Verb::DropStore),
        b"stores" => Some(Verb::Stores),
        b"begin" => Some(Verb::Begin),
        b"put" => Some(Verb::Put),
        b"del" => Some(Verb::Del),
        b"pdel" => Some(Verb::Pdel),
        b"get" => Some(Verb::Get),
        b"commit" => Some(Verb::Commit),
        b"abort" => Some(Verb::Abort),
        b"cursor" => Some(Verb::Cursor),
        b"seek" => Some(Verb::Seek),
        b"seek-range" => Some(Verb::SeekRange),
        b"read" => Some(Verb::Read),
        b"update" => Some(Verb::Update),
        b"close-cursor" => Some(Verb::CloseCursor),
        b"take" => Some(Verb::Take),
        b"write" => Some(Verb::Write),
        b"end" => Some(Verb::End),
        b"sync" => Some(Verb::Sync),
        b"info" => Some(Verb::Info),
        b"reopen" => Some(Verb::Reopen),
        _ => None,
    }
}
