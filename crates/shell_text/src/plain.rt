//! Bytes that stand for themselves.
ghost use Rattle.std.specs.Prelude.{◌≡◌};
ghost use Rattle.std.specs.List.{list_all};
ghost use Rattle.shell_text.specs.Words.{is_plain, is_printable};

/// What an item of hexadecimal digits begins with.
pub(crate) const MARK: &[u8] = b"x:";

/// Whether the bytes stand for themselves: a word of printable bytes that does not begin as
/// hexadecimal digits do.
pub(crate) fn is_plain(bytes: &[u8]) -> bool
    ensures { result ≡ is_plain bytes.now }
{
    !bytes.is_empty() && is_printable(bytes) && !bytes.starts_with(MARK)
}

/// Whether each byte is one from `!` to `~`.
fn is_printable(bytes: &[u8]) -> bool
    ensures { result ≡ list_all is_printable bytes.now }
{
    bytes.iter().all(|byte| byte.is_ascii_graphic())
}
