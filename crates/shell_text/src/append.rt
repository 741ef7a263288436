//! Several pieces of bytes to the end of a list, all or none of them.
ghost use Rattle.std.specs.Prelude.{◌≡◌, ◌++◌, OnOk, OnErr};
ghost use Rattle.shell_text.specs.Pieces.{joined};

use hse_io::NoMemory;

/// Appends the pieces, one after another. Where memory is refused nothing is appended.
pub(crate) fn append(into: &mut Vec<u8>, pieces: &[&[u8]]) -> Result<(), NoMemory>
    ensures written { OnOk result (into.new.items ≡ into.old.items ++ joined pieces.now) }
    ensures unchanged { OnErr result (into.new.items ≡ into.old.items) }
{
    let start = into.len();
    for piece in pieces {
        if let Err(_) = into.extend_from_slice(piece) {
            into.truncate(start);
            return Err(NoMemory);
        }
    }
    Ok(())
}
