//! The lines of a verb and one name.
ghost use Rattle.std.specs.Prelude.{◌∷◌, IsTrue};
ghost use Rattle.shell_text.specs.Grammar.{Says};
ghost use Rattle.shell_text.specs.Reading.{IsReading};
ghost use Rattle.shell_text.specs.Texts.{texts};
ghost use Rattle.shell_text.specs.Verbs.{verb_word, takes_a_name};

use crate::fields::one_name;
use crate::line::{Line, TextFault};
use crate::verb::Verb;
use std::alloc::Global;

/// What a verb asks for behind which one name stands.
pub(crate) fn named(alloc: Global, verb: Verb, rest: &[&[u8]]) -> Result<Line, TextFault>
    requires { IsTrue (takes_a_name verb) }
    ensures { IsReading (λ line. Says line (verb_word verb ∷ texts rest.now)) result }
{
    let name = one_name(alloc, rest)?;
    match verb {
        Verb::DropStore => Ok(Line::DropStore(name)),
        Verb::Begin => Ok(Line::Begin(name)),
        Verb::Commit => Ok(Line::Commit(name)),
        Verb::Abort => Ok(Line::Abort(name)),
        Verb::Read => Ok(Line::Read(name)),
        Verb::Update => Ok(Line::Update(name)),
        Verb::CloseCursor => Ok(Line::CloseCursor(name)),
        _ => unreachable!(),
    }
}
