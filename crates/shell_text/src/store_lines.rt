//! The lines of stores.
ghost use Rattle.std.specs.Prelude.{◌∷◌};
ghost use Rattle.shell_text.specs.Grammar.{Says};
ghost use Rattle.shell_text.specs.Reading.{IsReading};
ghost use Rattle.shell_text.specs.Texts.{texts};
ghost use Rattle.shell_text.specs.Verbs.{verb_word};

use crate::fields::of_store;
use crate::line::{Line, TextFault};
use crate::verb::Verb;
use std::alloc::Global;

/// Makes a store.
pub(crate) fn create_store(alloc: Global, rest: &[&[u8]]) -> Result<Line, TextFault>
    ensures { IsReading (λ line. Says line (verb_word Verb.CreateStore ∷ texts rest.now)) result }
{
    let (store, mode, prefix) = of_store(alloc, rest)?;
    Ok(Line::CreateStore(store, mode, prefix))
}
