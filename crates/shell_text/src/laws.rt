//! What holds of the grammar and the texts.
ghost use Rattle.shell_text.specs.Grammar.{HaveOneMeaning};
ghost use Rattle.shell_text.specs.Replies.{ItemsReadBack};

/// A law: a line has one meaning at most.
pub fn lines_have_one_meaning()
    ensures one_meaning { HaveOneMeaning }
{}

/// A law: what is printed for bytes is an item that stands for these bytes.
pub fn items_read_back()
    ensures read_back { ItemsReadBack }
{}
