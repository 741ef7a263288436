//! A key's value in rows of several sources.
ghost use Rattle.std.specs.Prelude.{◌≡◌, List, map, Some, None};
ghost use Rattle.std.specs.FinMap as fin_map;
ghost use Rattle.std.specs.Option.{option_map};
ghost use Rattle.hse_rows.specs.declared.row.Row.{Row as a_row};
ghost use Rattle.hse_rows.specs.rows.Meaning.{contents_of, own_at, covered_at, said, value_said};
ghost use Rattle.row_laws.specs.Sources.{all_rows, Falls, first_said};
ghost use Rattle.row_laws.specs.Lookup.{word_of};
ghost use Rattle.hse_rows.specs.rows.RowSets.{row_by, row_of};

use hse_rows::{ChangeRef, RowRef, RowSet};

/// What a source says of a key.
#[derive(Clone, Copy, Debug, PartialEq, Eq)]
pub enum Word<'a> {
    /// Nothing: farther sources decide.
    Nothing,
    /// The key has no value.
    Absent,
    /// The key has this value.
    Value(&'a [u8]),
}

/// What a row leaves at its key.
fn word_of_row(row: RowRef<'_>) -> Word<'_>
    ensures { word_of result ≡ said (Some (row_of row.entry)) None }
{
    match row.change {
        ChangeRef::Put(_, value) => Word::Value(value),
        ChangeRef::Del(_) => Word::Absent,
        ChangeRef::PDel(_) => Word::Absent,
    }
}

/// What the key's own row says, which a prefix delete of this number covers.
fn word_under(row: RowRef<'_>, number: u64) -> Word<'_>
    ensures { word_of result ≡ said (Some (row_of row.entry)) (Some number) }
{
    if row.number < number {
        return Word::Absent;
    }
    word_of_row(row)
}

/// What a key's own row and the greatest number of a prefix delete that covers the key say of it. It
/// takes no memory.
pub fn word_from(own: Option<RowRef<'_>>, covered: Option<u64>) -> Word<'_>
    ensures { word_of result ≡ said (row_by own.entry) covered }
{
    match (own, covered) {
        (None, None) => Word::Nothing,
        (None, Some(_)) => Word::Absent,
        (Some(row), None) => word_of_row(row),
        (Some(row), Some(number)) => word_under(row, number),
    }
}

/// What a source says of a key. It takes no memory.
pub fn word_in<'a, R: RowSet>(source: &'a R, key: &[u8]) -> Word<'a>
    ensures { word_of result ≡ said
        (own_at key.now (R.rows source.now)) (covered_at key.now (R.rows source.now)) }
{
    word_from(source.find(key), source.covered(key))
}

/// What the first of these sources that says something of a key says. It takes no memory.
pub fn first_word<'a, R: RowSet>(sources: &'a [R], key: &[u8]) -> Word<'a>
    ensures { word_of result ≡ first_said key.now (map R.rows sources.now) }
{
    for source in sources {
        let word = word_in(source, key);
        match word {
            Word::Nothing => {}
            Word::Absent => return word,
            Word::Value(_) => return word,
        }
    }
    Word::Nothing
}

/// The value of a key in the contents that the rows of these sources mean, nearest source first. It
/// takes no memory, and lends the value.
pub fn get_in<'a, R: RowSet>(sources: &'a [R], key: &[u8]) -> Option<&'a [u8]>
    requires { Falls key.now (map R.rows sources.now) }
    ensures { option_map (λ bytes. bytes.now) result ≡ fin_map.get (contents_of (all_rows (map R.rows sources.now))) key.now }
{
    match first_word(sources, key) {
        Word::Nothing => None,
        Word::Absent => None,
        Word::Value(value) => Some(value),
    }
}
