//! Laws of what rows mean, the look-up through sources of rows, and rows in a sorted vector.
#![tactic(auto)]

mod laws;
mod lookup;
mod shared_rows;
mod sorted_rows;

pub use laws::{
    first_sources_decide, keys_hold_newest_rows, merged_rows_are_entries,
    newest_rows_mean_the_same, rows_change_contents,
};
pub use lookup::{Word, first_word, get_in, word_from, word_in};
pub use shared_rows::SharedRows;
pub use sorted_rows::SortedRows;
