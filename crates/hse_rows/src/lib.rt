//! Rows and changes: keys, values, prefixes and names, and a commit's changes in normal form.
#![tactic(auto)]

mod bounded;
mod change;
mod core_laws;
mod edge;
mod key;
mod laws;
mod length_fault;
mod name;
mod normal_form;
mod places;
mod prefix;
mod row;
mod row_set;
mod script_laws;
mod shared_bytes;
mod store;
mod taken_run;
mod value;
mod write;
mod write_set;

pub use bounded::Bounded;
pub use change::{Change, ChangeRef};
pub use core_laws::{
    answers_lead_one_way, calls_are_recorded, calls_have_one_answer, calls_keep_limits,
    others_keep_timelines, runs_are_isolated, timelines_stand,
};
pub use edge::Edge;
pub use key::{Key, KeyFault, LONGEST_KEY};
pub use laws::{
    conflicts_are_of_transactions, creations_may_come_first, keys_hold_last_effects,
    normal_forms_do_the_same, normal_forms_overlap_the_same, overlaps_go_both_ways,
    snapshots_are_isolated, snapshots_stay,
};
pub use length_fault::LengthFault;
pub use name::{NameFault, StoreName};
pub use normal_form::{charges_grow_by_the_change_at_most, normal_forms_are_in_order};
pub use prefix::{LONGEST_PREFIX, Prefix, PrefixFault};
pub use row::{Row, RowRef};
pub use row_set::{RowSet, Shared};
pub use script_laws::{
    lines_are_calls, lines_have_one_answer, lines_lead_one_way, other_lines_keep_timelines,
    scripts_are_isolated, scripts_are_sound, turns_are_one_step,
};
pub use store::{Mode, StoreId};
pub use taken_run::TakenRun;
pub use value::{LONGEST_VALUE, Value, ValueFault, longest_value};
pub use write::Write;
pub use write_set::WriteSet;
