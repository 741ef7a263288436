//! The log of commits: a batch of commits as bytes, and the commits that a segment holds.
#![tactic(auto)]

mod batches;
mod change;
mod changes;
mod commit;
mod encode;
mod entry;
mod expected;
mod kind;
mod live;
mod number_laws;
mod order;
mod payload;
mod reader;
mod replay;
mod ring;
mod segment;
mod segment_laws;
mod take;
mod text_laws;
mod waiting;
mod writing;

pub use commit::Commit;
pub use encode::{encode_batch, put_entry, put_numbered};
pub use expected::first_free;
pub use live::StorePrefix;
pub use number_laws::{
    entries_follow_the_numbers, later_taken_numbers_change_nothing, numbers_without_a_gap_follow,
    replayed_is_a_run, starts_alike_read_the_same,
};
pub use replay::{segment_in, segment_into};
pub use ring::Ring;
pub use segment::{Segment, SegmentEnd, SegmentFault};
pub use segment_laws::{
    dropped_stores_change_nothing, one_batch_more, one_replay, unnamed_stores_change_nothing,
};
pub use take::TakeCommits;
pub use text_laws::{
    batches_take_their_charges, charge_is_length, commits_are_a_payload, encoded_is_replayed,
    limits_are_the_same,
};
pub use waiting::Waiting;
pub use writing::WalFault;
