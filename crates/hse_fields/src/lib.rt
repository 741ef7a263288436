//! Fields of the device's formats: numbers, the highest byte first, and bytes. `specs/` has the
//! text of the log's batches, which is made of them.
#![tactic(auto)]

mod block;
mod block_laws;
mod header;
mod laws;
mod limits;
mod name;
mod put;
mod refusal;
mod short;
mod split;
mod take;

pub use block::{
    BlockFull, BlockHeader, Damaged, HEADER_SIZE, KEY_KIND, Left, PAGE_SIZE, PREFIX_KIND,
    VALUE_KIND, ValuePlace,
};
pub use block_laws::{prefix_blocks_are_read, value_blocks_are_read};
pub use header::{block_body, read_header, read_plain_header, write_header};
pub use laws::{log_text_is_read, log_text_is_read_by_rule, put_is_taken};
pub use limits::{DELETION, LONGEST_KEY, LONGEST_PREFIX, LONGEST_VALUE, PREFIX_DELETE, PUT};
pub use name::split_name;
pub use put::{put_bytes, put_pieces, put_u8, put_u16, put_u32, put_u64};
pub use refusal::Refusal;
pub use short::Short;
pub use split::{split_bytes, split_u8, split_u16, split_u32, split_u64};
pub use take::{take_bytes, take_u8, take_u16, take_u32, take_u64};
