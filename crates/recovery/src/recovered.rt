//! What an opening gives.

use device_layout::Layout;
use kvset::Kvset;
use manifest::{Base, Manifest};
use view::View;
use wal::Ring;

/// What a device stores: the view of its state, its layout, where its log is, where its manifest
/// stands and what it says, the last number of the history, and the clock behind the barrier.
#[derive(Drop)]
pub struct Recovered {
    pub view: View<Kvset>,
    pub layout: Layout,
    pub log: Ring,
    pub manifest: Manifest,
    pub base: Base,
    pub number: u64,
    pub moment: u64,
}
