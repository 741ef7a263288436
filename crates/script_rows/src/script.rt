//! The first line of a file.

use std::str;

/// A device's parameters: slots of `2^power` bytes, so many of them, the bytes of a manifest half and of a log segment, and how
/// many stores may be live.
#[derive(Clone, Copy, Drop)]
pub(crate) struct Device {
    pub(crate) power: u8,
    pub(crate) slots: u32,
    pub(crate) half: u64,
    pub(crate) segment: u64,
    pub(crate) stores: u16,
}

/// The parameters that a line names: four numbers, or five with the store limit, which is else 256.
pub(crate) fn device_of(line: &[u8]) -> Option<Device> {
    let text = str::from_utf8(line).ok()?.strip_prefix("device ")?;
    let mut words = text.split(' ');
    let power = words.next()?.parse::<u8>().ok()?;
    let slots = words.next()?.parse::<u32>().ok()?;
    let half = words.next()?.parse::<u64>().ok()?;
    let segment = words.next()?.parse::<u64>().ok()?;
    let stores = match words.next() {
        Some(word) => word.parse::<u16>().ok()?,
        None => 256,
    };
    Some(Device {
        power,
        slots,
        half,
        segment,
        stores,
    })
}
