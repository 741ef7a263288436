//! What a superblock says, and where it is refused.
use crate::device::{PARAMS, SIZE, layout};
use device_layout::{Layout, LayoutFault};
use std::alloc::Global;
use std::process::Abort;
use std::test::Fail;

/// The superblock of the devices up to its zeros, with an open gate: slots of 2^16 bytes, 4 of them,
/// halves and segments of 65,536 bytes, two stores.
static HEAD: [u8; 36] = [
    0x4F, 0x4D, 0x53, 0x54, 0x4F, 0x52, 0x45, 0x30, 0x32, // gate, MSTORE02
    0, 0, 0, 2, 16, 0, 0, 0, 4, // version, power, slots
    0, 0, 0, 0, 0, 1, 0, 0, // half
    0, 0, 0, 0, 0, 1, 0, 0, // segment
    0, 2, // stores
];

/// What a block says of a device of this size.
fn read(rt: &impl Abort, size: usize, block: &[u8]) -> Result<Layout, LayoutFault> {
    assert!(rt; block.len() == 4_096);
    Layout::read(size as u64, block)
}

/// The superblock of the devices, where the byte at this place is another one, read.
fn changed(
    rt: &impl Abort,
    alloc: Global,
    place: usize,
    byte: u8,
) -> Result<Result<Layout, LayoutFault>, Fail> {
    let mut block = vec![in alloc; 0; 4_096]?;
    for (at, head) in HEAD.iter().enumerate() {
        block[at] = *head;
    }
    let Some(at) = block.get_mut(place) else {
        return Err("no such place".into());
    };
    *at = byte;
    Ok(read(rt, SIZE, &block))
}

/// A byte that is changed, what it becomes, and the place that is refused.
static PLACES: [(usize, u8, u64); 20] = [
    (0, 0, 0), // the gate
    (0, 0x4E, 0),
    (1, 0x4E, 1), // the text
    (8, 0x31, 1),
    (13, 15, 13), // the power
    (13, 26, 13),
    (17, 3, 14), // too few slots
    (14, 1, 14), // too many
    (24, 1, 18), // a half that is no whole blocks
    (23, 0, 18), // too small
    (22, 5, 18), // too large
    (32, 8, 26), // a segment
    (26, 1, 26),
    (35, 0, 34), // no store
    (34, 16, 34), // too many
    (36, 1, 36), // a byte behind the sizes
    (4_095, 0x80, 4_095),
    (17, 5, 4_096), // another size of the device
    (13, 17, 4_096),
    (24, 0x10, 4_096),
];

#[test]
fn a_superblock_has_its_bytes(rt: HostRuntime) -> Result<(), Fail> {
    let layout = layout(&rt);
    let mut block = layout.superblock(rt.alloc())?;
    assert_eq!(rt; block.len(), 4_096);
    assert_eq!(rt; block[0], 0);
    block[0] = 0x4F;
    assert!(rt; &block[..36] == HEAD.as_slice());
    assert_eq!(rt; read(&rt, SIZE, &block), Ok(layout));
    assert_eq!(rt;
        read(&rt, SIZE + 1, &block),
        Err(LayoutFault::Damaged(4_096))
    );
    Ok(())
}

#[test]
fn a_changed_byte_of_a_superblock_has_its_place(rt: HostRuntime) -> Result<(), Fail> {
    for (place, byte, want) in &PLACES {
        let found = changed(&rt, rt.alloc(), *place, *byte)?;
        assert_eq!(rt; (place, found), (place, Err(LayoutFault::Damaged(*want))));
    }
    let found = changed(&rt, rt.alloc(), 12, 7)?;
    assert_eq!(rt; found, Err(LayoutFault::Version(7)));
    let found = changed(&rt, rt.alloc(), 35, 9)?;
    assert_eq!(rt; found.map(|layout| layout.stores), Ok(9));
    assert_eq!(rt; PARAMS.stores, 2);
    Ok(())
}

#[test]
fn random_bytes_are_refused(rt: HostRuntime) -> Result<(), Fail> {
    let mut seed = 1u64;
    for front in [0, 9, 13] {
        let mut block = vec![in rt.alloc(); 0; 4_096]?;
        for byte in block.iter_mut() {
            seed = seed
                .wrapping_mul(6_364_136_223_846_793_005)
                .wrapping_add(1_442_695_040_888_963_407);
            *byte = (seed >> 56) as u8;
        }
        for (at, head) in HEAD.iter().enumerate() {
            if at < front {
                block[at] = *head;
            }
        }
        assert!(rt; read(&rt, SIZE, &block).is_err());
    }
    Ok(())
}
