//! A batch, framed as it is written.
ghost use Rattle.std.specs.Prelude.{◌≡◌, ◌+◌, ◌^◌, ◌<◌, ◌≤◌, drop, length, vec_len, vec_capacity, IfOk};
ghost use Rattle.gate_log.specs.Framed.{framed};
ghost use Rattle.gate_log.specs.Places.{need_of};

use crate::FRAME_SIZE;
use crate::gate::CLOSED;
use byteorder::{BigEndian, ByteOrder};
use hse_io::NoMemory;
use std::alloc::Global;
use std::marker::Model;

/// A payload with the length before it and the closed next gate behind it, which one write puts on
/// the device.
#[derive(Drop)]
pub struct Batch {
    framed: Vec<u8>,
}

impl Model for Batch {
    ghost use Rattle.std.specs.Prelude.{List, ℕ};
    ghost use Rattle.gate_log.specs.Framed.{payload_of, IsFramed};

    ghost Value = { List ℕ };

    ghost view = { λ b. payload_of b.framed.items };

    ghost invariant = { λ b. IsFramed b.framed.items };
}

impl Batch {
    /// Frames a payload, in one allocation.
    pub fn of(alloc: Global, payload: &[u8]) -> Result<Batch, NoMemory>
        requires { length payload.now < 2 ^ 32 }
        ensures { IfOk result (λ b. b ≡ payload.now) }
    {
        let mut framed = Vec::with_capacity(alloc, payload.len() + FRAME_SIZE as usize)?;
        let mut length = [0; 4];
        BigEndian::write_u32(&mut length, payload.len() as u32);
        framed.extend_from_slice(&length)?;
        framed.extend_from_slice(payload)?;
        framed.extend_from_slice(CLOSED)?;
        Ok(Batch { framed })
    }

    /// The batch of the payload that stands behind the first four bytes. They become its length, and the
    /// closed gate is put behind it, for which there is room: it takes no memory and copies nothing.
    pub fn framed_in(mut bytes: Vec<u8>) -> Batch
        requires head { 4 ≤ vec_len bytes }
        requires room { vec_len bytes < vec_capacity bytes }
        requires fits { vec_len bytes < 4 + 2 ^ 32 }
        ensures { result ≡ drop 4 bytes.items }
    {
        let length = (bytes.len() - 4) as u32;
        bytes[0..4].copy_from_slice(&length.to_be_bytes());
        let Ok(()) = bytes.push(CLOSED[0]) else {
            unreachable!();
        };
        Batch { framed: bytes }
    }

    /// The bytes that are written behind the batch's gate.
    pub(crate) fn framed(&self) -> &[u8]
        ensures spelled { result.now ≡ framed self.now }
        ensures fits { length self.now < 2 ^ 32 }
    {
        &self.framed
    }

    /// The payload.
    pub fn payload(&self) -> &[u8]
        ensures { result.now ≡ self.now }
    {
        &self.framed[4..self.framed.len() - 1]
    }

    /// What the batch takes of a region, its gate included, in bytes.
    pub fn need(&self) -> u64
        ensures { result ≡ need_of self.now }
    {
        self.framed.len() as u64
    }
}
