//! A disk that is lent is a disk.
use crate::{Device, Disk, Failed};

impl<D: Disk> Device for &mut D {
    ghost tells = { D.tells };

    ghost seen = { λ d. D.seen d.now };

    ghost pending = { λ d. D.pending d.now };

    ghost extent = { λ d. D.extent d.now };

    ghost faults = { λ d. D.faults d.now };

    ghost clock = { λ d. D.clock d.now };

    ghost name = { λ d. d.ghost_name };

    ghost could = { λ d. D.could d.now };
}

impl<D: Disk> Disk for &mut D {
    ghost as_long = { λ d. D.as_long d.now };

    ghost counts_now = { λ d. D.counts_now d.now };

    ghost only_now = { λ d. D.only_now d.now };

    fn size(&mut self) -> Result<u64, Failed> {
        Disk::size(&mut **self)
    }

    fn set_size(&mut self, size: u64) -> Result<(), Failed> {
        Disk::set_size(&mut **self, size)
    }

    fn read(&mut self, at: u64, into: &mut [u8]) -> Result<(), Failed> {
        Disk::read(&mut **self, at, into)
    }

    fn write(&mut self, at: u64, bytes: &[u8]) -> Result<(), Failed> {
        Disk::write(&mut **self, at, bytes)
    }

    fn sync(&mut self) -> Result<(), Failed> {
        Disk::sync(&mut **self)
    }

    fn clock(&self) -> u64 {
        Disk::clock(&**self)
    }
}
