//! What the inputs and the sink of a row are like.
use crate::line::Setting;
use std::alloc::{AllocError, Global};

/// How many bytes are read and written at once, which calls fail, and how many bytes there is room for.
#[derive(Drop)]
pub struct Devices {
    pub reads_of: u32,
    pub failing_reads: Vec<u64>,
    pub writes_of: u32,
    pub failing_writes: Vec<u64>,
    pub room: u32,
}

impl Devices {
    /// Devices that never fail, and have room for a million bytes.
    pub fn new(alloc: Global) -> Devices {
        Devices {
            reads_of: 4_096,
            failing_reads: Vec::new(alloc),
            writes_of: 4_096,
            failing_writes: Vec::new(alloc),
            room: 1_048_576,
        }
    }

    /// Takes what is said of them.
    pub fn set(&mut self, setting: Setting, number: u32) -> Result<(), AllocError> {
        match setting {
            Setting::ReadsOf => self.reads_of = number,
            Setting::FailRead => self.failing_reads.push(u64::from(number))?,
            Setting::WritesOf => self.writes_of = number,
            Setting::FailWrite => self.failing_writes.push(u64::from(number))?,
            Setting::Room => self.room = number,
        }
        Ok(())
    }
}
