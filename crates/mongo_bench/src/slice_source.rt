ghost use Rattle.std.specs.Prelude.{◌≡◌, ◌≤◌, Some, length};

use mongo_wire::{Failed, Outside, Source};
use std::io::Read;

/// A [`Source`] that gives the bytes of a slice, tells them and never fails. Nothing is copied for it.
#[derive(Drop)]
pub struct SliceSource<'a> {
    bytes: &'a [u8],
    at: usize,
    ends: u64,
    ghost placed: { at ≤ length bytes.now },
}

impl<'a> SliceSource<'a> {
    ghost use Rattle.mongo_bench.specs.Built.{slice_state};

    /// A source that gives these bytes.
    pub fn new(bytes: &'a [u8]) -> SliceSource<'a>
        ensures { (slice_state result).left ≡ Some bytes.now }
    {
        SliceSource {
            bytes,
            at: 0,
            ends: 0,
        }
    }
}

impl Outside for SliceSource<'_> {
    ghost use Rattle.mongo_bench.specs.Built.{slice_state};

    ghost state = { slice_state };
}

impl Source for SliceSource<'_> {
    fn read(&mut self, buf: &mut [u8]) -> Result<usize, Failed> {
        let mut rest = &self.bytes[self.at..];
        match rest.read(buf) {
            Ok(0) => {
                if !buf.is_empty() {
                    self.ends = self.ends.saturating_add(1);
                }
                Ok(0)
            }
            Ok(count) => {
                self.at += count;
                Ok(count)
            }
            Err(_) => unreachable!(),
        }
    }

    fn read_faults(&self) -> u64 {
        0
    }

    fn ends(&self) -> u64 {
        self.ends
    }
}
