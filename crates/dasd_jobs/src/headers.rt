//! A file of which only the header is held, so that it is judged before the rest is read.

ghost use Rattle.std.specs.Prelude.{◌≡◌, ◌≤◌, ◌+◌, ◌++◌, length, take, replicate, slice_range};

use ckd_image::{HEADER_LENGTH, Image, ImageStore, MountFault, StoreFault};
use ghost_data::Count;
use std::marker::Model;

/// The header of a file of this length. As a store it holds zeros behind the header; it gives the header whole, and every other
/// read and each write fails.
#[derive(Drop)]
pub(crate) struct HeaderStore {
    header: [u8; HEADER_LENGTH],
    len: u64,
    refused: Count,
}

impl Model for HeaderStore {
    ghost use Rattle.std.specs.Prelude.{◌++◌, take, replicate};
    ghost use Rattle.ckd_image.specs.Store.{Stored};

    ghost Value = { Stored };

    ghost view = { λ s. record {
      content = take s.len (s.header ++ replicate s.len 0);
      origin = take s.len (s.header ++ replicate s.len 0);
      failures = s.refused;
    } };
}

impl HeaderStore {
    /// The store of a header; of a file that is shorter its bytes do not matter.
    pub(crate) fn new(header: [u8; HEADER_LENGTH], len: u64) -> HeaderStore
        ensures { result.content ≡ take len (header ++ replicate len 0) }
    {
        HeaderStore {
            header,
            len,
            refused: Count::new(),
        }
    }
}

impl ImageStore for HeaderStore {
    ghost content = { λ s. s.content };

    ghost origin = { λ s. s.origin };

    ghost failures = { λ s. s.failures };

    fn len(&self) -> u64 {
        self.len
    }

    fn read_at(&mut self, at: u64, into: &mut [u8]) -> Result<(), StoreFault> {
        if at == 0 && into.len() == HEADER_LENGTH {
            into.copy_from_slice(&self.header);
            Ok(())
        } else {
            self.refused = self.refused.next();
            Err(StoreFault)
        }
    }

    fn write_at(&mut self, _at: u64, _bytes: &[u8]) -> Result<(), StoreFault> {
        self.refused = self.refused.next();
        Err(StoreFault)
    }
}

/// Whether these bytes are the header of an image, or of one of its files, as far as a header alone says.
pub fn is_header(header: &[u8]) -> bool {
    let Some(bytes) = header.first_chunk::<HEADER_LENGTH>() else {
        return false;
    };
    match Image::mount(HeaderStore::new(*bytes, HEADER_LENGTH as u64)) {
        Ok(_) => true,
        Err((fault, _)) => matches!(fault, MountFault::Length | MountFault::Split),
    }
}
