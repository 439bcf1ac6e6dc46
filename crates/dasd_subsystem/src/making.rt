//! The channels of a set are made.

ghost use Rattle.std.specs.Prelude.{◌≡◌, ◌<◌, ◌+◌};
ghost use Rattle.s360_words.specs.Storage.{is_size};
ghost use Rattle.dasd_subsystem.specs.Making.{AreFree, is_set, made, with_channel};

use dasd_files::VolumeFile;
use s360_channels::{Selectors, is_open};
use s360_words::{BLOCK_SIZE, MAX_SIZE, MIN_SIZE};

/// Whether this is a set of channels.
pub(crate) fn is_set(channels: u8) -> bool
    ensures { result ≡ is_set channels }
{
    channels != 0 && channels % 2 == 0
}

/// Whether there is a storage of this size.
pub(crate) fn is_size(size: u32) -> bool
    ensures { result ≡ is_size size }
{
    size >= MIN_SIZE && size <= MAX_SIZE && size % BLOCK_SIZE == 0
}

/// The channels of a set, for storage of this size. It takes no memory.
pub(crate) fn made_for(channels: u8, size: u32) -> Selectors<VolumeFile>
    ensures { result ≡ made channels size }
{
    let mut made = Selectors::new(size);
    add(&mut made, channels, 0);
    add(&mut made, channels, 1);
    add(&mut made, channels, 2);
    add(&mut made, channels, 3);
    add(&mut made, channels, 4);
    add(&mut made, channels, 5);
    add(&mut made, channels, 6);
    made
}

// Adds the channel with a number, if the set has it.
fn add(made: &mut Selectors<VolumeFile>, channels: u8, number: u8)
    requires number { number < 7 }
    requires free { AreFree number made.old.channels }
    ensures added { made.new ≡ record made.old { channels = with_channel channels made.old.size number made.old.channels } }
    ensures free { AreFree (number + 1) made.new.channels }
{
    if !is_open(channels, number) {
        return;
    }
    match made.add(number) {
        Ok(()) => {}
        Err(_) => unreachable!(),
    }
}
