//! The processor's input/output instructions. Each answers its condition code, 0 to 3: that of the channel of the address, and 3 where
//! there is none, or no drive of that address at it.

ghost use Rattle.std.specs.Prelude.{◌≡◌, ◌/◌, ◌<◌, ◌^◌, pos, length};
ghost use Rattle.s360_words.specs.Storage.{Storage as StorageState};
ghost use Rattle.s360_laws.specs.Events as machine;
ghost use Rattle.s360_laws.specs.declared.condition.ConditionCode.TheVariants.{Three};
ghost use Rattle.s360_channels.specs.Selectors.{across};
ghost use Rattle.subsystem_calls.specs.Calls.{Tells, TellsMissing, TellsOf, TellsTest};

use crate::calling::Call;
use crate::tell::{of_csw, of_status, of_test};
use dasd_files::VolumeFile;
use s360_channels::Selectors;
use s360_storage::MainStorage;

/// Start I/O, at this address.
#[derive(Drop)]
pub struct Sio {
    pub address: u16,
}

impl Call for Sio {
    ghost does = { λ call code after old new. Tells (call.address / 256) (machine.Sio call.address) (machine.WithCode Three) code old new
        × TellsMissing call.address code old };

    ghost tells = { pos 0 };

    ghost Told = { Unit {0} };

    ghost told = { λ _. tt };

    ghost out = { λ _. 0 };

    #[inline(always)]
    fn over<M: MainStorage>(
        &mut self,
        channels: &mut Selectors<VolumeFile>,
        storage: &mut M,
    ) -> i32 {
        of_status(channels.sio(storage, self.address))
    }
}

/// Test I/O, at this address.
#[derive(Drop)]
pub struct Tio {
    pub address: u16,
}

impl Call for Tio {
    ghost does = { λ call code after old new. Tells (call.address / 256) (machine.Tio call.address) (machine.WithCode Three) code old new
        × TellsMissing call.address code old };

    ghost tells = { pos 0 };

    ghost Told = { Unit {0} };

    ghost told = { λ _. tt };

    ghost out = { λ _. 0 };

    #[inline(always)]
    fn over<M: MainStorage>(
        &mut self,
        channels: &mut Selectors<VolumeFile>,
        storage: &mut M,
    ) -> i32 {
        of_csw(channels.tio(storage, self.address))
    }
}

/// Halt I/O, at this address.
#[derive(Drop)]
pub struct Hio {
    pub address: u16,
}

impl Call for Hio {
    ghost does = { λ call code after old new. TellsOf (call.address / 256) (machine.Hio call.address) (machine.WithCode Three) code old new
        × TellsMissing call.address code old };

    ghost tells = { pos 0 };

    ghost Told = { Unit {0} };

    ghost told = { λ _. tt };

    ghost out = { λ _. 0 };

    #[inline(always)]
    fn over<M: MainStorage>(
        &mut self,
        channels: &mut Selectors<VolumeFile>,
        storage: &mut M,
    ) -> i32 {
        of_status(channels.hio(storage, self.address))
    }
}

/// Test Channel, of the channel of an address.
pub fn tch(channels: &Selectors<VolumeFile>, address: u16) -> i32
    ensures { (s : StorageState) → TellsTest (address / 256) result (across channels.now s) }
{
    of_test(channels.tch(address))
}
