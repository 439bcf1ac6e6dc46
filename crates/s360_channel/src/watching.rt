//! What is seen of the program that runs, between two units. Nothing here changes it, takes memory or calls a store.

ghost use Rattle.std.specs.Prelude.{option_map};
ghost use Rattle.s360_words.specs.Storage.{Storage as StorageState};
ghost use Rattle.s360_laws.specs.Machine.{Machine};
ghost use Rattle.s360_channel.specs.Channel.{StandsFor};
ghost use Rattle.s360_channel.specs.Shares.{with_storage};
ghost use Rattle.s360_channel.specs.Watched.{ShowsProgram, ShowsDriveAtWork};

use crate::channel::Channel;
use crate::view::Watched;
use ckd_drive::Drive;
use ckd_image::ImageStore;

impl<S: ImageStore> Channel<S> {
    /// The program that runs: the word at work and the next one, the residual count, and what its next unit does; none where no
    /// program runs. It is the same whatever storage the channel finds.
    pub fn program(&self) -> Option<Watched>
        ensures shows { (m : Machine) → StandsFor self.now m → ShowsProgram m result }
        ensures over_any_storage { (s : StorageState) (m : Machine) → StandsFor (with_storage self.now s) m
            → ShowsProgram m result }
    {
        self.selector.program()
    }

    /// The drive of the program that runs, lent: its registers, its command, and how many bytes have passed in that; none where no
    /// program runs. It is the same whatever storage the channel finds.
    pub fn drive_at_work(&self) -> Option<&Drive<S>>
        ensures shows { (m : Machine) → StandsFor self.now m → ShowsDriveAtWork m (option_map (λ d. d.now) result) }
        ensures over_any_storage { (s : StorageState) (m : Machine) → StandsFor (with_storage self.now s) m
            → ShowsDriveAtWork m (option_map (λ d. d.now) result) }
    {
        self.selector.drive_at_work()
    }
}
