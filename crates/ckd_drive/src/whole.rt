//! A read whose bytes pass at once: they are found before anything is changed, and nothing half done is kept.

ghost use Rattle.std.specs.Prelude.{◌≡◌, List, ℕ, IfSome, is_some, true};
ghost use Rattle.ckd_command.specs.declared.registers.Mark.{Mark as MarkValue};
ghost use Rattle.ckd_command.specs.declared.tables.Aim.TheVariants.{Next as Aims};
ghost use Rattle.ckd_command.specs.Commands.{IsAtTrack};
ghost use Rattle.ckd_command.specs.Drive.{is_written};
ghost use Rattle.ckd_command.specs.declared.tables.Action.TheVariants.{Read};
ghost use Rattle.ckd_command.specs.Tables.{aim, action_of};
ghost use Rattle.ckd_drive.specs.declared.answers.DriveStage.TheVariants as stage;
ghost use Rattle.ckd_drive.specs.Invariant.{state_of};
ghost use Rattle.ckd_drive.specs.Jobs.{parts_held, lends, lends_common};
ghost use Rattle.ckd_drive.specs.Work.{Idle, GivesWhole, gives_at_once, gives_common, whole_ending, state_behind};

use crate::answers::{DriveStage, WholeRead};
use crate::drive::Drive;
use crate::job::Job;
use ckd_command::{CHANNEL_AND_DEVICE_END, DriveEnding, tables};
use ckd_image::ImageStore;
use ckd_position::{Kind, Next, Position};
use ckd_sense::Command;
use ckd_sense::Command::{
    ReadCount, ReadCountKeyAndData, ReadData, ReadHomeAddress, ReadIpl, ReadKeyAndData, ReadR0,
};
use s360_words::UnitStatus;

// Channel end, device end and unit exception.
const END_WITH_UNIT_EXCEPTION: UnitStatus = UnitStatus(0x0D);

impl<S: ImageStore> Job<S> {
    // The bytes of this read, if the next area of this kind is on the track at hand.
    #[inline(always)]
    fn whole_of(&self, command: Command, kind: Kind) -> Option<(&[u8], WholeRead)>
        requires arm { IsAtTrack self.now.cache.image.geometry self.now.registers }
        requires command { command ≡ self.now.opened.command }
        requires aim { aim command ≡ Aims kind }
        requires reads { action_of command ≡ Read }
        ensures gives { (m : MarkValue) → IfSome result (λ x. GivesWhole (state_of (parts_held self.now m stage.Looking))
            x.0.now x.1) }
        ensures lends { (m : MarkValue) → is_some result ≡ lends self.now m }
    {
        let geometry = self.cache.geometry();
        let track = geometry.track_at(self.registers.cylinder, self.registers.head);
        let buffer = self.cache.at_hand(track)?;
        if !buffer.is_readable() {
            return None;
        }
        let Next::Found(found) = buffer.next_area(self.registers.position, kind) else {
            return None;
        };
        let extent = tables::extent(command);
        let (window, no_data) = buffer.part(extent, found);
        let bytes = &buffer.bytes()[window.start..window.start + window.len];
        let read = WholeRead {
            area: tables::area_left(extent, found),
            no_data: tables::ends_with_data(extent) && no_data,
        };
        Some((bytes, read))
    }

    // The same, of the command that looks for its area, if it is one of the commonest reads.
    #[inline(always)]
    fn common(&self) -> Option<(&[u8], WholeRead)>
        requires { IsAtTrack self.now.cache.image.geometry self.now.registers }
        ensures gives { (m : MarkValue) → IfSome result (λ x. GivesWhole (state_of (parts_held self.now m stage.Looking))
            x.0.now x.1) }
        ensures lends { (m : MarkValue) → is_some result ≡ lends_common self.now m }
    {
        match self.opened.command {
            ReadData => self.whole_of(ReadData, Kind::Data),
            ReadCountKeyAndData => self.whole_of(ReadCountKeyAndData, Kind::LaterCount),
            _ => None,
        }
    }

    // The same, if it is any read.
    #[inline(always)]
    fn whole(&self) -> Option<(&[u8], WholeRead)>
        requires { IsAtTrack self.now.cache.image.geometry self.now.registers }
        ensures gives { (m : MarkValue) → IfSome result (λ x. GivesWhole (state_of (parts_held self.now m stage.Looking))
            x.0.now x.1) }
        ensures lends { (m : MarkValue) → is_some result ≡ lends self.now m }
    {
        match self.opened.command {
            ReadData => self.whole_of(ReadData, Kind::Data),
            ReadCountKeyAndData => self.whole_of(ReadCountKeyAndData, Kind::LaterCount),
            ReadKeyAndData => self.whole_of(ReadKeyAndData, Kind::KeyAndData),
            ReadCount => self.whole_of(ReadCount, Kind::LaterCount),
            ReadR0 => self.whole_of(ReadR0, Kind::FirstCount),
            ReadHomeAddress => self.whole_of(ReadHomeAddress, Kind::HomeAddress),
            ReadIpl => self.whole_of(ReadIpl, Kind::FirstData),
            _ => None,
        }
    }
}

impl<S: ImageStore> Drive<S> {
    /// All bytes of the command at hand, if it is a read that looks for its area, and finds it with its next look on the
    /// track that is at hand already; and how it then ends. Nothing changes.
    ///
    /// There are none where the command is another than Read Data and Read Count, Key and Data (component descriptions, the
    /// sections of these names), the commonest reads, nor where that look would not find the area. Where it would, there are
    /// bytes exactly if the track is at hand, as one that was written, and is not saved, always is.
    #[inline(always)]
    pub fn whole_read(&self) -> Option<(&[u8], WholeRead)>
        ensures gives { IfSome result (λ x. GivesWhole self.now x.0.now x.1) }
        ensures only { is_some result ≡ true → gives_common self.now ≡ true }
        ensures written { is_written self.now.state ≡ true → is_some result ≡ gives_common self.now }
    {
        match self.stage {
            DriveStage::Looking => self.job.common(),
            _ => None,
        }
    }

    /// The same, whatever read it is: there are none where the command is no read of an area (component descriptions, 'Read
    /// Commands'), nor where that look would not find the area. For one of the commonest, `whole_read` is the quicker call.
    #[inline(always)]
    pub fn read_at_once(&self) -> Option<(&[u8], WholeRead)>
        ensures gives { IfSome result (λ x. GivesWhole self.now x.0.now x.1) }
        ensures only { is_some result ≡ true → gives_at_once self.now ≡ true }
        ensures written { is_written self.now.state ≡ true → is_some result ≡ gives_at_once self.now }
    {
        match self.stage {
            DriveStage::Looking => self.job.whole(),
            _ => None,
        }
    }

    /// Ends a read whose bytes `whole_read` or `read_at_once` lent, once they have passed, or the first of them: by a look, `pass` of
    /// so many, and `end` it would come to the same. Answers the unit status; the arm does not move.
    #[inline(always)]
    pub fn end_whole(&mut self, read: WholeRead) -> DriveEnding
        requires { (bytes : List ℕ) × GivesWhole self.old bytes read }
        ensures ended { self.new ≡ record self.old { state = state_behind self.old.state read; work = Idle } }
        ensures ending { result ≡ whole_ending read }
    {
        self.job.registers.position = Position::At(read.area);
        self.stage = DriveStage::Idle;
        let unit = if read.no_data {
            END_WITH_UNIT_EXCEPTION
        } else {
            CHANNEL_AND_DEVICE_END
        };
        DriveEnding {
            unit,
            motion: false,
        }
    }
}
