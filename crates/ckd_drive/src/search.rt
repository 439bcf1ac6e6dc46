//! Searches that fail as a whole: nothing but where the track stands has changed behind them, and nothing half done is kept.

ghost use Rattle.std.specs.Prelude.{◌≡◌, ◌<◌, ◌≤◌, List, ℕ, IfSome, Some, is_some, length, true, false};
ghost use Rattle.ckd_command.specs.declared.tables.Aim.TheVariants.{Next as Aims};
ghost use Rattle.ckd_command.specs.declared.tables.Action.TheVariants.{Search};
ghost use Rattle.ckd_command.specs.Commands.{IsAtTrack};
ghost use Rattle.ckd_command.specs.Drive.{is_written};
ghost use Rattle.ckd_command.specs.Tables.{aim, action_of, extent_of};
ghost use Rattle.ckd_position.specs.Contents.{is_readable};
ghost use Rattle.ckd_slot.specs.Cache.{slot_at_hand};
ghost use Rattle.ckd_track.specs.Track.{track_of};
ghost use Rattle.ckd_position.specs.declared.areas.Kind.TheVariants.{Key as Keys};
ghost use Rattle.ckd_sense.specs.declared.commands.Command.TheVariants.{SearchKeyEqual};
ghost use Rattle.ckd_drive.specs.Invariant.{own_track};
ghost use Rattle.ckd_drive.specs.Jobs.{half_done, IsUnlike, IsUnlikeBy};
ghost use Rattle.ckd_drive.specs.Searches.{TellsSearch, TellsCode, Turns, turned, turned_to, fails_at_once, searched_by};
ghost use Rattle.ckd_drive.specs.Work.{PassesOn, is_idle};

use crate::answers::DriveStage;
use crate::drive::Drive;
use crate::job::Job;
use ckd_command::{Action, Aim, tables};
use ckd_image::ImageStore;
use ckd_position::{Area, AreaBytes, Kind, Next, Position, verdict};
use ckd_sense::{Command, Sense};
use ckd_slot::TrackBuffer;

/// A search, the kind of area that it looks for, and the bytes of it that it compares.
#[derive(Clone, Copy)]
struct Sought {
    command: Command,
    kind: Kind,
    extent: AreaBytes,
}

// The kind of area that a search looks for; none for another command.
fn searched(action: Action, aim: Aim) -> Option<Kind>
    ensures { result ≡ searched_by action aim }
{
    match (action, aim) {
        (Action::Search, Aim::Next(kind)) => Some(kind),
        _ => None,
    }
}

impl<S: ImageStore> Job<S> {
    // The next area that a search looks for behind this position, if it is as long as these bytes, and does not satisfy the search.
    #[inline(always)]
    fn unlike(
        &self,
        buffer: &TrackBuffer,
        position: Position,
        sought: Sought,
        wanted: &[u8],
    ) -> Option<Area>
        requires at_hand { Some buffer.now ≡ slot_at_hand self.now.cache (own_track (half_done self.now)) }
        requires readable { is_readable (track_of buffer.now) ≡ true }
        requires aim { aim sought.command ≡ Aims sought.kind }
        requires search { action_of sought.command ≡ Search }
        requires extent { extent_of sought.command ≡ sought.extent }
        ensures unlike { IfSome result (IsUnlike (turned_to position (half_done self.now)) sought.command sought.kind wanted.now) }
        ensures tells { 0 < length wanted.now
            → TellsSearch (turned_to position (half_done self.now)) sought.command wanted.now (is_some result) }
    {
        let Next::Found(area) = buffer.next_area(position, sought.kind) else {
            return None;
        };
        let (window, _) = buffer.part(sought.extent, area);
        if window.len != wanted.len() {
            return None;
        }
        let bytes = &buffer.bytes()[window.start..window.start + window.len];
        if verdict(tables::comparison(sought.command), bytes, wanted) {
            return None;
        }
        Some(area)
    }

    // How many areas that a search looks for are so, one behind another, on the track at hand; at most so many. And the position
    // behind them.
    #[inline(always)]
    fn pass_unlike(&self, sought: Sought, wanted: &[u8], most: u32) -> (u32, Position)
        requires arm { IsAtTrack self.now.cache.image.geometry self.now.registers }
        requires aim { aim sought.command ≡ Aims sought.kind }
        requires search { action_of sought.command ≡ Search }
        requires extent { extent_of sought.command ≡ sought.extent }
        ensures most { result.0 ≤ most }
        ensures unlike { Turns (λ p. IsUnlike (turned_to p (half_done self.now)) sought.command sought.kind wanted.now)
            self.now.registers.position result.0 result.1 }
        ensures tells { 0 < length wanted.now → result.0 < most
            → TellsSearch (turned_to result.1 (half_done self.now)) sought.command wanted.now false }
    {
        let mut position = self.registers.position;
        let geometry = self.cache.geometry();
        let track = geometry.track_at(self.registers.cylinder, self.registers.head);
        let Some(buffer) = self.cache.at_hand(track) else {
            return (0, position);
        };
        if !buffer.is_readable() {
            return (0, position);
        }
        let mut passed = 0;
        while passed < most {
            let Some(area) = self.unlike(buffer, position, sought, wanted) else {
                return (passed, position);
            };
            position = Position::At(area);
            passed += 1;
        }
        (passed, position)
    }

    // The same, with the first area by itself: of each other it is known then which of its record's areas passed last. Each search
    // is leaner so but Search Identifier Equal.
    #[inline(always)]
    fn pass_on(&self, sought: Sought, wanted: &[u8], most: u32) -> (u32, Position)
        requires arm { IsAtTrack self.now.cache.image.geometry self.now.registers }
        requires aim { aim sought.command ≡ Aims sought.kind }
        requires search { action_of sought.command ≡ Search }
        requires extent { extent_of sought.command ≡ sought.extent }
        ensures most { result.0 ≤ most }
        ensures unlike { Turns (λ p. IsUnlike (turned_to p (half_done self.now)) sought.command sought.kind wanted.now)
            self.now.registers.position result.0 result.1 }
        ensures tells { 0 < length wanted.now → result.0 < most
            → TellsSearch (turned_to result.1 (half_done self.now)) sought.command wanted.now false }
    {
        let position = self.registers.position;
        let geometry = self.cache.geometry();
        let track = geometry.track_at(self.registers.cylinder, self.registers.head);
        let Some(buffer) = self.cache.at_hand(track) else {
            return (0, position);
        };
        if !buffer.is_readable() {
            return (0, position);
        }
        if most == 0 {
            return (0, position);
        }
        let Some(first) = self.unlike(buffer, position, sought, wanted) else {
            return (0, position);
        };
        let (mut area, mut passed) = (first, 1);
        while most > passed {
            let Some(next) = self.unlike(buffer, Position::At(area), sought, wanted) else {
                return (passed, Position::At(area));
            };
            area = next;
            passed += 1;
        }
        (passed, Position::At(area))
    }

    // The same, of Search Key Equal, by which a table of contents is looked through: its comparison is known then as it is compiled.
    // By itself, so that the loops of the other searches are as lean as without it.
    #[inline(never)]
    fn pass_keys(&self, wanted: &[u8], most: u32) -> (u32, Position)
        requires arm { IsAtTrack self.now.cache.image.geometry self.now.registers }
        ensures most { result.0 ≤ most }
        ensures unlike { Turns (λ p. IsUnlike (turned_to p (half_done self.now)) SearchKeyEqual Keys wanted.now)
            self.now.registers.position result.0 result.1 }
        ensures tells { 0 < length wanted.now → result.0 < most
            → TellsSearch (turned_to result.1 (half_done self.now)) SearchKeyEqual wanted.now false }
    {
        let (command, kind, extent) = (Command::SearchKeyEqual, Kind::Key, AreaBytes::Key);
        self.pass_on(
            Sought {
                command,
                kind,
                extent,
            },
            wanted,
            most,
        )
    }

    // The same, with a loop for each of the searches that systems make most: what it looks for is known then as it is compiled.
    #[inline(always)]
    fn pass_sought(&self, sought: Sought, wanted: &[u8], most: u32) -> (u32, Position)
        requires arm { IsAtTrack self.now.cache.image.geometry self.now.registers }
        requires aim { aim sought.command ≡ Aims sought.kind }
        requires search { action_of sought.command ≡ Search }
        requires extent { extent_of sought.command ≡ sought.extent }
        ensures most { result.0 ≤ most }
        ensures unlike { Turns (λ p. IsUnlike (turned_to p (half_done self.now)) sought.command sought.kind wanted.now)
            self.now.registers.position result.0 result.1 }
        ensures tells { 0 < length wanted.now → result.0 < most
            → TellsSearch (turned_to result.1 (half_done self.now)) sought.command wanted.now false }
    {
        let command = sought.command;
        match (command, sought.kind, sought.extent) {
            (_, Kind::AnyCount, AreaBytes::Identifier) => {
                self.pass_on(
                    Sought {
                        command,
                        kind: Kind::AnyCount,
                        extent: AreaBytes::Identifier,
                    },
                    wanted,
                    most,
                )
            }
            (Command::SearchKeyEqual, Kind::Key, AreaBytes::Key) => self.pass_keys(wanted, most),
            (_, Kind::Key, AreaBytes::Key) => self.pass_on(
                Sought {
                    command,
                    kind: Kind::Key,
                    extent: AreaBytes::Key,
                },
                wanted,
                most,
            ),
            _ => self.pass_on(sought, wanted, most),
        }
    }

    // The same, of the search of a code that is not the commonest.
    #[inline(never)]
    fn pass_elsewhere(&self, code: u8, wanted: &[u8], most: u32) -> (u32, Position)
        requires arm { IsAtTrack self.now.cache.image.geometry self.now.registers }
        ensures most { result.0 ≤ most }
        ensures unlike { Turns (λ p. IsUnlikeBy (turned_to p (half_done self.now)) code wanted.now)
            self.now.registers.position result.0 result.1 }
        ensures tells { 0 < length wanted.now → result.0 < most
            → TellsCode (turned result.0 result.1 (half_done self.now)) code wanted.now false }
    {
        let none = (0, self.registers.position);
        let Some(read) = Command::decode(code) else {
            return none;
        };
        let Some(kind) = searched(
            tables::action_of(read.command),
            tables::aim_of(read.command),
        ) else {
            return none;
        };
        let command = read.command;
        let extent = tables::extent(command);
        self.pass_sought(
            Sought {
                command,
                kind,
                extent,
            },
            wanted,
            most,
        )
    }

    // The same, of the search of this code.
    #[inline(always)]
    fn pass_by(&self, code: u8, wanted: &[u8], most: u32) -> (u32, Position)
        requires arm { IsAtTrack self.now.cache.image.geometry self.now.registers }
        ensures most { result.0 ≤ most }
        ensures unlike { Turns (λ p. IsUnlikeBy (turned_to p (half_done self.now)) code wanted.now)
            self.now.registers.position result.0 result.1 }
        ensures tells { 0 < length wanted.now → result.0 < most
            → TellsCode (turned result.0 result.1 (half_done self.now)) code wanted.now false }
    {
        let (command, kind, extent) = (
            Command::SearchIdEqual,
            Kind::AnyCount,
            AreaBytes::Identifier,
        );
        match code {
            0x31 | 0xB1 => self.pass_unlike(
                Sought {
                    command,
                    kind,
                    extent,
                },
                wanted,
                most,
            ),
            _ => self.pass_elsewhere(code, wanted, most),
        }
    }
}

impl<S: ImageStore> Drive<S> {
    /// Passes by the areas of the search of this code, where no command is open, one behind another and at most so many: as long
    /// as the next one is on the track at hand, is as long as these bytes, and does not satisfy the search (component
    /// descriptions, 'Search Commands'). Answers how many. With each it would come to the same by `begin`, a look, `take` of
    /// these bytes, and `end`; where it answers 0 nothing has changed.
    ///
    /// It passes by only areas with which that search fails at once. Where it answers fewer than it may, the next search does
    /// not fail at once, if the track under the arm is written and not saved, and so is at hand.
    #[inline(always)]
    pub fn pass_by(&mut self, code: u8, wanted: &[u8], most: u32) -> u32
        requires idle { is_idle self.old.work ≡ true }
        ensures most { result ≤ most }
        ensures passes { PassesOn code wanted.now result self.old self.new }
        ensures written { is_written self.old.state ≡ true → 0 < length wanted.now → result < most
            → fails_at_once code wanted.now self.new ≡ false }
    {
        let DriveStage::Idle = self.stage else {
            unreachable!()
        };
        let (passed, position) = self.job.pass_by(code, wanted, most);
        if passed == 0 {
            return 0;
        }
        self.job.registers.sense = Sense::ZERO;
        self.job.registers.credit = None;
        self.job.registers.position = position;
        passed
    }
}
