//! One drive.

ghost use Rattle.std.specs.Prelude.{◌≡◌, ◌≤◌, ◌+◌, Some, None, true, false, [], length, slice_range, IfOk, IfErr};
ghost use Rattle.ckd_sense.specs.SenseBytes.{sense_bytes};
ghost use Rattle.ckd_image.specs.Store.{Counts};
ghost use Rattle.ckd_command.specs.Drive.{unsaved, begin, is_written};
ghost use Rattle.ckd_drive.specs.declared.answers.Begun.TheVariants as begun;
ghost use Rattle.ckd_drive.specs.Calls.{Ends};
ghost use Rattle.ckd_drive.specs.Work.{DriveState, Over, CallsStore, Reports, fault_met, begin_saves, look_loads, look_saves, end_saves, failed_ending};
ghost use Rattle.ckd_drive.specs.Work.{after_begin, after_look, moved_on, left_of, gives_now, takes_now, given_now, passed_of, closed_of, after_end, ending_of};
ghost use Rattle.ckd_drive.specs.Work.{is_idle, is_working, may_end, passes_now, after_settle, begun_program, answer_of_begin, answer_of_look, with_image};
ghost use Rattle.ckd_drive.specs.Work.{new_drive, without_sense, phase_of, Allows};

use crate::answers::{Begun, DriveStage, Look, Phase};
use crate::job::Job;
use crate::transfer::{OpenTransfer, Transfer};
use crate::{begin, close, look, transfer};
use ckd_command::{
    Closed, DriveEnding, Mark, Opened, Registers, first_registers, start_program, tables,
};
use ckd_image::{Image, ImageStore, StoreFault};
use ckd_sense::{Command, Sense};
use ckd_slot::TrackCache;
use ckd_track::Geometry;
use ghost_data::Trace;
use std::alloc::{AllocError, Global};
use std::marker::Model;

/// One drive over an image.
#[derive(Drop)]
pub struct Drive<S: ImageStore> {
    pub(crate) job: Job<S>,
    pub(crate) mark: Mark,
    pub(crate) stage: DriveStage,
}

impl<S: ImageStore> Model for Drive<S> {
    ghost use Rattle.ckd_drive.specs.Work.{DriveState};
    ghost use Rattle.ckd_drive.specs.Invariant.{state_of, Stands};
    ghost use Rattle.ckd_drive.specs.Jobs.{parts_held};

    ghost Value = { DriveState };

    ghost view = { λ d. state_of (parts_held d.job d.mark d.stage) };

    ghost invariant = { λ d. Stands (parts_held d.job d.mark d.stage) };
}

impl<S: ImageStore> Drive<S> {
    /// A drive over an image, at cylinder 0 and head 0, with zero sense bytes.
    ///
    /// It takes all the memory that it ever needs: a slot, and a table of the records of one.
    ///
    /// # Errors
    ///
    /// Where there is no such memory the image comes back.
    pub fn new(alloc: Global, image: Image<S>) -> Result<Drive<S>, (AllocError, Image<S>)>
        ensures ok { IfOk result (λ d. d ≡ new_drive image) }
        ensures err { IfErr result (λ e. e.1 ≡ image) }
    {
        let cache = TrackCache::new(alloc, image)?;
        // the geometry is that of an image, so that there is a first track
        let _geometry = cache.geometry();
        let job = Job {
            cache,
            registers: first_registers(),
            opened: Opened {
                command: Command::NoOperation,
                multi_track: false,
                area: None,
            },
            progress: OpenTransfer {
                moved: 0,
                left: 0,
                place: Transfer::Field([0; 8]),
            },
            before: Trace::new(),
            passed: Trace::new(),
        };
        Ok(Drive {
            job,
            mark: Mark::Saved,
            stage: DriveStage::Idle,
        })
    }

    /// Begins the command of this code, where none is open.
    ///
    /// `Rejected`: it is not begun, and the sense bytes say why: no such command, the file mask, the sequence, or a written
    /// track that could not be saved as the arm leaves it. `Immediate`: it is over, and waits for `end`. `Started`: it works,
    /// and `look` is next. Every command takes the sequence credit away, and all but Sense make the sense bytes zero;
    /// Recalibrate and Read IPL send the arm to cylinder 0, head 0 (component descriptions of the 2841 and the 2314, the
    /// sections of the commands).
    // In line, which each command of a channel program gains by.
    #[inline(always)]
    pub fn begin(&mut self, code: u8) -> Begun
        requires { is_idle self.old.work ≡ true }
        ensures state { self.new ≡ with_image (after_begin (fault_met self.old self.new) code self.old) self.new.image }
        ensures answer { result ≡ answer_of_begin (begin (fault_met self.old self.new) code self.old.state) }
        ensures calls { CallsStore false (begin_saves code self.old) self.old self.new }
        ensures reported { Reports (result ≡ begun.Rejected) self.old self.new }
    {
        self.stage = self.job.start(&mut self.mark, code);
        begin::begun(self.stage)
    }

    /// Looks at the track under the arm for the area of the command that works.
    ///
    /// `Ready`: so many bytes may pass; a formatting write asks for the count area first, and for key and data once that
    /// came. `Passed`: the index passed, and another look is next. `Failed`: the command is over, and the sense bytes report
    /// why. The track is loaded where it is not at hand, and one that was written is saved before the next head's
    /// (component descriptions, 'Multiple-Track Operation' and 'No Record Found'). A command that has found its area looks
    /// at no track: the look says how many bytes more may pass.
    // In line, where it is known mostly which of the two it is.
    #[inline(always)]
    pub fn look(&mut self) -> Look
        requires { is_working self.old.work ≡ true }
        ensures state { self.new ≡ with_image (after_look (fault_met self.old self.new) self.old) self.new.image }
        ensures answer { result ≡ answer_of_look self.new.work }
        ensures calls { CallsStore (look_loads self.old) (look_saves self.old) self.old self.new }
        ensures reported { Reports (self.new.work ≡ Over failed_ending) self.old self.new }
    {
        if let DriveStage::Passing = self.stage {
            look::make_ready(
                tables::action_of(self.job.opened.command),
                &mut self.job.progress,
            );
            return Look::Ready(self.job.progress.left);
        }
        self.look_for_area()
    }

    // The look of a command that has not found its area.
    #[inline(never)]
    fn look_for_area(&mut self) -> Look
        requires working { is_working self.old.work ≡ true }
        requires looking { passes_now self.old.work ≡ false }
        ensures state { self.new ≡ with_image (after_look (fault_met self.old self.new) self.old) self.new.image }
        ensures answer { result ≡ answer_of_look self.new.work }
        ensures calls { CallsStore (look_loads self.old) (look_saves self.old) self.old self.new }
        ensures reported { Reports (self.new.work ≡ Over failed_ending) self.old self.new }
    {
        match self.stage {
            DriveStage::Looking => {}
            _ => unreachable!(),
        }
        self.stage = self.job.look(&mut self.mark);
        self.job.passed = Trace::new();
        look::looked(self.stage, self.job.progress.left)
    }

    /// Gives the next bytes of a read or of Sense: as many as are asked for, and no more than the last look allows less
    /// what has passed since.
    pub fn give(&mut self, into: &mut [u8])
        requires gives { gives_now self.old.work ≡ true }
        requires room { length into.old ≤ left_of self.old.work }
        ensures given { into.new ≡ slice_range (given_now self.old self.old.work) (length (passed_of self.old.work))
            (length (passed_of self.old.work) + length into.old) }
        ensures moved { self.new ≡ record self.old { work = moved_on into.new self.old.work } }
    {
        let n = into.len();
        let passed = self.job.passed.and(&self.next_bytes()[..n]);
        let DriveStage::Passing = self.stage else {
            unreachable!();
        };
        let Transfer::Read(window, _) = self.job.progress.place else {
            into.copy_from_slice(&self.next_bytes()[..n]);
            self.pass(n);
            return;
        };
        // noted first, so that the copy is the last that is done
        self.job.passed = passed;
        transfer::give_on(&mut self.job.progress.place, n);
        self.job.progress.moved += n;
        self.job.progress.left -= n;
        into.copy_from_slice(&self.job.cache.buffer().bytes()[window.start..window.start + n]);
    }

    /// The next bytes of a read or of Sense, lent as they stand: all that may be given now.
    pub fn next_bytes(&self) -> &[u8]
        requires { gives_now self.now.work ≡ true }
        ensures size { length result.now ≡ left_of self.now.work }
        ensures bytes { result.now ≡ slice_range (given_now self.now self.now.work) (length (passed_of self.now.work))
            (length (passed_of self.now.work) + left_of self.now.work) }
    {
        let DriveStage::Passing = self.stage else {
            unreachable!();
        };
        let p = &self.job.progress;
        match &p.place {
            Transfer::Sense(bytes) => &bytes[p.moved..p.moved + p.left],
            Transfer::Read(window, _) => {
                &self.job.cache.buffer().bytes()[window.start..window.start + p.left]
            }
            _ => unreachable!(),
        }
    }

    /// So many of the next bytes have passed; no more than there are.
    pub fn pass(&mut self, n: usize)
        requires gives { gives_now self.old.work ≡ true }
        requires room { n ≤ left_of self.old.work }
        ensures { self.new ≡ record self.old {
          work = moved_on (slice_range (given_now self.old self.old.work) (length (passed_of self.old.work))
              (length (passed_of self.old.work) + n)) self.old.work;
        } }
    {
        let passed = self.job.passed.and(&self.next_bytes()[..n]);
        self.job.passed = passed;
        let DriveStage::Passing = self.stage else {
            unreachable!();
        };
        transfer::give_on(&mut self.job.progress.place, n);
        self.job.progress.moved += n;
        self.job.progress.left -= n;
    }

    /// Takes the next bytes of any other command: no more than the last look allows less what has passed since. What is
    /// written goes straight into the slot at hand, with zeros behind it up to the end of the area.
    // In line, so that a caller that gives a field has no more than its own copy.
    #[inline(always)]
    pub fn take(&mut self, bytes: &[u8])
        requires takes { takes_now self.old.work ≡ true }
        requires room { length bytes.now ≤ left_of self.old.work }
        ensures { self.new ≡ record self.old { work = moved_on bytes.now self.old.work } }
    {
        let DriveStage::Passing = self.stage else {
            unreachable!();
        };
        self.job.absorb(bytes);
        self.job.passed = self.job.passed.and(bytes);
        self.job.progress.moved += bytes.len();
        self.job.progress.left -= bytes.len();
    }

    /// Ends the command by the bytes that have passed, however few they are; it is over, or its area is found. Answers the
    /// unit status, and whether the arm still moves.
    ///
    /// Where no byte came nothing changes; a field cut short is a command reject. A seek saves a written track first: where
    /// that fails the arm and the head stay, and unit check and equipment check are reported.
    #[inline(always)]
    pub fn end(&mut self) -> DriveEnding
        requires { may_end self.old.work ≡ true }
        ensures state { self.new ≡ with_image (after_end (fault_met self.old self.new) self.old) self.new.image }
        ensures ending { result ≡ ending_of (closed_of (fault_met self.old self.new) self.old self.old.work) }
        ensures calls { CallsStore false (end_saves self.old) self.old self.new }
        ensures reported { Reports (result ≡ failed_ending) self.old self.new }
    {
        // the commands by themselves that end at an area, and so leave the arm where it is
        if let DriveStage::Passing = self.stage {
            match self.job.progress.place {
                Transfer::Read(_, _) => return self.end_here(),
                Transfer::Search(_, _) => return self.end_here(),
                Transfer::Filled(_, _) => return self.end_here(),
                _ => {}
            }
        }
        self.end_elsewhere()
    }

    // The same, of any other command.
    #[inline(never)]
    fn end_elsewhere(&mut self) -> DriveEnding
        requires { may_end self.old.work ≡ true }
        ensures { Ends self.old self.new result }
    {
        self.end_here()
    }

    // The end of a command, whatever its bytes are.
    #[inline(always)]
    fn end_here(&mut self) -> DriveEnding
        requires { may_end self.old.work ≡ true }
        ensures { Ends self.old self.new result }
    {
        match self.stage {
            DriveStage::Idle | DriveStage::Looking => unreachable!(),
            DriveStage::Ended => {
                self.stage = DriveStage::Idle;
                DriveEnding::ENDED
            }
            DriveStage::InMotion => {
                self.stage = DriveStage::Idle;
                DriveEnding::IN_MOTION
            }
            DriveStage::Failed => {
                self.stage = DriveStage::Idle;
                DriveEnding::FAILED
            }
            DriveStage::Passing => self.end_passing(),
        }
    }

    // The end of a command whose bytes pass: by those that have passed.
    #[inline(always)]
    fn end_passing(&mut self) -> DriveEnding
        requires passing { passes_now self.old.work ≡ true }
        ensures { Ends self.old self.new result }
    {
        let closed = self.job.close();
        self.stage = DriveStage::Idle;
        match closed {
            Closed::Stays(unit) => {
                self.mark = close::mark_left(&self.job.progress.place, self.mark);
                DriveEnding {
                    unit,
                    motion: false,
                }
            }
            Closed::Moves(cylinder, head, ending) => {
                match self.job.leave(&mut self.mark, cylinder, head) {
                    Ok(()) => ending,
                    Err(_) => DriveEnding::FAILED,
                }
            }
        }
    }

    /// Saves the track if it was written. A command that is open, of which no byte has passed, is open no more.
    ///
    /// # Errors
    ///
    /// Where the store fails the slot holds any bytes, and nothing of what was written is saved later; the sense bytes gain
    /// equipment check, and `unsaved` reports the track.
    pub fn settle(&mut self) -> Result<(), StoreFault>
        requires { passed_of self.old.work ≡ [] }
        ensures state { self.new ≡ with_image (after_settle (fault_met self.old self.new) self.old) self.new.image }
        ensures saved { self.new.image.slots ≡ self.new.state.volume.slots }
        ensures counted { Counts self.old.image.failures self.new.image.failures result }
        ensures calls { CallsStore false (is_written self.old.state) self.old self.new }
        ensures reported { Reports (unsaved self.new.state
            ≡ Some (self.old.state.registers.cylinder, self.old.state.registers.head)) self.old self.new }
    {
        self.stage = DriveStage::Idle;
        self.job.save(&mut self.mark)?;
        self.mark = close::settled_mark(self.mark);
        Ok(())
    }

    /// Begins a channel program: the track stands at its index, the file mask is 00 and none was set, and there is no
    /// credit. Cylinder, head and sense stay, and a track that was written stays to be saved.
    pub fn begin_program(&mut self)
        requires { is_idle self.old.work ≡ true }
        ensures { self.new ≡ record self.old { state = begun_program self.old.state } }
    {
        start_program(&mut self.job.registers);
        self.mark = close::owed_mark(self.mark);
    }

    /// How far the command is, and so what may be called next.
    pub fn phase(&self) -> Phase
        ensures phase { result ≡ phase_of self.now.work }
        ensures allows { Allows result self.now.work }
    {
        let p = &self.job.progress;
        match self.stage {
            DriveStage::Idle => Phase::Idle,
            DriveStage::Ended | DriveStage::InMotion | DriveStage::Failed => Phase::Over,
            DriveStage::Looking => Phase::Looking,
            DriveStage::Passing if tables::is_giving(tables::action_of(self.job.opened.command)) =>
                {
                    Phase::Gives {
                        passed: p.moved,
                        left: p.left,
                    }
                }
            DriveStage::Passing => Phase::Takes {
                passed: p.moved,
                left: p.left,
            },
        }
    }

    /// Whether the track under the arm was written, and is not saved.
    pub fn is_written(&self) -> bool
        ensures { result ≡ is_written self.now.state }
    {
        matches!(self.mark, Mark::Written)
    }

    /// The six sense bytes.
    pub fn sense(&self) -> [u8; 6]
        ensures { result ≡ sense_bytes self.now.state.registers.sense }
    {
        self.job.registers.sense.to_bytes()
    }

    /// The model, the cylinders and the track size of the volume.
    pub fn geometry(&self) -> Geometry
        ensures image { result ≡ self.now.image.geometry }
        ensures volume { result ≡ self.now.state.volume.geometry }
    {
        self.job.cache.geometry()
    }

    /// The cylinder of the arm.
    pub fn cylinder(&self) -> u16
        ensures { result ≡ self.now.state.registers.cylinder }
    {
        self.job.registers.cylinder
    }

    /// The head.
    pub fn head(&self) -> u16
        ensures { result ≡ self.now.state.registers.head }
    {
        self.job.registers.head
    }

    /// The image, lent. Where no command is open, and the track under the arm is not written or was saved since, it holds the
    /// drive's volume; what was written and is not saved is not in it.
    pub fn image(&self) -> &Image<S>
        ensures image { result.now ≡ self.now.image }
        ensures geometry { self.now.image.geometry ≡ self.now.state.volume.geometry }
        ensures volume { is_idle self.now.work ≡ true → is_written self.now.state ≡ false
            → self.now.image.slots ≡ self.now.state.volume.slots }
    {
        self.job.cache.image()
    }

    /// Takes another image, whose slots are as large, and becomes a new drive over it. Gives back the one that was here, which
    /// holds the drive's volume. It takes no memory.
    pub fn exchange(&mut self, image: Image<S>) -> Image<S>
        requires idle { is_idle self.old.work ≡ true }
        requires saved { is_written self.old.state ≡ false }
        requires size { image.geometry.track_size ≡ self.old.image.geometry.track_size }
        ensures now { self.new ≡ new_drive image }
        ensures before { result ≡ self.old.image }
        ensures geometry { result.geometry ≡ self.old.state.volume.geometry }
        ensures volume { result.slots ≡ self.old.state.volume.slots }
    {
        self.job.registers = first_registers();
        self.mark = Mark::Saved;
        self.stage = DriveStage::Idle;
        let before = self.job.cache.exchange(image);
        // the geometry is that of an image, so that there is a first track
        let _geometry = self.job.cache.geometry();
        before
    }

    /// Makes the sense bytes zero.
    pub fn clear_sense(&mut self)
        requires { is_idle self.old.work ≡ true }
        ensures { self.new ≡ record self.old { state = without_sense self.old.state } }
    {
        self.job.registers.sense = Sense::ZERO;
    }

    /// Cylinder and head of a track that could not be saved, until the arm leaves it or the next program begins.
    pub fn unsaved(&self) -> Option<(u16, u16)>
        ensures { result ≡ unsaved self.now.state }
    {
        match self.mark {
            Mark::Lost => Some((self.job.registers.cylinder, self.job.registers.head)),
            Mark::Saved | Mark::Written => None,
        }
    }

    /// The image, which holds the drive's volume: where no command is open, and the track under the arm is not written or was
    /// saved since.
    pub fn into_image(self) -> Image<S>
        requires idle { is_idle self.work ≡ true }
        requires saved { is_written self.state ≡ false }
        ensures image { result ≡ self.image }
        ensures geometry { result.geometry ≡ self.state.volume.geometry }
        ensures volume { result.slots ≡ self.state.volume.slots }
    {
        let Drive {
            job,
            mark: _,
            stage: _,
        } = self;
        let Job {
            cache,
            registers: _,
            opened: _,
            progress: _,
            before: _,
            passed: _,
        } = job;
        cache.into_image()
    }
}
