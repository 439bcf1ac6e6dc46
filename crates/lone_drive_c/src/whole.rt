//! A whole command is done in one call: what the single calls do, one after another.

ghost use Rattle.std.specs.Prelude.{◌≡◌, ◌+◌, ◌≤◌, ◌==◌, None, length, true};
ghost use Rattle.ckd_drive.specs.Work.{is_idle, is_working, phase_of};
ghost use Rattle.lone_drive_c.specs.Calls.{Holds};
ghost use Rattle.lone_drive_c.specs.Words.{BeginsAndLooks, DoesWord, EndsWord, LooksUp, Moves, Passes, PassesLeft, PassesMore, StartsWord, left_at, may_do, refusal, wants_more};

use crate::allowed::may;
use crate::handle::{Handle, put, take};
use crate::showing::as_next;
use crate::tell::{COMMAND_OPEN, FAILED, NO_COMMAND, NOTHING_HELD, STAYS_OPEN, number_of_begun};
use ckd_drive::{Begun, Drive, Look, Phase};
use dasd_files::VolumeFile;
use std::alloc::Global;

// How many indexes pass at most while a command looks: more than all heads of a cylinder have, each twice.
const MOST_INDEXES: u32 = 255;

/// A command word: its command and what becomes of it, and how many of its bytes have passed.
#[repr(C)]
#[derive(Clone, Copy)]
pub struct Word {
    pub moved: usize,
    pub left: usize,
    pub code: u8,
    pub begun: u8,
    pub chains: u8,
    pub reserved: [u8; 5],
}

/// Begins the command of a word, looks for its area, passes bytes, and ends it; or goes on with the command of the word before.
#[unsafe(no_mangle)]
pub extern "C" fn dasd_drive_do(
    handle: &mut Handle,
    alloc: Global,
    word: &mut Word,
    bytes: &mut [u8],
) -> i32
    ensures does { Holds handle.old.slot.held handle.new.slot.held result
        (λ old new. DoesWord result word.old word.new bytes.old bytes.new old new) }
    ensures word { handle.old.slot.held ≡ None → word.new ≡ word.old }
    ensures bytes { handle.old.slot.held ≡ None → bytes.new ≡ bytes.old }
{
    let Some(mut held) = take(handle, alloc) else {
        return NOTHING_HELD;
    };
    let code = do_word(&mut held.drive, word, bytes);
    put(handle, held);
    code
}

fn do_word(drive: &mut Drive<VolumeFile>, word: &mut Word, bytes: &mut [u8]) -> i32
    ensures { DoesWord result word.old word.new bytes.old bytes.new drive.old drive.new }
{
    if !may_do(drive, word) {
        return refusal(word);
    }
    let chains = word.chains > 0;
    start(drive, word);
    word.moved = move_bytes(drive, bytes);
    word.left = left(drive);
    end(drive, chains)
}

// Whether the word begins its command and none is open, or it goes on with one that is.
fn may_do(drive: &Drive<VolumeFile>, word: &Word) -> bool
    ensures { result ≡ may_do word.now drive.now.work }
{
    let idle = may(drive).begin;
    if word.begun == 0 { idle } else { !idle }
}

fn refusal(word: &Word) -> i32
    ensures { result ≡ refusal word.now }
{
    if word.begun == 0 {
        COMMAND_OPEN
    } else {
        NO_COMMAND
    }
}

// The command is begun, and looked for, unless the word goes on with one.
fn start(drive: &mut Drive<VolumeFile>, word: &mut Word)
    requires { may_do word.old drive.old.work ≡ true }
    ensures { StartsWord (word.old.begun == 0) word.old word.new drive.old drive.new }
{
    if word.begun == 0 {
        let begun = begin_and_look(drive, word.code);
        word.begun = number_of_begun(begun);
    }
}

fn begin_and_look(drive: &mut Drive<VolumeFile>, command: u8) -> Begun
    requires { is_idle drive.old.work ≡ true }
    ensures { BeginsAndLooks command result drive.old drive.new }
{
    match drive.begin(command) {
        Begun::Rejected => Begun::Rejected,
        Begun::Immediate => Begun::Immediate,
        Begun::Started => {
            look_up(drive);
            Begun::Started
        }
    }
}

// Looks until the area is found, or the command has failed.
fn look_up(drive: &mut Drive<VolumeFile>)
    requires { is_working drive.old.work ≡ true }
    ensures { LooksUp drive.old drive.new }
{
    for passed in 0..MOST_INDEXES {
        match drive.look() {
            Look::Passed => {}
            Look::Ready(_) | Look::Failed => return,
        }
    }
}

// Passes bytes, and those that a formatting write takes after its count area.
fn move_bytes(drive: &mut Drive<VolumeFile>, bytes: &mut [u8]) -> usize
    ensures { Moves result bytes.old bytes.new drive.old drive.new }
{
    let first = pass(drive, bytes, 0);
    if !wants_more(drive) {
        return first;
    }
    move_more(drive, bytes, first)
}

// One look more, and what is left of the bytes passes.
fn move_more(drive: &mut Drive<VolumeFile>, bytes: &mut [u8], first: usize) -> usize
    requires wants { wants_more (phase_of drive.old.work) ≡ true }
    requires within { first ≤ length bytes.old }
    ensures { PassesMore first result bytes.old bytes.new drive.old drive.new }
{
    drive.look();
    pass_left(drive, bytes, first)
}

// What is left of the bytes passes, if there are any: how many have passed in all.
fn pass_left(drive: &mut Drive<VolumeFile>, bytes: &mut [u8], first: usize) -> usize
    requires { first ≤ length bytes.old }
    ensures { PassesLeft (first == length bytes.old) first result bytes.old bytes.new drive.old drive.new }
{
    if first == bytes.len() {
        return first;
    }
    first + pass(drive, bytes, first)
}

// Passes as many bytes as there are from a place on, and no more than may pass now.
fn pass(drive: &mut Drive<VolumeFile>, bytes: &mut [u8], at: usize) -> usize
    requires { at ≤ length bytes.old }
    ensures passes { Passes (phase_of drive.old.work) at result bytes.old bytes.new drive.old drive.new }
    ensures few { at + result ≤ length bytes.old }
    ensures size { length bytes.new ≡ length bytes.old }
{
    match drive.phase() {
        Phase::Idle | Phase::Over | Phase::Looking => 0,
        Phase::Gives { left, .. } => {
            let n = left.min(bytes.len() - at);
            drive.give(&mut bytes[at..at + n]);
            n
        }
        Phase::Takes { left, .. } => {
            let n = left.min(bytes.len() - at);
            drive.take(&bytes[at..at + n]);
            n
        }
    }
}

// Whether the drive takes bytes, and all have passed that the last look allowed.
fn wants_more(drive: &Drive<VolumeFile>) -> bool
    ensures { result ≡ wants_more (phase_of drive.now.work) }
{
    matches!(drive.phase(), Phase::Takes { left: 0, .. })
}

fn left(drive: &Drive<VolumeFile>) -> usize
    ensures { result ≡ left_at (phase_of drive.now.work) }
{
    as_next(drive.phase()).left
}

// Ends the command, unless the word chains data and more bytes may pass.
fn end(drive: &mut Drive<VolumeFile>, chains: bool) -> i32
    ensures { EndsWord chains (phase_of drive.old.work) result drive.old drive.new }
{
    match drive.phase() {
        Phase::Idle => FAILED,
        Phase::Looking => STAYS_OPEN,
        Phase::Over => drive.end().unit.0 as i32,
        Phase::Gives { left, .. } | Phase::Takes { left, .. } => {
            if chains && left > 0 {
                return STAYS_OPEN;
            }
            drive.end().unit.0 as i32
        }
    }
}
