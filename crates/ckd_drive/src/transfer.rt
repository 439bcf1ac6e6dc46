//! The bytes of a command that pass: where they stand, and what becomes of those that it takes.

ghost use Rattle.std.specs.Prelude.{◌≡◌, ◌≤◌, ◌<◌, ◌+◌, true, length, ◌-◌, ◌^◌, slice_range};
ghost use Rattle.ckd_drive.specs.Invariant.{remaining, field_size};
ghost use Rattle.ckd_drive.specs.Passing.{MayTake, Works, MayGive, IsNoSearch, whole_of, given_on, is_due, made_by};
ghost use Rattle.ckd_drive.specs.Jobs.{half_done, Takes};
ghost use Rattle.ckd_command.specs.Commands.{own_home_address};
ghost use Rattle.std.specs.Ordering.{nat_cmp, ordering_then};
ghost use Rattle.std.specs.Cmp.Lexicographic.{slice_cmp};
ghost use Rattle.ckd_command.specs.Tables.{action_of};
ghost use Rattle.ckd_track.specs.Changes.{overwritten};
ghost use Rattle.ckd_drive.specs.declared.transfer.Transfer.TheVariants as held;
ghost use Rattle.ckd_drive.specs.declared.transfer.WrittenArea.TheVariants as written;

use crate::job::Job;
use ckd_command::{Action, Opened, Registers, own_home_address, tables};
use ckd_image::ImageStore;
use ckd_sense::Sense;
use ckd_slot::Window;
use ghost_data::Trace;
use std::cmp::Ordering;

/// What becomes of the bytes that pass, and where in the slot those stand that are still to pass.
#[derive(Clone, Copy)]
pub enum Transfer {
    /// These sense bytes are given.
    Sense([u8; 6]),
    /// The bytes of a field are collected.
    Field([u8; 8]),
    /// These bytes are given; and whether the area's record has no data.
    Read(Window, bool),
    /// These bytes are still to be compared, and those before them are in this order to those that were given.
    Search(Window, Ordering),
    /// These bytes are to be replaced, none was yet; and whether the area's record has no data.
    Fill(Window, bool),
    /// A new record fits the track, which is as it was: its key and data will stand there, and it has this number and these
    /// count bytes. It is made once bytes of its key and data come, or the command ends.
    // No struct of its own: with one inside, each read and each search takes a tenth more instructions.
    Due(Window, usize, [u8; 8]),
    /// The track is changed, these bytes are zeros that may still be replaced, and the command then closes so.
    Filled(Window, WrittenArea),
}

/// What a command has written.
#[derive(Clone, Copy)]
pub enum WrittenArea {
    /// The home address.
    HomeAddress,
    /// The record of this number.
    Record(usize),
    /// Bytes of an area; and whether its record has no data.
    Area(bool),
}

/// What the bytes of a field are, once they came whole, to a command that may then change the track.
#[derive(Clone, Copy)]
pub enum Whole {
    /// They did not come whole, or the track is not changed.
    No,
    /// The track's own home address.
    HomeAddress([u8; 5]),
    /// The count area of a new record.
    Count([u8; 8]),
}

/// A command half done, whose area is found.
#[derive(Clone, Copy)]
pub struct OpenTransfer {
    /// How many bytes passed.
    pub moved: usize,
    /// How many more the last look allows.
    pub left: usize,
    /// What becomes of them.
    pub place: Transfer,
}

/// How many bytes a field has that must come whole.
pub(crate) fn field_size(action: Action) -> usize
    ensures { result ≡ field_size action }
{
    match action {
        Action::SeekCylinderAndHead | Action::SeekHead => 6,
        Action::SetFileMask => 1,
        Action::WriteHomeAddress => 5,
        Action::Format => 8,
        Action::NoTransfer | Action::GiveSense | Action::Search | Action::Read | Action::Update =>
            0,
    }
}

/// How many bytes are still to pass, as far as that is known.
pub(crate) fn remaining(action: Action, place: &Transfer, moved: usize) -> usize
    ensures { result ≡ remaining action place.now moved }
{
    match place {
        Transfer::Sense(_) => 6usize.saturating_sub(moved),
        Transfer::Field(_) => field_size(action).saturating_sub(moved),
        Transfer::Read(window, _)
        | Transfer::Search(window, _)
        | Transfer::Fill(window, _)
        | Transfer::Due(window, _, _)
        | Transfer::Filled(window, _) => window.len,
    }
}

// The window without its first bytes, so many of them.
fn behind(window: Window, n: usize) -> Window
    requires within { n ≤ window.len }
    requires room { window.start + window.len < 2 ^ 32 }
    ensures { result ≡ record { start = window.start + n; len = window.len - n } }
{
    Window {
        start: window.start + n,
        len: window.len - n,
    }
}

/// So many more bytes of this place are given.
pub(crate) fn give_on(place: &mut Transfer, n: usize)
    requires { MayGive place.old n }
    ensures { place.new ≡ given_on place.old n }
{
    if let Transfer::Read(window, _) = place {
        *window = behind(*window, n);
    }
}

// The order of an area's bytes to those that were given so far, once these are given too.
fn compared(so_far: Ordering, slot: &[u8], window: Window, bytes: &[u8]) -> Ordering
    requires { window.start + length bytes.now ≤ length slot.now }
    ensures { result ≡ ordering_then so_far (slice_cmp nat_cmp
        (slice_range slot.now window.start (window.start + length bytes.now)) bytes.now) }
{
    let end = window.start + bytes.len();
    ckd_position::compared(so_far, &slot[window.start..end], bytes)
}

// A search goes on here, with this order so far.
// A search that is one already is changed in place, so that little is written.
#[inline(always)]
fn search_on(place: &mut Transfer, rest: Window, order: Ordering)
    ensures { place.new ≡ held.Search rest order }
{
    match place {
        Transfer::Search(window, so_far) => {
            *window = rest;
            *so_far = order;
        }
        _ => *place = Transfer::Search(rest, order),
    }
}

// The field once these bytes came too.
fn collected(field: [u8; 8], at: usize, bytes: &[u8]) -> [u8; 8]
    requires { at + length bytes.now ≤ 8 }
    ensures { result ≡ overwritten field at bytes.now }
{
    // mostly a count area or a seek address comes at once
    if let Ok(whole) = <[u8; 8]>::try_from(bytes) {
        return whole;
    }
    let mut field = field;
    if at == 0 && bytes.len() == 6 {
        field[..6].copy_from_slice(&bytes[..6]);
        return field;
    }
    field[at..at + bytes.len()].copy_from_slice(bytes);
    field
}

// What a field is once so many of its bytes came.
fn whole_field(opened: &Opened, registers: &Registers, moved: usize, field: [u8; 8]) -> Whole
    ensures { result ≡ whole_of (action_of opened.now.command) (own_home_address registers.now) moved field }
{
    match tables::action_of(opened.command) {
        Action::WriteHomeAddress => {
            let home_address = [field[0], field[1], field[2], field[3], field[4]];
            if moved == 5 && home_address == own_home_address(*registers) {
                Whole::HomeAddress(home_address)
            } else {
                Whole::No
            }
        }
        Action::Format if moved == 8 => Whole::Count(field),
        _ => Whole::No,
    }
}

impl<S: ImageStore> Job<S> {
    // A search compares the bytes.
    #[inline(always)]
    fn search(&mut self, bytes: &[u8], window: Window, so_far: Ordering)
        requires may { MayTake (half_done self.old) bytes.now }
        requires at { self.old.progress.place ≡ held.Search window so_far }
        ensures { Takes self.old bytes.now self.new }
    {
        let so_far = compared(so_far, self.cache.buffer().bytes(), window, bytes);
        search_on(
            &mut self.progress.place,
            behind(window, bytes.len()),
            so_far,
        );
    }

    // A field is collected, and once it came whole the track is changed where that is allowed, or a new record is due that fits.
    #[inline(never)]
    fn collect(&mut self, bytes: &[u8], field: [u8; 8])
        requires may { MayTake (half_done self.old) bytes.now }
        requires at { self.old.progress.place ≡ held.Field field }
        ensures { Takes self.old bytes.now self.new }
    {
        let field = collected(field, self.progress.moved, bytes);
        let moved = self.progress.moved + bytes.len();
        match whole_field(&self.opened, &self.registers, moved, field) {
            Whole::No => self.progress.place = Transfer::Field(field),
            Whole::HomeAddress(home_address) => {
                self.before = Trace::of(self.cache.buffer().bytes());
                self.cache.write_home_address(home_address);
                self.progress.place = Transfer::Filled(
                    Window { start: 5, len: 0 },
                    WrittenArea::HomeAddress,
                );
            }
            Whole::Count(count) => {
                let Some((number, place)) = self.cache.place_for(self.opened.area, count) else {
                    self.progress.place = Transfer::Field(field);
                    return;
                };
                self.progress.place = Transfer::Due(place, number, count);
            }
        }
    }

    // The bytes of an area are replaced: those that came by their own, the others by zeros.
    #[inline(never)]
    fn fill(&mut self, bytes: &[u8], window: Window, no_data: bool)
        requires may { MayTake (half_done self.old) bytes.now }
        requires at { self.old.progress.place ≡ held.Fill window no_data }
        ensures { Takes self.old bytes.now self.new }
    {
        if bytes.is_empty() {
            self.progress.place = Transfer::Fill(window, no_data);
            return;
        }
        // noted first, so that the copy is the last that is done
        self.before = Trace::of(self.cache.buffer().bytes());
        self.progress.place = Transfer::Filled(
            behind(window, bytes.len()),
            WrittenArea::Area(no_data),
        );
        self.cache.replace(window, bytes);
    }

    /// A new record that is due is made with the first bytes of its key and data, however many.
    #[inline(never)]
    pub(crate) fn make(&mut self, bytes: &[u8])
        requires works { Works (half_done self.old) }
        requires due { is_due self.old.progress.place ≡ true }
        requires room { length bytes.now ≤ self.old.progress.left }
        ensures takes { Takes self.old bytes.now self.new }
        ensures filled { self.new.progress.place ≡ made_by self.old.progress.place (length bytes.now) }
    {
        let Transfer::Due(place, number, count) = self.progress.place else {
            unreachable!();
        };
        // noted first, so that the copy is the last that is done
        self.before = Trace::of(self.cache.buffer().bytes());
        self.progress.place = Transfer::Filled(
            behind(place, bytes.len()),
            WrittenArea::Record(number),
        );
        self.cache.format(number, count, place, bytes);
    }

    // More bytes of an area that is being written.
    fn fill_on(&mut self, bytes: &[u8], window: Window, written: WrittenArea)
        requires may { MayTake (half_done self.old) bytes.now }
        requires at { self.old.progress.place ≡ held.Filled window written }
        ensures { Takes self.old bytes.now self.new }
    {
        // noted first, so that the copy is the last that is done
        self.progress.place = Transfer::Filled(behind(window, bytes.len()), written);
        self.cache.put(window.start, bytes);
    }

    // A command that has found its area, and is no search, collects these bytes or writes them.
    // By itself, so that a search, the commonest, is short where it stands.
    #[inline(never)]
    fn collect_or_write(&mut self, bytes: &[u8])
        requires may { MayTake (half_done self.old) bytes.now }
        requires no_search { IsNoSearch self.old.progress.place }
        ensures { Takes self.old bytes.now self.new }
    {
        match self.progress.place {
            Transfer::Field(field) => self.collect(bytes, field),
            Transfer::Fill(window, no_data) => self.fill(bytes, window, no_data),
            Transfer::Due(_, _, _) => self.make(bytes),
            Transfer::Filled(window, written) => self.fill_on(bytes, window, written),
            Transfer::Search(_, _) | Transfer::Sense(_) | Transfer::Read(_, _) => unreachable!(),
        }
    }

    /// A command that has found its area takes these bytes, and the rest have the place that is left.
    #[inline(always)]
    pub(crate) fn absorb(&mut self, bytes: &[u8])
        requires may { MayTake (half_done self.old) bytes.now }
        ensures { Takes self.old bytes.now self.new }
    {
        match self.progress.place {
            Transfer::Search(window, so_far) => self.search(bytes, window, so_far),
            _ => self.collect_or_write(bytes),
        }
    }
}
