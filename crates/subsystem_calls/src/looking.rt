//! A look at a channel.

ghost use Rattle.std.specs.Prelude.{◌≡◌, ◌≤◌, is_some, length, nat_lt, IfOk, OnErr};
ghost use Rattle.s360_channels.specs.Channels.{numbered};
ghost use Rattle.subsystem_calls.specs.Looks.{Puts, fault_of, is_moment, why_not};

use crate::fault::LookFault;
use crate::happened::{Happened, what_happened};
use crate::told::ToldMoment;
use ckd_image::ImageStore;
use s360_channel::DriveView;
use s360_channels::Selectors;
use s360_storage::MainStorage;
use s360_trace::Moment;
use trace_lines::{KeptTrace, Shown, Trace, Work, ending_of};
use trace_words::{ROOM, Text};

/// Looks at the channel of a moment for a trace that is kept as these numbers, and puts the lines that tell of it to the front of
/// these bytes; how many bytes the lines have. Lines that have more than `ROOM` bytes, as none are known to, are told to be lost.
///
/// # Errors
///
/// `NoChannel`, `BadMoment`, and `NoRoom`, where there is room for fewer bytes than `ROOM`, in this order. Nothing has changed.
pub fn look<S: ImageStore, M: MainStorage>(
    trace: &mut KeptTrace,
    channels: &Selectors<S>,
    storage: &M,
    told: &ToldMoment,
    lines: &mut [u8],
) -> Result<usize, LookFault>
    ensures refused { fault_of result ≡ why_not (is_some (numbered told.now.channel channels.now.channels)) (is_moment told.now)
        (nat_lt (length lines.old) 2048) }
    ensures put { IfOk result (λ n. Puts n lines.old lines.new) }
    ensures kept { OnErr result (trace.new ≡ trace.old) }
    ensures stays { OnErr result (lines.new ≡ lines.old) }
{
    if !channels.has(told.channel) {
        return Err(LookFault::NoChannel);
    }
    if !told.is_moment() {
        return Err(LookFault::BadMoment);
    }
    if lines.len() < ROOM {
        return Err(LookFault::NoRoom);
    }
    let mut seen = Trace::of(trace);
    see(&mut seen, channels, storage, told);
    *trace = seen.kept();
    Ok(put(seen.told(), lines))
}

// Puts lines to the front of these bytes; or a line that tells that they are lost.
fn put(told: &Text, lines: &mut [u8]) -> usize
    requires { 2048 ≤ length lines.old }
    ensures { Puts result lines.old lines.new }
{
    if told.is_whole {
        return told.put_into(lines);
    }
    let mut lost = Text::new();
    lost.line(&"lines are lost: those of one look have more than 2,048 bytes");
    lost.put_into(lines)
}

fn see<S: ImageStore, M: MainStorage>(
    trace: &mut Trace,
    channels: &Selectors<S>,
    storage: &M,
    told: &ToldMoment,
) {
    let number = told.channel;
    match what_happened(told, storage) {
        Happened::Before(event) => look_at(
            trace,
            Moment::Before(&event),
            channels,
            number,
            storage,
        ),
        Happened::Unit => look_at(trace, Moment::Unit, channels, number, storage),
        Happened::Behind(event, answer) => look_at(
            trace,
            Moment::Behind(&event, &answer),
            channels,
            number,
            storage,
        ),
        Happened::End => trace.still_runs(),
    }
}

fn look_at<S: ImageStore, M: MainStorage>(
    trace: &mut Trace,
    moment: Moment,
    channels: &Selectors<S>,
    number: u8,
    storage: &M,
) {
    let shown = shown_of(channels, number);
    let drive = drive_of(channels, number, trace.wants(moment, &shown));
    trace.look(moment, &shown, drive, storage);
}

// What a channel shows of itself.
fn shown_of<'a, S: ImageStore>(channels: &'a Selectors<S>, number: u8) -> Shown<'a> {
    match (channels.program(number), channels.drive_at_work(number)) {
        (Some(program), Some(drive)) => Shown {
            program: Some(program),
            work: Some(Work::of(drive)),
            ended: None,
        },
        _ => Shown {
            program: None,
            work: None,
            ended: match channels.state(number) {
                Some(view) => ending_of(view.subchannel),
                None => None,
            },
        },
    }
}

fn drive_of<S: ImageStore>(
    channels: &Selectors<S>,
    number: u8,
    device: Option<u8>,
) -> Option<DriveView> {
    channels.drive(u16::from_be_bytes([number, device?]))
}
