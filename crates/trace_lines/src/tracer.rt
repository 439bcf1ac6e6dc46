//! Who watches a channel, and writes what it sees.

use crate::seen::{Shown, Work, ending_of};
use crate::trace::Trace;
use ckd_image::ImageStore;
use s360_channel::{Channel, DriveView};
use s360_trace::{Moment, Watcher};
use std::alloc::{AllocError, Global};
use std::io::Write;
use trace_kept::{TraceFault, TraceOutput, TracedLines};

/// Writes a trace of what it sees. A write that fails is its last, and is told at the end; what is watched goes on.
#[derive(Drop)]
pub struct Tracer<W: Write + Drop> {
    trace: Trace,
    output: TraceOutput<W>,
}

impl<W: Write + Drop> Tracer<W> {
    /// A trace of which these lines go to a writer. All memory that it takes is taken here.
    ///
    /// # Errors
    ///
    /// There is no memory for the lines that it keeps.
    pub fn new(alloc: Global, writer: W, lines: TracedLines) -> Result<Tracer<W>, AllocError> {
        Ok(Tracer {
            trace: Trace::new(lines.with_answers),
            output: TraceOutput::new(alloc, writer, lines)?,
        })
    }

    /// Ends the trace, with the line of a word that is still at work, and gives the writer back.
    ///
    /// # Errors
    ///
    /// A write failed, or the last flush: the trace is not whole.
    pub fn into_writer(self) -> Result<W, TraceFault> {
        let mut tracer = self;
        tracer.trace.still_runs();
        tracer.tell(false);
        let Tracer { trace: _, output } = tracer;
        output.into_writer()
    }

    // Hands on the lines of a look, which may be at a unit.
    fn tell(&mut self, at_unit: bool) {
        if !at_unit {
            self.output.event();
        }
        if self.trace.starts {
            self.output.starts();
        }
        self.output.take(self.trace.text.as_str(), at_unit);
        if self.trace.fails {
            self.output.program_fails();
        }
        if !self.trace.text.is_whole {
            self.output.lacks();
        }
        self.trace.text.clear();
    }
}

impl<W: Write + Drop> Watcher for Tracer<W> {
    fn look<S: ImageStore>(&mut self, moment: Moment, channel: &Channel<S>)
        ensures { Unit {0} }
    {
        let shown = shown_of(channel);
        let drive = drive_of(channel, self.trace.wants(moment, &shown));
        self.trace.look(moment, &shown, drive, channel.storage());
        self.tell(matches!(moment, Moment::Unit));
    }
}

// What a channel shows of itself.
fn shown_of<'a, S: ImageStore>(channel: &'a Channel<S>) -> Shown<'a> {
    match (channel.program(), channel.drive_at_work()) {
        (Some(program), Some(drive)) => Shown {
            program: Some(program),
            work: Some(Work::of(drive)),
            ended: None,
        },
        _ => Shown {
            program: None,
            work: None,
            ended: ending_of(channel.state().subchannel),
        },
    }
}

fn drive_of<S: ImageStore>(channel: &Channel<S>, device: Option<u8>) -> Option<DriveView> {
    channel.drive(device?)
}
