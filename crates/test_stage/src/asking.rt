//! What a channel shows.

use crate::channel::Disks;
use crate::shown::{say_drive, say_image, say_state, say_view};
use crate::stage::{NO_CHANNEL, Stage};
use stage_drives::{say_key, say_peek, say_registers};
use stage_files::{Line, Said, yes};

/// What a channel is asked.
#[derive(Clone, Copy)]
pub(crate) enum Asks {
    Peek,
    Key,
    State,
    Pending,
    View,
    Registers,
    Unit,
    Image,
}

impl Stage {
    /// Asks the channel.
    pub(crate) fn ask(&self, asks: Asks, line: &mut Line) {
        let Some(channel) = &self.channel else {
            return line.said.no(NO_CHANNEL);
        };
        match asks {
            Asks::Peek => say_peek(channel.peek(line.wide(0), line.wide(1)), &mut line.said),
            Asks::Key => say_key(channel.key(line.wide(0)), &mut line.said),
            Asks::Unit => say_drive(channel.drive(line.byte(0)), &mut line.said),
            Asks::Image => say_image(channel.image(line.byte(0)), &mut line.said),
            asks => show(channel, asks, &mut line.said),
        }
    }
}

// What needs no operand.
fn show(channel: &Disks, asks: Asks, said: &mut Said) {
    match asks {
        Asks::State => say_state(&channel.state(), said),
        Asks::Pending => said.answer("PENDING", &[yes(channel.is_pending())]),
        Asks::View => say_view(channel.program(), said),
        _ => show_registers(channel, said),
    }
}

fn show_registers(channel: &Disks, said: &mut Said) {
    match channel.drive_at_work() {
        Some(drive) => {
            said.put("REGISTERS");
            say_registers(drive.registers(), said);
        }
        None => said.put("REGISTERS NONE"),
    }
}
