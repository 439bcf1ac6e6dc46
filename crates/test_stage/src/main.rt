//! A stage for the calls of this repository's crates: it reads a line, does one call, and prints a line. It expects nothing
//! and compares nothing. README lists the verbs; `HELP` prints them.
#![tactic(auto)]

mod asking;
mod channel;
mod channels;
mod channels_shown;
mod deck;
mod deck_lines;
mod files;
mod help;
mod shown;
mod stage;
mod streams;
mod verbs;

use crate::stage::Stage;
use anyhow::Result;
use stage_files::Line;
use std::io::{self, BufRead, BufReader};

fn main(rt: HostRuntime) -> Result<()> {
    let mut stage = Stage::new(rt.alloc())?;
    let reader = BufReader::new(rt.alloc(), rt.reader())?;
    for line in reader.lines(rt.alloc()) {
        answer(&rt, &mut stage, line?.as_str().trim())?;
    }
    Ok(())
}

// Prints the answer to a line, if it asks for something.
fn answer(rt: &HostRuntime, stage: &mut Stage, text: &str) -> io::Result<()> {
    if text.is_empty() || text.starts_with('*') {
        return Ok(());
    }
    let Ok(words) = text.split_whitespace().collect::<Vec<&str>>(rt.alloc()) else {
        return println!(rt; "NO out of memory");
    };
    let mut line = Line::new(rt.alloc(), text, words.as_slice());
    stage.answer(rt, &mut line);
    println!(rt; "{}", line.said.text())
}
