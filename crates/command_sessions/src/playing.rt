//! Sessions played from their first line to the last.

use crate::session::Session;
use crate::stops::{Stop, at_line};
use std::alloc::{AllocError, Global};

/// Plays a session, which may stand in several texts, one behind the other. Gives the first step
/// that came out otherwise, with its line, what was expected and what came; where all came as it
/// says, the text is empty.
pub fn play(alloc: Global, texts: &[&str]) -> Result<String, AllocError> {
    match play_all(alloc, texts) {
        Ok(()) => Ok(String::new(alloc)),
        Err(Stop::Otherwise(text)) => Ok(text),
        Err(Stop::NoMemory) => Err(AllocError),
    }
}

/// Plays the texts in order.
fn play_all(alloc: Global, texts: &[&str]) -> Result<(), Stop> {
    let mut session = Session::new(alloc);
    for text in texts {
        play_text(alloc, &mut session, text)?;
    }
    session.end()
}

/// Plays a text line by line.
fn play_text(alloc: Global, session: &mut Session, text: &str) -> Result<(), Stop> {
    let mut number = 0usize;
    for line in text.lines() {
        number = number.saturating_add(1);
        if let Err(stop) = session.play_line(line) {
            return Err(at_line(alloc, number, line, stop));
        }
    }
    Ok(())
}
