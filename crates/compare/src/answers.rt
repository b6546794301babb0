// The text of a run: its refusal, and each call with its answer.
use crate::sides::Outcome;
use board_text::text::{AnswerText, CallText};
use std::io;
use std::io::Write;

// A line for the refusal, if there is one, then a line for each event.
pub fn write_run(text: &mut Vec<u8>, side: &str, outcome: &Outcome) -> io::Result<()> {
    if let Some(report) = outcome.refusal {
        writeln!(text, "{side} refused: {report}")?;
    }
    for (number, event) in outcome.events.iter().enumerate() {
        writeln!(
            text,
            "{side} {number} {} {}",
            CallText(event.call),
            AnswerText(event.answer)
        )?;
    }
    Ok(())
}
