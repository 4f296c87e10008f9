//! Sample plants, with some of their lines edited.
use crate::rows::cut;
use dp_plant::{Plant, PlantFault, plant_of};
use std::alloc::{AllocError, Global};

/// The plant of a file with these lines.
pub fn plant_with(alloc: Global, lines: &[&str]) -> Result<Plant, PlantFault> {
    edited(alloc, lines, "")
}

/// The plant of a file with some of its lines edited. The edits are parted by `;`, each has the number of a line, from 0, and behind a
/// space what the line is to be.
pub fn edited(alloc: Global, lines: &[&str], edits: &str) -> Result<Plant, PlantFault> {
    match edited_text(alloc, lines, edits) {
        Ok(text) => plant_of(alloc, text.as_bytes()),
        Err(_) => Err(PlantFault::Memory),
    }
}

/// The text of a file with some of its lines edited, up to thirty-two of them.
pub fn edited_text(alloc: Global, lines: &[&str], edits: &str) -> Result<String, AllocError> {
    let mut text = String::new(alloc);
    for (number, line) in lines.iter().enumerate() {
        text.push_str(edited_line(number, edits).unwrap_or(*line))?;
        text.push('\n')?;
    }
    Ok(text)
}

/// What a line is to be, by the first thirty-two edits.
fn edited_line(number: usize, edits: &str) -> Option<&str> {
    let mut rest = edits;
    for _ in 0..32 {
        let (edit, behind) = cut(rest, ';');
        let (at, line) = cut(edit, ' ');
        if at.parse::<usize>().ok() == Some(number) {
            return Some(line);
        }
        rest = behind;
    }
    None
}
