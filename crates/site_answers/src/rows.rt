//! Rows of the table.
//!
//! A row is some words with ` | ` between them. A word is the name of a part that is added to the text; a text
//! behind `'`, which is added as it stands; a front and what stands in place of the lines of the last part that
//! begin so, with ` ->` between them; or, behind `? ` and as the last word, what is to be seen of the site. In a text
//! `\n` is the end of a line, and `<3*ab@>` is `ab0ab1ab2`.

use crate::bases::base_of;
use std::alloc::{AllocError, Global};

/// A site text, and what is to be seen of its site.
#[derive(Drop)]
pub struct Row<'a> {
    pub text: String,
    pub part: &'a str,
}

/// Adds the text with the ends of its lines.
fn push_lines(text: &mut String, escaped: &str) -> Result<(), AllocError> {
    for (index, line) in escaped.split("\\n").enumerate() {
        if 0 < index {
            text.push_str("\n")?;
        }
        text.push_str(line)?;
    }
    Ok(())
}

/// Adds the text with this number in place of each `@`.
fn push_numbered(text: &mut String, part: &str, number: &str) -> Result<(), AllocError> {
    for (index, piece) in part.split("@").enumerate() {
        if 0 < index {
            text.push_str(number)?;
        }
        push_lines(text, piece)?;
    }
    Ok(())
}

/// Adds `ab0ab1ab2`, told as `3*ab@`.
fn push_repeated(alloc: Global, text: &mut String, told: &str) -> Result<(), AllocError> {
    let Some((count, part)) = told.split_once("*") else {
        return Ok(());
    };
    for number in 0..count.parse::<u32>().unwrap_or(0) {
        push_numbered(text, part, &format!(in alloc; "{number}")?)?;
    }
    Ok(())
}

/// The text that a row tells so.
fn told_text(alloc: Global, told: &str) -> Result<String, AllocError> {
    let mut text = String::new(alloc);
    let Some((front, rest)) = told.split_once("<") else {
        push_lines(&mut text, told)?;
        return Ok(text);
    };
    let (repeated, back) = rest.split_once(">").unwrap_or((rest, ""));
    push_lines(&mut text, front)?;
    push_repeated(alloc, &mut text, repeated)?;
    push_lines(&mut text, back)?;
    Ok(text)
}

/// The line, or another in place of one that begins so.
fn line_or<'a>(line: &'a str, front: &str, other: &'a str) -> &'a str {
    if line.starts_with(front) { other } else { line }
}

/// The part with another line in place of those that begin so.
fn with_line(alloc: Global, part: &str, front: &str, other: &str) -> Result<String, AllocError> {
    let mut text = String::new(alloc);
    for line in part.lines() {
        text.push_str(line_or(line, front, other))?;
        text.push_str("\n")?;
    }
    Ok(text)
}

/// The part that a word names, or the text that it tells.
fn part_of(alloc: Global, word: &str) -> Result<String, AllocError> {
    match word.strip_prefix("'") {
        None => String::from_str(alloc, base_of(word)),
        Some(told) => told_text(alloc, told),
    }
}

/// The row that a line tells.
pub fn row_of<'a>(alloc: Global, line: &'a str) -> Result<Row<'a>, AllocError> {
    let (told, part) = line.split_once(" | ? ").unwrap_or((line, ""));
    let mut text = String::new(alloc);
    let mut last = String::new(alloc);
    for word in told.split(" | ") {
        if let Some((front, other)) = word.split_once(" ->") {
            let other = told_text(alloc, other.trim_start())?;
            last = with_line(alloc, &last, front, &other)?;
        } else {
            text.push_str(&last)?;
            last = part_of(alloc, word)?;
        }
    }
    text.push_str(&last)?;
    Ok(Row { text, part })
}
