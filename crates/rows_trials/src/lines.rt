//! The lines of a row file.

use std::alloc::{AllocError, Global};

/// A line that is neither empty nor a remark: where it stands in the file, its first word, and what stands after the
/// blank.
#[derive(Clone, Copy)]
pub struct Line<'a> {
    pub number: usize,
    pub token: &'a str,
    pub rest: &'a str,
    /// All of it.
    pub text: &'a str,
}

impl Line<'_> {
    /// Tells whether it begins an image, a row, or a table of images, of places or of requests.
    pub fn begins_item(&self) -> bool {
        let is_image = self.token == "image" && self.rest.contains(' ');
        is_image || ["row", "damaged", "places", "requests"].contains(&self.token)
    }

    /// Tells whether it begins a part of a row.
    pub fn begins_part(&self) -> bool {
        ["again", "read", "alone", "migrate"].contains(&self.token)
    }

    /// Tells whether it says what a row begins with.
    pub fn is_beginning(&self) -> bool {
        ["size", "image"].contains(&self.token)
    }

    /// Tells whether it says a change of an image.
    pub fn is_change(&self) -> bool {
        ["word", "at", "first", "more"].contains(&self.token)
    }
}

/// Returns the lines of a file.
pub fn lines_of(alloc: Global, text: &str) -> Result<Vec<Line<'_>>, AllocError> {
    let mut lines = Vec::new(alloc);
    for (index, text) in text.lines().enumerate() {
        if !text.is_empty() && !text.starts_with('#') {
            let (token, rest) = text.split_once(' ').unwrap_or((text, ""));
            let number = index.saturating_add(1);
            lines.push(Line {
                number,
                token,
                rest,
                text,
            })?;
        }
    }
    Ok(lines)
}
