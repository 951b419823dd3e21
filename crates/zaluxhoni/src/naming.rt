//! Names from texts.
ghost use Rattle.std.specs.Prelude.{◌≡◌, false, MatchResult};
ghost use Rattle.seg_types.specs.Keys.{name_seen};
ghost use Rattle.seg_types.specs.Names.{is_text_name};

use seg_types::{BadName, Name};

/// Returns the name that a text is: objects are made under it, found, read, changed and destroyed by it.
///
/// # Errors
///
/// `BadName` if the text is empty, has more than 255 bytes, or has a control character.
pub fn named(text: &str) -> Result<Name<'_>, BadName>
    ensures { MatchResult result (λ name. name_seen name ≡ text.now) (λ e. is_text_name text.now ≡ false) }
{
    match Name::new(text.as_bytes()) {
        Some(name) => Ok(name),
        None => Err(BadName),
    }
}
