//! What is left out of a salvage, and why.
ghost use Rattle.std.specs.Prelude.{◌≡◌, ◌++◌, ◌∷◌, [], OnOk};
ghost use Rattle.segment_salvage.specs.Losses.{cause_of};
ghost use Rattle.segment_salvage.specs.declared.losses.Unbuilt.TheVariants.{Lost as IsLost, OutOfMemory as IsRefused};

use seg_types::Refusal;
use std::alloc::AllocError;

/// Why an object is left out.
#[derive(Clone, Copy, Debug, PartialEq, Eq)]
pub enum LossCause {
    /// An index or an entry of it leads to no object.
    BadIndex,
    /// Its kind, class, count or name is wrong.
    BadHead,
    /// Its value, elements or pairs are wrong, or lie outside the image.
    BadValue,
    /// Its value has more bytes than may still be read: objects of the image claim bytes that others have.
    TooMuch,
    /// An object with the same name or unique kind comes before it.
    Repeated,
    /// The new segment has no space for it.
    NoSpace,
}

/// An object that is left out, or an entry of an index or an index without objects.
#[derive(Clone, Copy, Debug, PartialEq, Eq)]
pub struct Loss {
    /// The offset of its payload in the image, or of the entry or the index.
    pub at: u64,
    /// The length of its name in the image, which begins 16 bytes behind; 0 if it has none that is right.
    pub name_len: u64,
    /// Why it is left out.
    pub cause: LossCause,
}

/// Appends a loss.
pub(crate) fn lose(
    losses: &mut Vec<Loss>,
    at: u64,
    name_len: u64,
    cause: LossCause,
) -> Result<(), AllocError>
    ensures { OnOk result (losses.new.items
        ≡ losses.old.items ++ (record { at = at; name_len = name_len; cause = cause } ∷ [])) }
{
    losses.push(Loss {
        at,
        name_len,
        cause,
    })?;
    Ok(())
}

/// Why an object is not made.
#[derive(Debug, Drop)]
pub(crate) enum Unbuilt {
    /// It is left out.
    Lost(LossCause),
    /// Memory is refused.
    OutOfMemory(AllocError),
}

impl From<AllocError> for Unbuilt {
    ghost from_gives = { λ refused unbuilt. unbuilt ≡ IsRefused refused };

    fn from(refused: AllocError) -> Unbuilt {
        Unbuilt::OutOfMemory(refused)
    }
}

impl From<Refusal> for Unbuilt {
    ghost from_gives = { λ refusal unbuilt. unbuilt ≡ IsLost (cause_of refusal) };

    fn from(refusal: Refusal) -> Unbuilt {
        Unbuilt::Lost(match refusal {
            Refusal::NoSpace => LossCause::NoSpace,
            Refusal::Exists => LossCause::Repeated,
            _ => LossCause::BadValue,
        })
    }
}
