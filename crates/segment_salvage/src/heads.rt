//! Heads of objects in an image.
ghost use Rattle.std.specs.Prelude.{◌≡◌, ◌+◌, ◌*◌, ◌^◌, IfOk, IfSome, length};
ghost use Rattle.seg_types.specs.Keys.{new_key_seen};
ghost use Rattle.seg_types.specs.Kinds.{class_code};
ghost use Rattle.segment_manager.specs.{Directory.padded, Plan.class_of, Plan.name_of};
ghost use Rattle.segment_manager.specs.objects.NewObjects.{IsOfKind};
ghost use Rattle.segment_salvage.specs.Standing.{HasPart};
ghost use Rattle.segment_salvage.specs.Steps.{IsHead, IsKeyIn};

use crate::bytes::{part, word};
use seg_types::{Kind, Name, NewKey};

/// The length of a head without its name.
const HEAD_LEN: u64 = 16;

/// What is above the low half of a word.
const HIGH: u64 = 4294967296;

/// The head of an object.
#[derive(Clone, Copy)]
pub(crate) struct Head<'a> {
    /// The kind.
    pub kind: Kind,
    /// The count.
    pub count: u64,
    /// The key.
    pub key: NewKey<'a>,
    /// The offset of the value.
    pub value: u64,
}

impl Head<'_> {
    /// Returns the length of the name, and 0 if there is none.
    pub(crate) fn name_len(&self) -> u64 {
        match self.key {
            NewKey::Name(name) => name.as_bytes().len() as u64,
            _ => 0,
        }
    }
}

/// Returns the head at `at`, if there is one.
pub(crate) fn head_at(image: &[u8], at: u64) -> Option<Head<'_>>
    ensures head { IfSome result (λ head. IsHead image.now at head.kind (new_key_seen head.key) head.value) }
    ensures key { IfSome result (λ head. IsOfKind (new_key_seen head.key) head.kind) }
{
    let first = word(image, at)?;
    let kind = Kind::from_code((first % HIGH) as u32)?;
    let name_at = at.checked_add(HEAD_LEN)?;
    let second = word(image, at + 8)?;
    let key = key_at(image, name_at, second, kind)?;
    let value = name_at.checked_add((second % HIGH + 7) / 8 * 8)?;
    Some(Head {
        kind,
        count: first / HIGH,
        key,
        value,
    })
}

/// Returns the key of an object with these class and length of the name, if there is one.
fn key_at(image: &[u8], name_at: u64, second: u64, kind: Kind) -> Option<NewKey<'_>>
    ensures key { IfSome result (λ key. IsKeyIn image.now name_at second (new_key_seen key)) }
    ensures kind { IfSome result (λ key. IsOfKind (new_key_seen key) kind) }
{
    let len = second % HIGH;
    match second / HIGH {
        0 if len == 0 => Some(NewKey::Anonymous),
        1 => Some(NewKey::Name(Name::new(part(image, name_at, len)?)?)),
        2 if len == 0 => Some(NewKey::Unique(kind)),
        _ => None,
    }
}
