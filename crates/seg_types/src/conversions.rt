//! Conversions between names, keys and values.
ghost use Rattle.std.specs.Prelude.{◌≡◌, MatchResult, pos, true, false};
ghost use Rattle.seg_types.specs.declared.kinds.ScalarKind.TheVariants as kind;
ghost use Rattle.seg_types.specs.Keys.{index_key_seen, key_seen, name_seen, new_key_seen};
ghost use Rattle.seg_types.specs.Kinds.{truth_number};
ghost use Rattle.seg_types.specs.Names.{ByName, is_text_name};
ghost use Rattle.seg_types.specs.Values.{ConvertsTo};

use crate::keys::{IndexKey, Key, NewKey};
use crate::names::{BadName, Name};
use crate::refusals::Refusal;
use crate::values::ScalarValue;

impl<'a> TryFrom<&'a [u8]> for Name<'a> {
    type Error = BadName;

    ghost try_from_gives = { λ bytes made.
        MatchResult made (λ name. (is_text_name bytes.now ≡ true) × (name_seen name ≡ bytes.now)) (λ _.
        is_text_name bytes.now ≡ false) };

    fn try_from(bytes: &'a [u8]) -> Result<Name<'a>, BadName> {
        match Name::new(bytes) {
            Some(name) => Ok(name),
            None => Err(BadName),
        }
    }
}

impl<'a> TryFrom<&'a str> for Name<'a> {
    type Error = BadName;

    ghost try_from_gives = { λ text made.
        MatchResult made (λ name. (is_text_name text.now ≡ true) × (name_seen name ≡ text.now)) (λ _.
        is_text_name text.now ≡ false) };

    fn try_from(text: &'a str) -> Result<Name<'a>, BadName> {
        match Name::new(text.as_bytes()) {
            Some(name) => Ok(name),
            None => Err(BadName),
        }
    }
}

impl<'a> From<Name<'a>> for Key<'a> {
    ghost from_gives = { λ name key. key_seen key ≡ ByName (name_seen name) };

    fn from(name: Name<'a>) -> Key<'a> {
        Key::Name(name)
    }
}

impl<'a> From<Name<'a>> for NewKey<'a> {
    ghost from_gives = { λ name key. new_key_seen key ≡ ByName (name_seen name) };

    fn from(name: Name<'a>) -> NewKey<'a> {
        NewKey::Name(name)
    }
}

impl<'a> From<Name<'a>> for IndexKey<'a> {
    ghost from_gives = { λ name key. index_key_seen key ≡ ByName (name_seen name) };

    fn from(name: Name<'a>) -> IndexKey<'a> {
        IndexKey::Name(name)
    }
}

impl<'a> From<IndexKey<'a>> for Key<'a> {
    ghost from_gives = { λ entry key. key_seen key ≡ index_key_seen entry };

    fn from(entry: IndexKey<'a>) -> Key<'a> {
        entry.into_key()
    }
}

impl<'a> From<IndexKey<'a>> for NewKey<'a> {
    ghost from_gives = { λ entry key. new_key_seen key ≡ index_key_seen entry };

    fn from(entry: IndexKey<'a>) -> NewKey<'a> {
        entry.into_new_key()
    }
}

impl TryFrom<ScalarValue> for bool {
    type Error = Refusal;

    ghost try_from_gives = { λ from taken. ConvertsTo kind.Bool truth_number from taken };

    fn try_from(from: ScalarValue) -> Result<bool, Refusal> {
        match from {
            ScalarValue::Bool(truth) => Ok(truth),
            _ => Err(Refusal::WrongKind),
        }
    }
}

impl TryFrom<ScalarValue> for u8 {
    type Error = Refusal;

    ghost try_from_gives = { λ from taken. ConvertsTo kind.U8 pos from taken };

    fn try_from(from: ScalarValue) -> Result<u8, Refusal> {
        match from {
            ScalarValue::U8(number) => Ok(number),
            _ => Err(Refusal::WrongKind),
        }
    }
}

impl TryFrom<ScalarValue> for i32 {
    type Error = Refusal;

    ghost try_from_gives = { λ from taken. ConvertsTo kind.I32 (λ number. number) from taken };

    fn try_from(from: ScalarValue) -> Result<i32, Refusal> {
        match from {
            ScalarValue::I32(number) => Ok(number),
            _ => Err(Refusal::WrongKind),
        }
    }
}

impl TryFrom<ScalarValue> for i64 {
    type Error = Refusal;

    ghost try_from_gives = { λ from taken. ConvertsTo kind.I64 (λ number. number) from taken };

    fn try_from(from: ScalarValue) -> Result<i64, Refusal> {
        match from {
            ScalarValue::I64(number) => Ok(number),
            _ => Err(Refusal::WrongKind),
        }
    }
}

impl TryFrom<ScalarValue> for u64 {
    type Error = Refusal;

    ghost try_from_gives = { λ from taken. ConvertsTo kind.U64 pos from taken };

    fn try_from(from: ScalarValue) -> Result<u64, Refusal> {
        match from {
            ScalarValue::U64(number) => Ok(number),
            _ => Err(Refusal::WrongKind),
        }
    }
}
