//! The types that the layers above the heap share: kinds of values, values, keys of objects, errors and commands.
#![tactic(auto)]

mod by_kind;
mod conversions;
mod key_texts;
mod keys;
mod kinds;
mod names;
mod plain;
mod refusals;
mod scalars;
mod texts;
pub mod theorems;
mod values;
mod written;

pub use key_texts::is_bare_name;
pub use keys::{Handle, IndexKey, Key, NewKey};
pub use kinds::{Class, Kind, MAX_ARRAY_LEN, ScalarKind};
pub use names::{BadName, MAX_NAME_LEN, Name, is_name};
pub use plain::{MAX_SPELLING_LEN, Plain, SHORT_SPELLING_LEN};
pub use refusals::{LineError, Refusal};
pub use scalars::Scalar;
pub use values::ScalarValue;
pub use written::{WrittenValue, pair_of, truth_as, whole_as};
