//! Commands. The types hold values or refer to the line, and allocate nothing.

use crate::forms::CommandForm;
use crate::lists::{Literals, TextLiterals};
use crate::literals::Literal;
use crate::tokens::Quoted;
use crate::values::LiteralValues;
use seg_types::{Handle, IndexKey, Key, Kind, LineError, NewKey, ScalarKind, ScalarValue};

/// The initial contents of an object.
#[derive(Drop)]
pub enum Content<'a> {
    /// Scalars of one value.
    Scalars {
        /// The value.
        value: ScalarValue,
        /// The number of values, from 1 to 1048576.
        count: u32,
    },
    /// The elements of a vector.
    Elements(LiteralValues<'a>),
    /// The bytes of a string.
    String(Quoted<'a>),
    /// The elements of a vector of strings.
    Strings(TextLiterals<'a>),
    /// A map without pairs.
    NoPairs {
        /// The kind of its keys.
        key: ScalarKind,
        /// The kind of its values.
        value: ScalarKind,
    },
}

/// A command that is executed once the whole line is read. [`CommandForm`] has the other commands.
#[derive(Drop)]
pub enum Operation<'a> {
    /// Make an object.
    Construct {
        /// The key that it gets.
        key: NewKey<'a>,
        /// The initial contents.
        content: Content<'a>,
    },
    /// Make an array of different values.
    ConstructIt {
        /// The key that it gets.
        key: NewKey<'a>,
        /// The number of values, from 1 to 1048576.
        count: u32,
        /// A kind, a count, a key and as many values.
        values: LiteralValues<'a>,
    },
    /// Print the handle and the count of an object of a kind.
    Find {
        /// The kind.
        kind: Kind,
        /// The object's entry.
        key: IndexKey<'a>,
    },
    /// Print the handle and the count of an object, which is made if there is none.
    FindOrConstruct {
        /// The object's entry.
        key: IndexKey<'a>,
        /// The initial contents.
        content: Content<'a>,
    },
    /// Destroy the object of an entry.
    Destroy(IndexKey<'a>),
    /// Destroy the object of a handle.
    DestroyPtr(Handle),
    /// Print an object's kind and value.
    Show(Key<'a>),
    /// Print class, name, kind, count and handle of an object.
    Info(Key<'a>),
    /// Set one element: the object, the index from 0 on, and the value.
    Set(Key<'a>, u64, Literal<'a>),
    /// Put an element into a vector: the vector, where it stands then, counted from 0, and the new element.
    Insert(Key<'a>, u64, Literal<'a>),
    /// Take an element out of a vector: the vector, and which element, counted from 0.
    Erase(Key<'a>, u64),
    /// Reserve capacity: the object, and the number of elements.
    Reserve(Key<'a>, u64),
    /// Shrink the capacity of an object to its length.
    Shrink(Key<'a>),
    /// Take all elements out of an object.
    Clear(Key<'a>),
    /// Put values in the place of all elements of an object.
    Assign {
        /// The object.
        key: Key<'a>,
        /// The new elements.
        values: Literals<'a>,
    },
    /// Add bytes at the end of a string.
    Append {
        /// The string.
        key: Key<'a>,
        /// The bytes.
        text: Quoted<'a>,
    },
    /// Print the value that stands at a key of a map: the map, and the pair's key.
    Lookup(Key<'a>, Literal<'a>),
    /// Take a pair out of a map: the map, and the pair's key.
    Remove(Key<'a>, Literal<'a>),
    /// Print the named objects by name.
    ListNames,
    /// Print the unique objects by kind.
    ListKinds,
    /// Print the blocks and gaps by offset.
    Blocks,
    /// Print the number of free bytes.
    Free,
    /// Print the number of named objects.
    NumNamed,
    /// Print the number of unique objects.
    NumUnique,
    /// Make room in the index of names for as many entries.
    ReserveNamed(u64),
    /// Make room in the index of unique kinds for as many entries.
    ReserveUnique(u64),
    /// Shrink the capacities of the indexes to their counts.
    ShrinkIndexes,
    /// Make the free bytes zero.
    ZeroFree,
    /// Print whether the segment is whole.
    Sanity,
    /// Print whether no block is in use.
    AllDeallocated,
}

/// How a line begins.
#[derive(Drop)]
pub enum LineStart<'a> {
    /// With nothing: it is a comment or has blanks only, and has no answer.
    Nothing,
    /// A command word with its form, and the arguments, which are not read yet.
    Form(CommandForm, &'a [u8]),
    /// With no command word, or it is too long.
    Wrong(LineError),
}

/// The meaning of a line.
#[derive(Drop)]
pub enum Reading<'a> {
    /// Nothing: it is a comment or has blanks only, and has no answer.
    Nothing,
    /// A command: the form of its word, and its arguments, which have the form.
    Command(CommandForm, &'a [u8]),
    /// No command.
    Wrong(LineError),
}
