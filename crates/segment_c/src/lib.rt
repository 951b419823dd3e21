//! A segment for programs in C, C++ and Python: the functions of `c/zaluxhoni.h`. Each is a call of the library, with
//! its clauses at the segment that a handle has before and after; a closed handle and what C passes wrongly are codes,
//! and change nothing.
#![tactic(auto)]

mod calls;
mod changes;
mod codes;
mod elements;
mod images;
mod keys;
mod lending;
mod lists;
mod logs;
mod maps;
mod message;
mod objects;
mod pair_series;
mod ranges;
mod reading;
mod resizing;
mod rights;
mod slices;
mod slot;
mod storage;
mod strings;
mod transactions;
mod values;
mod vectors;
mod views;

pub use slot::Slot;
