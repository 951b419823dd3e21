//! A part of the tests: readers and writers in memory.
#![tactic(auto)]

mod devices;

pub use devices::{EndBehaviour, MemorySink, MemorySource};
