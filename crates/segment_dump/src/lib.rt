//! Segments as text: all objects of a segment, line by line, for a person to read and to compare. `docs/DUMP.md` has
//! the form.
#![tactic(auto)]

mod building;
mod capacities;
mod compare_sink;
mod comparing;
mod counting;
mod dumping;
mod entries;
mod faults;
mod filling;
mod filling_texts;
mod json;
mod json_texts;
mod layouts;
mod line_columns;
mod loading;
mod needs;
mod notes;
mod objects;
mod prefix_reading;
mod saying;
mod texts;
mod theorems;
mod tokens;

pub use capacities::dump_with_capacities;
pub use comparing::compare;
pub use counting::{Count, count_dump};
pub use dumping::dump;
pub use faults::{BadDump, DumpFault, LoadError, LoadRefused};
pub use json::dump_json;
pub use loading::load;
pub use needs::Needs;
pub use notes::without_notes;
pub use saying::declared_size;
pub use theorems::{dumps_tell_objects, notes_are_left_out, segments_have_room};
