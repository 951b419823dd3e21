//! The calls of a segment for callers that learn the kind of an object at run time. A caller's value, a literal of a
//! script or a scalar, is converted to the object's kind.
//!
//! The calls on a located object have conditions: the object is there, it is of the kinds of the scalars and kinds that
//! the call takes, and the segment is open for writing if the call changes it. The calls by key have none of them.
#![tactic(auto)]

mod contents;
mod elements;
mod pairs;

pub use contents::{Layout, count_of, put_content};
pub use elements::{
    InsertSpot, add, construct_array, erase, get, get_element, insert_scalar, object_to_change,
    read_elements, set, set_array_element,
};
pub use pairs::{erase_pair, first_pair, insert_pair, least, look_up, next_pair, put_pair};
