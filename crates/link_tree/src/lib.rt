//! Ordered red-black trees over links that the caller stores.
//!
//! The caller implements `Nodes`, and `NodesMut` to change the tree: nodes are `u64`, links `Option<u64>`. No call
//! creates, copies or moves a node, or allocates. Each call returns its number of steps. A step is a visit of a node,
//! with all reads and writes of its fields until the call goes to another node. The crate implements the red-black
//! trees of Cormen, Leiserson, Rivest and Stein, Introduction to Algorithms, chapter 13. `insert` recolours as they do
//! and rotates as Okasaki does; `remove` follows Filliâtre and Letouzey.
#![tactic(auto)]

mod change_points;
mod checking;
mod cursor;
mod descending;
mod insertion;
mod listing;
mod nodes;
mod references;
mod removing;
mod rotation;
mod search_adaptors;
mod searching;
mod theorems;
mod walking;

pub use change_points::{
    EntryPoint, PathEnd, RemovePoint, find_entry, find_path_end, find_remove_point,
};
pub use checking::{CheckedTree, check};
pub use insertion::{TreeChange, insert, insert_at};
pub use listing::{Listing, list_nodes_from};
pub use nodes::{Nodes, NodesMut};
pub use removing::{remove, remove_at};
pub use searching::{SearchResult, find_first_not_before, find_last, find_last_before};
pub use theorems::{law_of_height, law_of_reading};
pub use walking::walk;
