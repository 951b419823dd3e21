//! Tests of the layers below a segment, over their public calls: from raw memory to vectors and maps in a heap; and of
//! the words of the command language.
#![tactic(auto)]

#[cfg(test)]
mod best_fit_tests;
#[cfg(test)]
mod block_tags_tests;
#[cfg(test)]
mod checks;
#[cfg(test)]
mod link_tree_tests;
#[cfg(test)]
mod node_tables;
#[cfg(test)]
mod offset_link_tests;
#[cfg(test)]
mod raw_region_stream_tests;
#[cfg(test)]
mod raw_region_tests;
#[cfg(test)]
mod seg_map_tests;
#[cfg(test)]
mod seg_types_tests;
#[cfg(test)]
mod seg_vector_tests;
#[cfg(test)]
mod segment_lang_tests;
#[cfg(test)]
mod ticket;
