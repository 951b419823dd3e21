//! Tests of objects in segments and of their views, of regions, of the check of images and of dumps, by public calls
//! that no script makes. What scripts and images say is in the row files of `rows`.
#![tactic(auto)]

#[cfg(test)]
mod bench;
#[cfg(test)]
mod checks;
#[cfg(test)]
mod container_tests;
#[cfg(test)]
mod dump_refusal_tests;
#[cfg(test)]
mod dump_tests;
#[cfg(test)]
mod dumps;
#[cfg(test)]
mod index_tests;
#[cfg(test)]
mod item_tests;
#[cfg(test)]
mod map_tests;
#[cfg(test)]
mod memory_rows;
#[cfg(test)]
mod moving_tests;
#[cfg(test)]
mod number_tests;
#[cfg(test)]
mod region_tests;
#[cfg(test)]
mod regions;
#[cfg(test)]
mod resizing_tests;
#[cfg(test)]
mod segments;
#[cfg(test)]
mod view_tests;
