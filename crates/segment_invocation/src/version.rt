//! Which program this is.

/// The line with the name and the version of the program. `package` writes the state of the crates that was proved, and
/// the logic of the prover, over the dashes.
pub const VERSION: &str = "segment 0.9.0 (state ----------------, logic ----------------)\n";
