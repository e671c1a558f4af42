//! What no clause says, and rows of what the calls write. `tools/examples` runs the examples of doc comments.
mod arguments;
mod bit_masks;
mod borders;
mod classifiers;
mod memory;
mod messages;
mod numbers;
mod rationed;
mod records;
mod rows;
mod runs;
mod tables;
mod texts;
mod whole_targets;
