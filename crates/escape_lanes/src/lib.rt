//! What the kernels of `escape_simd` stand on: what a byte is, what a vector is, and how bytes are
//! written and counted.
#![tactic(auto)]

pub mod simd;
pub mod tables;
