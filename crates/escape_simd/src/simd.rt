//! Vectors of bytes, and the kernels that escape text by them.

pub mod avx2;
pub mod avx512;
mod blocks;
mod body;
mod by_mask;
mod chunk;
pub mod neon;
pub(crate) mod separator;
pub mod sse2;
mod store;
mod tail;
pub mod util;
pub mod v128;
pub(crate) mod whole;

pub(crate) use escape_lanes::simd::classifier::Classifier;
pub use escape_lanes::simd::mode::{HTML_MODE, JSON_MODE, SCRIPT_MODE};
pub use escape_lanes::simd::{BitMask, Mask, Simd, bits, target};
pub(crate) use store::load_vector;
pub(crate) use tail::{classify_pair, classify_short};
pub(crate) use whole::{escape_flagged, escape_to_slice};
