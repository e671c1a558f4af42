//! Vectors, masks and the target.

pub mod avx2;
pub mod avx512;
pub mod bits;
mod by_width;
pub mod classifier;
pub mod escape_mask;
mod front;
mod halves;
pub mod lane_bits;
pub mod lane_mask;
mod lanes;
mod last;
pub mod mask;
pub mod mode;
mod needs;
pub mod neon;
pub mod short;
pub mod sse2;
pub mod target;
mod ticks;
pub mod traits;
pub mod v128;
pub mod vector;
mod writes;

pub use mask::Mask;
pub use traits::{BitMask, Simd};
