//! The calls that C, and what can call C, makes of this project. `c/escape.h` declares them.
//!
//! What a caller can get wrong is answered by a status, but for what a call requires: that pointers are valid, and what
//! `escape_write` and the `_unchecked` calls say. No call takes memory or keeps state.
#![tactic(auto)]

mod call;
mod exact;
mod text;
