//! Writes the outputs of `escape_simd` to formatters, writers and `String`s, and those of many texts to a vector.
//!
//! - [`json::Escaped`], [`json::EscapedScript`] and [`html::Escaped`] are for `write!`, `print!` and `format!`.
//!   [`json::escape_to_writer`], [`json::escape_script_to_writer`] and [`html::escape_html_to_writer`] write to an
//!   `io::Write`. They allocate nothing: the output is made in an array on the stack.
//! - [`json::escape_into_string`], [`json::escape_script_into_string`] and [`html::escape_html_into_string`] append to
//!   a `String`.
//! - [`json::escape_compact`], [`json::escape_script_compact`] and [`html::escape_html_compact`] return a `String` that
//!   reserves the length of the output and no more. [`html::escape_html_cow`] borrows a text that needs no escape.
//! - [`json::escape_array_into`], [`json::escape_script_array_into`], [`json::escape_joined_into`] and
//!   [`html::escape_html_joined_into`] append many texts to a vector, [`json::object_into`] and
//!   [`json::object_line_into`] a JSON object of texts, [`page::page_into`] a page of markup, texts and script values.
//!   [`page::page`] returns the page.
//! - [`write_whole`] writes bytes to an `io::Write`, [`write_exact`] an output to a slice of its length.
//!
//! ```rust
//! write!(page, "<p title=\"{}\">", html::Escaped("a \"b\""))?; // <p title="a &quot;b&quot;">
//! json::escape_to_writer("a\"b", &mut log)?; // "a\"b"
//! json::escape_array_into(&["a", "\n"], &mut line)?; // ["a","\n"]
//! ```
#![tactic(auto)]

mod adapter;
mod appended_text;
mod compact;
mod exact;
pub mod html;
pub mod json;
mod list;
pub mod page;
mod piece;
mod piecewise;
mod sink;
mod writer;

pub use exact::write_exact;
pub use list::ListError;
pub use writer::write_whole;
