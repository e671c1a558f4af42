//! Escapes text as a JSON string literal (RFC 8259, section 7), as HTML, or as a JSON string literal that is safe
//! inside a script element.
//!
//! - [`json::escape`], [`html::escape_html`] and [`json::escape_script`] return a `String`. [`json::escape_in`],
//!   [`html::escape_html_in`] and [`json::escape_script_in`] do the same with an allocator of the caller.
//! - [`json::escape_into`], [`html::escape_html_into`] and [`json::escape_script_into`] append to a `Vec<u8>` of any
//!   allocator. [`html::escape_html_each`] appends many texts.
//! - [`format_json_string`], [`format_html_string`] and [`format_script_string`] write to a slice and allocate
//!   nothing. Their first argument is the [`Kernel`]. [`format_json_str`], [`format_html_str`] and
//!   [`format_script_str`] return the output as a `&str`. [`format_json_inner`] and [`format_script_inner`] leave out
//!   the quotation marks. [`format_text`] and [`format_inner`] take the [`Mode`] as a value.
//! - [`json::escaped_len`], [`html::escaped_len`] and [`json::script_len`] return the length of an output.
//!   [`json::is_clean`], [`html::is_clean`] and [`json::is_script_clean`] return whether nothing needs an escape.
//!
//! Each call that allocates returns an error if memory is refused. [`Refusal`] is the one error for functions that
//! write both JSON and HTML. The crate `escape_text` has adapters for `write!`, and calls for writers, `String`s and
//! lists. It is built on [`output`], whose functions take the mode as a constant.
//!
//! ```rust
//! let literal = json::escape(rt.alloc(), "a\n")?; // "a\n"
//! let script = json::escape_script(rt.alloc(), "a<b")?; // "a\u003cb"
//! let text = html::escape_html(rt.alloc(), "a < b")?; // a &lt; b
//! ```
#![tactic(auto)]

mod format;
pub mod html;
mod io_errors;
pub mod json;
mod kernel;
mod mode;
pub mod output;
pub mod simd;

pub use escape_lanes::tables;
pub use format::{
    format_html_str, format_html_string, format_inner, format_json_inner, format_json_str,
    format_json_string, format_script_inner, format_script_str, format_script_string, format_text,
};
pub use kernel::Kernel;
pub use mode::Mode;
pub use output::Refusal;
