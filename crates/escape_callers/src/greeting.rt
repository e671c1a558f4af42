//! A name in a line of JSON and in HTML, by `println!`.

use escape_text::{html, json};
use std::io::Result;

/// Prints a record of the name, and a paragraph that greets it.
pub fn greet(rt: &impl Print, name: &str) -> Result<()> {
    let literal = json::Escaped(name);
    let text = html::Escaped(name);
    println!(rt; "{{\"name\":{literal}}}")?;
    println!(rt; "<p title=\"{text}\">Hello, {text}!</p>")?;
    Ok(())
}
