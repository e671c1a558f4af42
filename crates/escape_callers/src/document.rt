//! A JSON document in a script element.
ghost use Rattle.std.specs.Prelude.{◌≡◌, ◌++◌, OnOk, OnErr, chars};
ghost use Rattle.escape_lanes.specs.Mode.{script};
ghost use Rattle.escape_simd.specs.Output.{plain};
ghost use Rattle.escape_simd.specs.Script.{IsOnlyScript, IsSafeInScript};

use escape_simd::Refusal;
use escape_text::page::Part::{Markup, Script};
use escape_text::page::page_into;
use std::alloc::Allocator;

const BEFORE: &str = "<script>const data = JSON.parse(";

const AFTER: &str = ");</script>";

/// Appends a script element in which `data` is the value of the JSON document.
///
/// The script literal of the document is a string of JavaScript too, so the document may hold any text. After
/// an error the page holds its old bytes.
pub fn append_document<A: Allocator>(document: &str, page: &mut Vec<u8, A>) -> Result<(), Refusal>
    ensures exact { OnOk result (page.new.items ≡ page.old.items
        ++ BEFORE.now ++ plain script document.now ++ AFTER.now) }
    ensures unchanged { OnErr result (page.new.items ≡ page.old.items) }

    // What `JSON.parse` is given is the document, character for character.
    ensures denotes { OnOk result (IsOnlyScript (plain script document.now) (chars document.now)) }

    // Nothing that stands in the script element ends it.
    ensures nothing_ends_script { OnOk result (IsSafeInScript (plain script document.now)) }
{
    page_into(&[Markup(BEFORE), Script(document), Markup(AFTER)], page)?;
    Ok(())
}
