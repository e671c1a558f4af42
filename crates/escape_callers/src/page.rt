//! A page with a table of strangers' texts, and with data in a script element.
ghost use Rattle.std.specs.Prelude.{◌≡◌, ◌++◌, flat_map, take, vec_len, OnOk, OnErr};
ghost use Rattle.escape_text.specs.Page.{tags_of};
ghost use Rattle.escape_callers.specs.Written.{row_of, row_markup, guests_of, guests_markup};

use escape_simd::Refusal;
use escape_text::page::Part::{Markup, Script, Text};
use escape_text::page::page_into;
use std::alloc::Allocator;

const BEFORE_TITLE: &str = "<h1>";

const BEFORE_ROWS: &str = "</h1><table><tr><th>Name</th></tr>";

const BEFORE_USER: &str = "</table><script id=\"user\" type=\"application/json\">";

const AFTER_USER: &str = "</script>";

/// Appends a heading, a table with a row for each name, and the user's name as data for a script.
///
/// After an error the page holds its old bytes.
pub fn append_page<A: Allocator>(
    title: &str,
    names: &[&str],
    user: &str,
    page: &mut Vec<u8, A>,
) -> Result<(), Refusal>
    ensures exact { OnOk result (page.new.items
        ≡ page.old.items ++ guests_of title.now names.now user.now) }
    ensures unchanged { OnErr result (page.new.items ≡ page.old.items) }

    // The page's tags are the template's, whatever the texts are.
    ensures tags { OnOk result (tags_of page.new.items
        ≡ tags_of (page.old.items ++ guests_markup names.now)) }
{
    let len = page.len();
    let appended = append_parts(title, names, user, page);
    if appended.is_err() {
        page.truncate(len);
    }
    appended
}

/// Appends the same. After an error the page holds its old bytes, and a part of the new ones.
#[tactic(auto, using(escape_text::proofs::PageLaws::tags))]
fn append_parts<'a, A: Allocator>(
    title: &'a str,
    names: &[&'a str],
    user: &'a str,
    page: &mut Vec<u8, A>,
) -> Result<(), Refusal>
    ensures exact { OnOk result (page.new.items
        ≡ page.old.items ++ guests_of title.now names.now user.now) }
    ensures front { take (vec_len page.old) page.new.items ≡ page.old.items }
    ensures tags { OnOk result (tags_of page.new.items
        ≡ tags_of (page.old.items ++ guests_markup names.now)) }
{
    let head = [Markup(BEFORE_TITLE), Text(title), Markup(BEFORE_ROWS)];
    page_into(&head, page)?;
    append_rows(names, page)?;
    let data = [Markup(BEFORE_USER), Script(user), Markup(AFTER_USER)];
    page_into(&data, page)?;
    Ok(())
}

#[tactic(auto, using(escape_text::proofs::Many::many, escape_text::proofs::PageLaws::tags))]
fn append_rows<A: Allocator>(names: &[&str], page: &mut Vec<u8, A>) -> Result<(), Refusal>
    ensures exact { OnOk result (page.new.items ≡ page.old.items ++ flat_map row_of names.now) }
    ensures front { take (vec_len page.old) page.new.items ≡ page.old.items }
    ensures tags { OnOk result (tags_of page.new.items
        ≡ tags_of (page.old.items ++ flat_map (λ _. row_markup) names.now)) }
{
    for name in names {
        let row = [Markup("<tr><td>"), Text(name), Markup("</td></tr>")];
        page_into(&row, page)?;
    }
    Ok(())
}
