//! The list of the lines, below the drawings.
ghost use Rattle.std.specs.Prelude.{◌≡◌, ◌++◌, IfOk, OnOk, string_bytes};
ghost use Rattle.std.specs.List.{enumerate_from, flat_map};
ghost use Rattle.std.specs.Str.Lines.{lines};
ghost use Rattle.vll_draw.specs.Page.{Lists, item, list_end, list_start};

use std::alloc::AllocError;

/// Returns the page that begins with `drawn` and lists the lines of `text`.
pub(crate) fn with_list(drawn: String, text: &str) -> Result<String, AllocError>
    ensures { IfOk result (λ page. Lists (string_bytes page) text.now) }
{
    let mut page = drawn;
    push_list(&mut page, text)?;
    Ok(page)
}

// Appends the list of a text's lines, and the end of the page.
fn push_list(page: &mut String, text: &str) -> Result<(), AllocError>
    ensures { OnOk result (string_bytes page.new ≡ string_bytes page.old ++ list_start
        ++ flat_map item (enumerate_from 0 (lines text.now)) ++ list_end) }
{
    page.push_str("<ol>\n")?;
    push_items(page, text)?;
    page.push_str("</ol>\n</body>\n</html>\n")
}

// Appends an item for each line of a text.
fn push_items(page: &mut String, text: &str) -> Result<(), AllocError>
    ensures { OnOk result (string_bytes page.new ≡ string_bytes page.old
        ++ flat_map item (enumerate_from 0 (lines text.now))) }
{
    for (index, line) in text.lines().enumerate() {
        write!(page, "<li id=\"l{index}\">{line}</li>\n")?;
    }
    Ok(())
}
