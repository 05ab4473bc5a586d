ghost use Rattle.std.specs.Prelude.{◌≡◌, ◌++◌, OnOk, flat_map};
ghost use Rattle.og_canonical.specs.Values.{value_text, values_text, key_text, weight_text, entry_text};
ghost use Rattle.og_canonical.specs.Values.{entries_text, row_text};

use crate::tokens::{write_mark, write_number, write_token, write_whole, write_word};
use og_lex::{Mark, Word};
use og_list::{List, Text};
use og_syntax::{EntryTree, RowTree, ValueTree};
use std::alloc::{AllocError, Global};

/// Adds a value.
#[cycle(value_texts)]
#[tactic(auto, using(crate::proofs::ValueForms::tuple_text))]
pub(crate) fn write_value(
    value: &ValueTree,
    alloc: Global,
    out: &mut Text,
) -> Result<(), AllocError>
    ensures { OnOk result (out.new ≡ out.old ++ value_text value.now) }
{
    match value {
        ValueTree::Name(_, name) => write_token(name.as_str(), out),
        ValueTree::Flag(_, flag) => write_word(if *flag { Word::True } else { Word::False }, out),
        ValueTree::Number(_, number) => write_whole(alloc, *number, out),
        ValueTree::Tuple(_, parts) => write_key(parts, alloc, out),
    }
}

/// Adds the values in round brackets, with a comma between each two.
#[cycle(value_texts)]
pub(crate) fn write_key(
    values: &List<ValueTree>,
    alloc: Global,
    out: &mut Text,
) -> Result<(), AllocError>
    ensures { OnOk result (out.new ≡ out.old ++ key_text values.now) }
{
    write_mark(Mark::LeftParen, out)?;
    write_values(values, alloc, out)?;
    write_mark(Mark::RightParen, out)
}

/// Adds the values, with a comma between each two.
#[cycle(value_texts)]
pub(crate) fn write_values(
    values: &List<ValueTree>,
    alloc: Global,
    out: &mut Text,
) -> Result<(), AllocError>
    ensures { OnOk result (out.new ≡ out.old ++ values_text values.now) }
{
    'values: for (at, value) in values.as_slice().iter().enumerate() {
        if at > 0 {
            write_mark(Mark::Comma, out)?;
        }
        write_value(value, alloc, out)?;
    }
    Ok(())
}

/// Adds the rows, one after another.
pub(crate) fn write_rows(
    rows: &List<RowTree>,
    alloc: Global,
    out: &mut Text,
) -> Result<(), AllocError>
    ensures { OnOk result (out.new ≡ out.old ++ flat_map row_text rows.now) }
{
    'rows: for row in rows.as_slice() {
        write_row(row, alloc, out)?;
    }
    Ok(())
}

/// Adds a row.
#[tactic(auto, unfolding(crate::specs::Values::row_text))]
fn write_row(row: &RowTree, alloc: Global, out: &mut Text) -> Result<(), AllocError>
    ensures { OnOk result (out.new ≡ out.old ++ row_text row.now) }
{
    write_key(&row.key, alloc, out)?;
    write_mark(Mark::Arrow, out)?;
    write_entries(&row.entries, alloc, out)?;
    write_mark(Mark::Semicolon, out)
}

/// Adds the entries, with a comma between each two.
fn write_entries(entries: &List<EntryTree>, alloc: Global, out: &mut Text) -> Result<(), AllocError>
    ensures { OnOk result (out.new ≡ out.old ++ entries_text entries.now) }
{
    'entries: for (at, entry) in entries.as_slice().iter().enumerate() {
        if at > 0 {
            write_mark(Mark::Comma, out)?;
        }
        write_entry(entry, alloc, out)?;
    }
    Ok(())
}

/// Adds a value with its weight.
#[tactic(auto, unfolding(crate::specs::Values::entry_text))]
fn write_entry(entry: &EntryTree, alloc: Global, out: &mut Text) -> Result<(), AllocError>
    ensures { OnOk result (out.new ≡ out.old ++ entry_text entry.now) }
{
    write_value(&entry.value, alloc, out)?;
    write_mark(Mark::Colon, out)?;
    write_weight(alloc, entry.num, entry.den, out)
}

/// Adds a weight.
#[tactic(auto, unfolding(crate::specs::Values::weight_text))]
fn write_weight(alloc: Global, num: u64, den: u64, out: &mut Text) -> Result<(), AllocError>
    ensures { OnOk result (out.new ≡ out.old ++ weight_text num den) }
{
    write_number(alloc, num, out)?;
    if den == 1 {
        return Ok(());
    }
    write_mark(Mark::Slash, out)?;
    write_number(alloc, den, out)
}
