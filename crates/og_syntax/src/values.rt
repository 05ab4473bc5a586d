ghost use Rattle.std.specs.Prelude.{◌≡◌, IfOk};

use crate::boxes::{add_made, both};
use og_list::{List, Text};
use std::alloc::{AllocError, Global};

/// A value as it is written.
#[derive(Drop)]
pub enum ValueTree {
    /// A case of an enum, by its name, or a parameter of the game: the place of the name, and the name.
    Name(u32, Text),
    /// A truth: the place of its word, and the truth.
    Flag(u32, bool),
    /// A whole number: the place of its token, or of its minus, and the number.
    Number(u32, i64),
    /// A tuple: the place of `(`, and two values or more.
    Tuple(u32, List<ValueTree>),
}

/// A row of a nature or of a strategy: what is drawn or played where the key is seen.
#[derive(Drop)]
pub struct RowTree {
    /// The place of `(`.
    pub at: u32,
    /// What is seen, one value for each observation.
    pub key: List<ValueTree>,
    /// What is drawn or played there, each with its weight: one entry or more.
    pub entries: List<EntryTree>,
}

/// A value with its weight.
#[derive(Drop)]
pub struct EntryTree {
    /// The value.
    pub value: ValueTree,
    /// The weight's numerator, 1 where no weight is written.
    pub num: u64,
    /// The weight's denominator, 1 where none is written.
    pub den: u64,
}

impl ValueTree {
    /// An equal value, in memory of its own.
    #[cycle(value_copies)]
    pub fn copy(&self, alloc: Global) -> Result<ValueTree, AllocError>
        ensures { IfOk result (λ made. made ≡ self.now) }
    {
        match self {
            ValueTree::Name(at, name) => Ok(ValueTree::Name(*at, name.copy(alloc)?)),
            ValueTree::Flag(at, flag) => Ok(ValueTree::Flag(*at, *flag)),
            ValueTree::Number(at, number) => Ok(ValueTree::Number(*at, *number)),
            ValueTree::Tuple(at, parts) => Ok(ValueTree::Tuple(*at, copy_values(alloc, parts)?)),
        }
    }
}

impl RowTree {
    /// An equal row, in memory of its own.
    pub fn copy(&self, alloc: Global) -> Result<RowTree, AllocError>
        ensures { IfOk result (λ made. made ≡ self.now) }
    {
        let (key, entries) = both(
            copy_values(alloc, &self.key),
            copy_entries(alloc, &self.entries),
        )?;
        Ok(RowTree {
            at: self.at,
            key,
            entries,
        })
    }
}

impl EntryTree {
    /// An equal entry, in memory of its own.
    pub fn copy(&self, alloc: Global) -> Result<EntryTree, AllocError>
        ensures { IfOk result (λ made. made ≡ self.now) }
    {
        let value = self.value.copy(alloc)?;
        Ok(EntryTree {
            value,
            num: self.num,
            den: self.den,
        })
    }
}

/// Equal values, in the same order, in memory of their own.
#[cycle(value_copies)]
pub(crate) fn copy_values(
    alloc: Global,
    values: &List<ValueTree>,
) -> Result<List<ValueTree>, AllocError>
    ensures { IfOk result (λ made. made ≡ values.now) }
{
    let mut all = List::new(alloc);
    'values: for value in values.as_slice() {
        add_made(&mut all, value.copy(alloc))?;
    }
    Ok(all)
}

/// Equal entries, in the same order, in memory of their own.
fn copy_entries(alloc: Global, entries: &List<EntryTree>) -> Result<List<EntryTree>, AllocError>
    ensures { IfOk result (λ made. made ≡ entries.now) }
{
    let mut all = List::new(alloc);
    'entries: for entry in entries.as_slice() {
        add_made(&mut all, entry.copy(alloc))?;
    }
    Ok(all)
}

/// Equal rows, in the same order, in memory of their own.
pub(crate) fn copy_rows(alloc: Global, rows: &List<RowTree>) -> Result<List<RowTree>, AllocError>
    ensures { IfOk result (λ made. made ≡ rows.now) }
{
    let mut all = List::new(alloc);
    'rows: for row in rows.as_slice() {
        add_made(&mut all, row.copy(alloc))?;
    }
    Ok(all)
}
