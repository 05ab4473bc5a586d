//! What is observed and chosen, and rows of allowed actions and of weights.
ghost use Rattle.std.specs.Prelude.{◌≡◌, ◌≤◌, ◌==◌, [], false, true, replicate, length, IfOk};
ghost use Rattle.std.specs.List.{list_all};
ghost use Rattle.og_types.specs.Ty.{is_finite};
ghost use Rattle.og_types.specs.Values.{AreSmall, IsSmall};
ghost use Rattle.og_game.specs.Wired.{observations, values};
ghost use Rattle.og_typing.specs.Checked.{Walks, in_turn};
ghost use Rattle.og_typing.specs.Expressions.{are_keys};
ghost use Rattle.og_wires.specs.Rows.{finite_walk, with_finite, choice_walk, rank_walk, action_walk, among_row, among_walk, actions_in, is_divisor, lowest, with_denominator, entry_walk, row_walk, parts_of, all_parts, each_one, weights_walk, scale_walk, entries_in};

use og_frac::{greatest_common_divisor, least_common_multiple};
use og_list::List;
use og_names::Names;
use og_syntax::{Among, AmongTree, EntryTree, RowTree, TyTree, ValueTree};
use og_types::Ty;
use og_typing::{
    Meaning, WireFault, are_all_taken, count_of, key_count, none_taken, plus, take, take_row,
    type_at, value_at, walk_type, walk_value,
};
use std::alloc::{AllocError, Global};

/// What is observed, and what is chosen of there.
#[derive(Debug, Drop)]
pub struct Choice {
    /// The types of what is observed.
    pub observes: List<Ty>,
    /// The type of what is chosen.
    pub chosen: Ty,
}

/// What rows have, up to some place.
#[derive(Debug, Drop)]
pub struct Drawn {
    /// Of each rank, whether it was there.
    pub taken: List<bool>,
    /// The least common multiple of the denominators, which stands still at 2^62.
    pub scale: u64,
}

/// A type with a list of values.
pub(crate) fn walk_finite(
    alloc: Global,
    written: &TyTree,
    declared: &Names<Meaning>,
) -> Result<Ty, WireFault>
    ensures walks { Walks (finite_walk declared.now written.now) result }
    ensures small { IfOk result IsSmall }
{
    let ty = walk_type(alloc, written, declared)?;
    match ty.count() {
        Some(count) => {
            if count > 4096 {
                return Err(WireFault::TooManyValues(type_at(written)));
            }
            Ok(ty)
        }
        None => Err(WireFault::NotFinite(type_at(written))),
    }
}

/// Types with a list of values, in order.
fn walk_observed(
    alloc: Global,
    observes: &List<TyTree>,
    declared: &Names<Meaning>,
) -> Result<List<Ty>, WireFault>
    ensures { Walks (in_turn (with_finite declared.now) [] observes.now) result }
{
    let mut all = List::new(alloc);
    'types: for written in observes.as_slice() {
        all.add(walk_finite(alloc, written, declared)?)?;
    }
    Ok(all)
}

/// What is observed, then what is chosen, with no more than 4,096 joint observations.
pub(crate) fn walk_choice(
    alloc: Global,
    at: u32,
    observes: &List<TyTree>,
    chosen: &TyTree,
    declared: &Names<Meaning>,
) -> Result<Choice, WireFault>
    ensures walks { Walks (choice_walk declared.now at observes.now chosen.now) result }
    ensures observed { IfOk result (λ choice. AreSmall choice.observes) }
    ensures chosen { IfOk result (λ choice. IsSmall choice.chosen) }
{
    let observes = walk_observed(alloc, observes, declared)?;
    let chosen = walk_finite(alloc, chosen, declared)?;
    if key_count(&observes).is_none() {
        return Err(WireFault::TooManyValues(at));
    }
    Ok(Choice { observes, chosen })
}

/// The rank of a value of the type.
pub(crate) fn walk_rank(
    alloc: Global,
    value: &ValueTree,
    ty: &Ty,
    declared: &Names<Meaning>,
) -> Result<u32, WireFault>
    requires { IsSmall ty.now }
    ensures { Walks (rank_walk declared.now ty.now value.now) result }
{
    let found = walk_value(alloc, value, ty, declared)?;
    match ty.rank(&found) {
        Some(rank) => Ok(rank),
        None => Err(WireFault::WrongType(value_at(value))),
    }
}

/// So many ranks as the type has values, none of which was there.
pub(crate) fn no_value(alloc: Global, ty: &Ty) -> Result<List<bool>, AllocError>
    requires { IsSmall ty.now }
    ensures { IfOk result (λ made. made ≡ replicate (values ty.now) false) }
{
    none_taken(alloc, ty.count().unwrap_or(0))
}

/// So many ranks as there are joint observations, none of which was there.
fn no_observation(alloc: Global, types: &List<Ty>) -> Result<List<bool>, AllocError>
    requires { AreSmall types.now }
    ensures { IfOk result (λ made. made ≡ replicate (observations types.now) false) }
{
    none_taken(alloc, key_count(types).unwrap_or(0))
}

/// The actions of a row are of the type, and differ.
fn walk_actions(
    alloc: Global,
    actions: &List<ValueTree>,
    ty: &Ty,
    declared: &Names<Meaning>,
    mut taken: List<bool>,
) -> Result<List<bool>, WireFault>
    requires { IsSmall ty.now }
    ensures { Walks (in_turn (action_walk declared.now ty.now) taken actions.now) result }
{
    'actions: for action in actions.as_slice() {
        let rank = walk_rank(alloc, action, ty, declared)?;
        take(value_at(action), &mut taken, rank)?;
    }
    Ok(taken)
}

/// The observation is new, and the actions differ; there is one or more.
fn walk_among_row(
    alloc: Global,
    row: &AmongTree,
    choice: &Choice,
    declared: &Names<Meaning>,
    mut taken: List<bool>,
) -> Result<List<bool>, WireFault>
    requires observed { AreSmall choice.now.observes }
    requires chosen { IsSmall choice.now.chosen }
    ensures { Walks (among_row declared.now choice.now taken row.now) result }
{
    take_row(
        alloc,
        row.at,
        &row.key,
        &choice.observes,
        declared,
        &mut taken,
    )?;
    if row.actions.is_empty() {
        return Err(WireFault::WrongType(row.at));
    }
    let none = no_value(alloc, &choice.chosen)?;
    walk_actions(alloc, &row.actions, &choice.chosen, declared, none)?;
    Ok(taken)
}

fn walk_among_rows(
    alloc: Global,
    rows: &List<AmongTree>,
    choice: &Choice,
    declared: &Names<Meaning>,
    mut taken: List<bool>,
) -> Result<List<bool>, WireFault>
    requires observed { AreSmall choice.now.observes }
    requires chosen { IsSmall choice.now.chosen }
    ensures { Walks (in_turn (among_row declared.now choice.now) taken rows.now) result }
{
    'rows: for row in rows.as_slice() {
        taken = walk_among_row(alloc, row, choice, declared, taken)?;
    }
    Ok(taken)
}

/// There is a row of allowed actions for each observation.
pub(crate) fn walk_among(
    alloc: Global,
    among: &Among,
    choice: &Choice,
    declared: &Names<Meaning>,
) -> Result<(), WireFault>
    requires observed { AreSmall choice.now.observes }
    requires chosen { IsSmall choice.now.chosen }
    ensures { Walks (among_walk declared.now choice.now among.now) result }
{
    let none = no_observation(alloc, &choice.observes)?;
    let taken = walk_among_rows(alloc, &among.rows, choice, declared, none)?;
    if !are_all_taken(&taken) {
        return Err(WireFault::MissingRow(among.at));
    }
    Ok(())
}

/// How many actions are written.
pub(crate) fn actions_in(among: &Among) -> u32
    ensures { result ≡ actions_in among.now }
{
    let mut found = 0;
    'rows: for row in among.rows.as_slice() {
        found = plus(found, count_of(row.actions.len()));
    }
    found
}

fn is_divisor(n: u64) -> bool
    ensures { result ≡ is_divisor n }
{
    0 < n && n < 1 << 63
}

/// The denominator in lowest terms.
#[tactic(auto, using(crate::proofs::Scales::common_positive, crate::proofs::Scales::lowest_positive))]
fn lowest(entry: &EntryTree) -> u64
    requires { is_divisor entry.now.den ≡ true }
    ensures value { result ≡ lowest entry.now }
    ensures divisor { is_divisor result ≡ true }
{
    let common = greatest_common_divisor(u128::from(entry.num), u128::from(entry.den));
    (u128::from(entry.den) / common) as u64
}

/// The least common multiple with one denominator more, which stands still at 2^62.
fn with_denominator(scale: u64, den: u64) -> u64
    requires { is_divisor den ≡ true }
    ensures { result ≡ with_denominator scale den }
{
    if scale >= 1 << 62 {
        return 1 << 62;
    }
    least_common_multiple(scale, den).min(1 << 62) as u64
}

/// The outcome is of the type, and new in its row.
fn walk_entry(
    alloc: Global,
    entry: &EntryTree,
    ty: &Ty,
    declared: &Names<Meaning>,
    drawn: Drawn,
) -> Result<Drawn, WireFault>
    requires { IsSmall ty.now }
    ensures { Walks (entry_walk declared.now ty.now drawn entry.now) result }
{
    let Drawn { mut taken, scale } = drawn;
    let rank = walk_rank(alloc, &entry.value, ty, declared)?;
    take(value_at(&entry.value), &mut taken, rank)?;
    if !is_divisor(entry.den) {
        return Err(WireFault::WrongType(value_at(&entry.value)));
    }
    Ok(Drawn {
        taken,
        scale: with_denominator(scale, lowest(entry)),
    })
}

fn walk_entries(
    alloc: Global,
    entries: &List<EntryTree>,
    ty: &Ty,
    declared: &Names<Meaning>,
    mut drawn: Drawn,
) -> Result<Drawn, WireFault>
    requires { IsSmall ty.now }
    ensures { Walks (in_turn (entry_walk declared.now ty.now) drawn entries.now) result }
{
    'entries: for entry in entries.as_slice() {
        drawn = walk_entry(alloc, entry, ty, declared, drawn)?;
    }
    Ok(drawn)
}

/// The observation is new, and the outcomes differ.
fn walk_row(
    alloc: Global,
    row: &RowTree,
    choice: &Choice,
    declared: &Names<Meaning>,
    drawn: Drawn,
) -> Result<Drawn, WireFault>
    requires observed { AreSmall choice.now.observes }
    requires chosen { IsSmall choice.now.chosen }
    ensures { Walks (row_walk declared.now choice.now drawn row.now) result }
{
    let Drawn { mut taken, scale } = drawn;
    take_row(
        alloc,
        row.at,
        &row.key,
        &choice.observes,
        declared,
        &mut taken,
    )?;
    let none = Drawn {
        taken: no_value(alloc, &choice.chosen)?,
        scale,
    };
    let all = walk_entries(alloc, &row.entries, &choice.chosen, declared, none)?;
    Ok(Drawn {
        taken,
        scale: all.scale,
    })
}

fn walk_rows(
    alloc: Global,
    rows: &List<RowTree>,
    choice: &Choice,
    declared: &Names<Meaning>,
    mut drawn: Drawn,
) -> Result<Drawn, WireFault>
    requires observed { AreSmall choice.now.observes }
    requires chosen { IsSmall choice.now.chosen }
    ensures { Walks (in_turn (row_walk declared.now choice.now) drawn rows.now) result }
{
    'rows: for row in rows.as_slice() {
        drawn = walk_row(alloc, row, choice, declared, drawn)?;
    }
    Ok(drawn)
}

/// A weight in so many parts of one.
fn parts_of(scale: u64, entry: &EntryTree) -> u128
    ensures { result ≡ parts_of scale entry.now }
{
    if entry.den == 0 {
        return 0;
    }
    u128::from(scale) * u128::from(entry.num) / u128::from(entry.den)
}

/// Whether the weights add up to one.
#[tactic(auto, using(crate::proofs::Scales::parts_next, crate::proofs::Scales::parts_more))]
fn is_one(scale: u64, entries: &List<EntryTree>) -> bool
    ensures { result ≡ (all_parts scale entries.now == scale) }
{
    let mut left = u128::from(scale);
    'entries: for entry in entries.as_slice() {
        let parts = parts_of(scale, entry);
        if parts > left {
            return false;
        }
        left -= parts;
    }
    left == 0
}

/// The weights of each row add up to one.
fn walk_each_one(scale: u64, rows: &List<RowTree>) -> Result<(), WireFault>
    ensures { Walks (each_one scale rows.now) result }
{
    'rows: for row in rows.as_slice() {
        if !is_one(scale, &row.entries) {
            return Err(WireFault::NotOne(row.at));
        }
    }
    Ok(())
}

/// The scale of rows, where there is one for each observation and its weights add up to one.
pub(crate) fn walk_weights(
    alloc: Global,
    at: u32,
    rows: &List<RowTree>,
    choice: &Choice,
    declared: &Names<Meaning>,
) -> Result<u64, WireFault>
    requires observed { AreSmall choice.now.observes }
    requires chosen { IsSmall choice.now.chosen }
    ensures { Walks (weights_walk declared.now choice.now at rows.now) result }
{
    let none = Drawn {
        taken: no_observation(alloc, &choice.observes)?,
        scale: 1,
    };
    let drawn = walk_rows(alloc, rows, choice, declared, none)?;
    if !are_all_taken(&drawn.taken) {
        return Err(WireFault::MissingRow(at));
    }
    if drawn.scale >= 1 << 62 {
        return Err(WireFault::ScaleTooLarge(at));
    }
    walk_each_one(drawn.scale, rows)?;
    Ok(drawn.scale)
}

/// The scale of a nature: the least common multiple of all denominators of its rows in lowest terms. It is refused for the first
/// rule that is broken by what is observed, what is drawn, or the rows.
pub fn walk_scale(
    alloc: Global,
    at: u32,
    observes: &List<TyTree>,
    outcome: &TyTree,
    rows: &List<RowTree>,
    declared: &Names<Meaning>,
) -> Result<u64, WireFault>
    ensures { Walks (scale_walk declared.now at observes.now outcome.now rows.now) result }
{
    let choice = walk_choice(alloc, at, observes, outcome, declared)?;
    walk_weights(alloc, at, rows, &choice, declared)
}

/// How many entries are written.
pub(crate) fn entries_in(rows: &List<RowTree>) -> u32
    ensures { result ≡ entries_in rows.now }
{
    let mut found = 0;
    'rows: for row in rows.as_slice() {
        found = plus(found, count_of(row.entries.len()));
    }
    found
}
