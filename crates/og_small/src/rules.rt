ghost use Rattle.std.specs.Option.{option_copied, option_map_or};
ghost use Rattle.std.specs.Prelude.{◌≡◌, ◌↔◌, IsTrue, ◌++◌, [], ◌∷◌, ◌^◌, ◌==◌, IfOk, OnOk, is_some, codes, map, flat_map, length, nat_le, nat_lt};
ghost use Rattle.std.specs.List.{list_all, list_any};
ghost use Rattle.og_small.specs.Rules.{same_names, has_name, all_differ, given_names, cases_of, is_output, joint, columns_of, rows_at, is_complete, are_keys_good, is_line_accepted, are_names_good, is_accepted, suits, fits};
ghost use Rattle.og_small.specs.Accepted.{IsAccepted};

use crate::copies::copy_names;
use crate::{Key, Line, Row, Section, SmallGame, TypeDecl};
use og_list::List;
use std::alloc::{AllocError, Global};

/// Whether two lists of names are the same.
fn same_names(these: &[List<u8>], those: &[List<u8>]) -> bool
    ensures { result ≡ same_names these.now those.now }
{
    these == those
}

/// Whether the name stands in the list.
fn has_name(names: &[List<u8>], name: &[u8]) -> bool
    ensures { result ≡ has_name names.now name.now }
{
    names.iter().any(|other| other.as_slice() == name)
}

/// Whether no name stands twice in the list.
fn all_differ(names: &[List<u8>]) -> bool
    ensures { result ≡ all_differ names.now }
{
    'names: for i in 0..names.len() {
        let name = &names[i];
        if has_name(&names[i + 1..], name.as_slice()) {
            return false;
        }
    }
    true
}

/// The cases of the type that has the name.
pub(crate) fn cases_of<'a>(types: &'a [TypeDecl], name: &[u8]) -> Option<&'a List<List<u8>>>
    ensures { option_copied result ≡ cases_of types.now name.now }
{
    match types.iter().find(|t| t.name.as_slice() == name) {
        Some(t) => Some(&t.cases),
        None => None,
    }
}

/// Whether the key is the output of some line, with that line's type.
fn is_output(lines: &[Line], key: &Key) -> bool
    ensures { result ≡ is_output lines.now key.now }
{
    lines.iter().any(|line| {
        line.output.as_slice() == key.output.as_slice()
            && line.action.as_slice() == key.action.as_slice()
    })
}

/// Whether a type of that name is declared.
fn has_type(types: &[TypeDecl], name: &[u8]) -> bool
    ensures { result ≡ is_some (cases_of types.now name.now) }
{
    cases_of(types, name).is_some()
}

/// Adds the names that the types give, and their cases.
fn add_type_names(
    names: &mut List<List<u8>>,
    alloc: Global,
    types: &[TypeDecl],
) -> Result<(), AllocError>
    ensures { OnOk result (names.new ≡ names.old ++ flat_map (λ t. t.name ∷ t.cases) types.now) }
{
    'types: for one in types {
        names.add(List::from_slice(alloc, one.name.as_slice())?)?;
        add_names(names, alloc, one.cases.as_slice())?;
    }
    Ok(())
}

/// Adds copies of the names.
fn add_names(names: &mut List<List<u8>>, alloc: Global, more: &[List<u8>]) -> Result<(), AllocError>
    ensures { OnOk result (names.new ≡ names.old ++ more.now) }
{
    'more: for name in more {
        names.add(List::from_slice(alloc, name.as_slice())?)?;
    }
    Ok(())
}

/// All names that the game gives.
fn given_names(alloc: Global, game: &SmallGame) -> Result<List<List<u8>>, AllocError>
    ensures { IfOk result (λ names. names ≡ given_names game.now) }
{
    let mut names = List::new(alloc);
    add_type_names(&mut names, alloc, game.types.as_slice())?;
    let lines = game.lines.as_slice();
    'lines: for line in lines {
        names.add(List::from_slice(alloc, line.output.as_slice())?)?;
    }
    Ok(names)
}

/// The name before the names.
fn prepend(alloc: Global, name: &[u8], names: &[List<u8>]) -> Result<List<List<u8>>, AllocError>
    ensures { IfOk result (λ made. made ≡ name.now ∷ names.now) }
{
    let mut made = List::new(alloc);
    made.add(List::from_slice(alloc, name)?)?;
    add_names(&mut made, alloc, names)?;
    Ok(made)
}

/// Adds each of the lists with the name before it.
fn prepend_to_each(
    all: &mut List<List<List<u8>>>,
    alloc: Global,
    name: &[u8],
    rest: &[List<List<u8>>],
) -> Result<(), AllocError>
    ensures { OnOk result (all.new ≡ all.old ++ map (λ names. name.now ∷ names) rest.now) }
{
    'rest: for names in rest {
        all.add(prepend(alloc, name, names.as_slice())?)?;
    }
    Ok(())
}

/// Each name of the column before each of the lists.
fn cross(
    alloc: Global,
    column: &[List<u8>],
    rest: &[List<List<u8>>],
) -> Result<List<List<List<u8>>>, AllocError>
    ensures { IfOk result (λ all. all ≡ flat_map (λ name. map (λ names. name ∷ names) rest.now) column.now) }
{
    let mut all = List::new(alloc);
    'column: for name in column {
        prepend_to_each(&mut all, alloc, name.as_slice(), rest)?;
    }
    Ok(all)
}

/// Every way to take one name of each column, the first column slowest.
fn joint(alloc: Global, columns: &[List<List<u8>>]) -> Result<List<List<List<u8>>>, AllocError>
    ensures { IfOk result (λ all. all ≡ joint columns.now) }
{
    let mut all = List::new(alloc);
    all.add(List::new(alloc))?;
    let mut left = columns.len();
    'columns: while left > 0 {
        left -= 1;
        let column = &columns[left];
        all = cross(alloc, column.as_slice(), all.as_slice())?;
    }
    Ok(all)
}

/// The cases of the type that has the name, or none.
fn column_of(alloc: Global, types: &[TypeDecl], name: &[u8]) -> Result<List<List<u8>>, AllocError>
    ensures { IfOk result (λ column. column ≡ option_map_or (λ cases. cases) (cases_of types.now name.now) []) }
{
    match cases_of(types, name) {
        Some(cases) => copy_names(alloc, cases.as_slice()),
        None => Ok(List::new(alloc)),
    }
}

/// The lists of cases of the keys.
fn columns_of(
    alloc: Global,
    types: &[TypeDecl],
    keys: &[Key],
) -> Result<List<List<List<u8>>>, AllocError>
    ensures { IfOk result (λ columns. columns ≡ columns_of types.now keys.now) }
{
    let mut columns = List::new(alloc);
    'keys: for key in keys {
        columns.add(column_of(alloc, types, key.action.as_slice())?)?;
    }
    Ok(columns)
}

/// How many rows there are for the joint key.
fn rows_at(rows: &[Row], key: &[List<u8>]) -> usize
    ensures { result ≡ rows_at rows.now key.now }
{
    rows.iter()
        .filter(|row| same_names(row.cases.as_slice(), key))
        .count()
}

/// Whether the row is for one of the joint keys.
fn is_for_a_key(row: &Row, keys: &[List<List<u8>>]) -> bool
    ensures { result ≡ list_any (λ key. same_names row.now.cases key) keys.now }
{
    keys.iter()
        .any(|key| same_names(row.cases.as_slice(), key.as_slice()))
}

/// Whether each joint key has one row.
fn each_has_a_row(keys: &[List<List<u8>>], rows: &[Row]) -> bool
    ensures { result ≡ list_all (λ key. rows_at rows.now key == 1) keys.now }
{
    keys.iter().all(|key| rows_at(rows, key.as_slice()) == 1)
}

/// Whether each row is for a joint key.
fn each_has_a_key(rows: &[Row], keys: &[List<List<u8>>]) -> bool
    ensures { result ≡ list_all (λ row. list_any (λ key. same_names row.cases key) keys.now) rows.now }
{
    rows.iter().all(|row| is_for_a_key(row, keys))
}

/// Whether there is one row for each joint key, and no other row.
fn is_complete(keys: &[List<List<u8>>], rows: &[Row]) -> bool
    ensures { result ≡ is_complete keys.now rows.now }
{
    each_has_a_row(keys, rows) && each_has_a_key(rows, keys)
}

/// Whether every key is of a declared type, and is the output of some line, with that line's type.
fn are_keys_good(game: &SmallGame, keys: &[Key]) -> bool
    ensures { result ≡ are_keys_good game.now keys.now }
{
    let types = game.types.as_slice();
    let lines = game.lines.as_slice();
    keys.iter().all(|key| has_type(types, key.action.as_slice()) && is_output(lines, key))
}

/// Whether every number is below 2^63.
fn are_pays_small(rows: &[Row]) -> bool
    ensures { result ≡ list_all (λ row. nat_lt row.pay (2 ^ 63)) rows.now }
{
    rows.iter().all(|row| row.pay < 1 << 63)
}

/// Whether the line's type is declared, and its table is good.
fn is_line_accepted(alloc: Global, game: &SmallGame, line: &Line) -> Result<bool, AllocError>
    ensures { IfOk result (λ good. good ≡ is_line_accepted game.now line.now) }
{
    let types = game.types.as_slice();
    let keys = line.keys.as_slice();
    let rows = line.rows.as_slice();
    let is_plain = has_type(types, line.action.as_slice())
        && keys.len() <= 4
        && are_keys_good(game, keys)
        && are_pays_small(rows);
    if !is_plain {
        return Ok(false);
    }
    let columns = columns_of(alloc, types, keys)?;
    let joint = joint(alloc, columns.as_slice())?;
    Ok(is_complete(joint.as_slice(), rows))
}

/// Whether each line is accepted.
fn are_lines_accepted(alloc: Global, game: &SmallGame) -> Result<bool, AllocError>
    ensures { IfOk result (λ good. good ≡ list_all (is_line_accepted game.now) game.now.lines) }
{
    let lines = game.lines.as_slice();
    'lines: for line in lines {
        if !is_line_accepted(alloc, game, line)? {
            return Ok(false);
        }
    }
    Ok(true)
}

/// Whether the game gives each name once, and none of them is `main`.
fn are_names_good(alloc: Global, game: &SmallGame) -> Result<bool, AllocError>
    ensures { IfOk result (λ good. good ≡ are_names_good game.now) }
{
    let names = given_names(alloc, game)?;
    Ok(all_differ(names.as_slice()) && !has_name(names.as_slice(), b"main"))
}

/// Whether no type has more than eight cases.
fn are_types_small(types: &[TypeDecl]) -> bool
    ensures { result ≡ list_all (λ t. nat_le (length t.cases) 8) types.now }
{
    types.iter().all(|one| one.cases.len() <= 8)
}

/// Whether the small game is accepted: what it has to be beyond its form. It has at most four lines,
/// eight cases a type and four keys a table. The names of its types, cases and outputs all differ, and
/// none of them is `main`. Each type that it names is declared, each key is the output of some line
/// with that line's type, each table has one row for each joint key and no other, and each number is
/// below 2^63. With two cases `C` and `D` and the keys `x` and `y` the joint keys are `(C, C)`,
/// `(C, D)`, `(D, C)` and `(D, D)`.
pub fn accepts(alloc: Global, game: &SmallGame) -> Result<bool, AllocError>
    // By the rules, one by one.
    ensures rules { IfOk result (λ good. IsTrue good ↔ IsAccepted game.now) }

    // The same as a test that computes.
    ensures value { IfOk result (λ good. good ≡ is_accepted game.now) }
{
    is_accepted(alloc, game)
}

/// As `accepts`, said as a test.
fn is_accepted(alloc: Global, game: &SmallGame) -> Result<bool, AllocError>
    ensures { IfOk result (λ good. good ≡ is_accepted game.now) }
{
    if game.lines.len() > 4 || !are_types_small(game.types.as_slice()) {
        return Ok(false);
    }
    if !are_names_good(alloc, game)? {
        return Ok(false);
    }
    are_lines_accepted(alloc, game)
}

/// Whether the section names the line's agent, and a case of its type.
fn suits(types: &[TypeDecl], line: &Line, section: &Section) -> bool
    ensures { result ≡ suits types.now line.now section.now }
{
    if line.agent.as_slice() != section.agent.as_slice() {
        return false;
    }
    match cases_of(types, line.action.as_slice()) {
        Some(cases) => has_name(cases.as_slice(), section.choice.as_slice()),
        None => false,
    }
}

/// Whether the strategy has one section for each line, in order, and each suits its line: it names the
/// line's agent and a case of its type.
pub fn fits(game: &SmallGame, sections: &[Section]) -> bool
    ensures { result ≡ fits game.now sections.now }
{
    let types = game.types.as_slice();
    let lines = game.lines.as_slice();
    if lines.len() != sections.len() {
        return false;
    }
    'lines: for i in 0..lines.len() {
        let line = &lines[i];
        let section = &sections[i];
        if !suits(types, line, section) {
            return false;
        }
    }
    true
}
