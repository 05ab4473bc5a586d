ghost use Rattle.std.specs.Prelude.{◌≡◌};
ghost use Rattle.og_small.specs.Meaning.{choice_at, is_played, pay, total};

use crate::{Key, Line, Row};
use og_list::List;

/// What the line with this output chooses.
fn choice_at<'a>(lines: &[Line], choices: &'a [List<u8>], output: &[u8]) -> &'a [u8]
    ensures { result.now ≡ choice_at lines.now choices.now output.now }
{
    let count = lines.len().min(choices.len());
    'lines: for i in 0..count {
        let line = &lines[i];
        if line.output.as_slice() == output {
            return choices[i].as_slice();
        }
    }
    &[]
}

/// Whether the row's cases are what is chosen at the keys.
fn is_played(lines: &[Line], choices: &[List<u8>], keys: &[Key], row: &Row) -> bool
    ensures { result ≡ is_played lines.now choices.now keys.now row.now }
{
    let cases = row.cases.as_slice();
    if keys.len() != cases.len() {
        return false;
    }
    'keys: for i in 0..keys.len() {
        let key = &keys[i];
        let name = &cases[i];
        if choice_at(lines, choices, key.output.as_slice()) != name.as_slice() {
            return false;
        }
    }
    true
}

/// The number in the line's table at the joint choice.
fn pay(lines: &[Line], choices: &[List<u8>], line: &Line) -> u64
    ensures { result ≡ pay lines.now choices.now line.now }
{
    let keys = line.keys.as_slice();
    let rows = line.rows.as_slice();
    'rows: for row in rows {
        if is_played(lines, choices, keys, row) {
            return row.pay;
        }
    }
    0
}

/// The sum of the payments of the agent's lines.
pub(crate) fn total(lines: &[Line], choices: &[List<u8>], agent: &[u8]) -> u128
    ensures { result ≡ total lines.now choices.now agent.now }
{
    let mut total = 0u128;
    'lines: for line in lines {
        if line.agent.as_slice() == agent {
            total += u128::from(pay(lines, choices, line));
        }
    }
    total
}
