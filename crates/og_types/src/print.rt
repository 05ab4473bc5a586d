ghost use Rattle.std.specs.Prelude.{◌≡◌, ◌++◌, IfOk, OnOk, map, codes};
ghost use Rattle.og_types.specs.Names.{text_of, with_commas};

use crate::enums::Enums;
use crate::value::Value;
use og_list::{List, Text};
use std::alloc::{AllocError, Global};

/// The value as text: a case by its name, `true` or `false`, a number as a fraction prints, a tuple as
/// `(a, b)`. A case that `enums` doesn't have prints as nothing.
pub fn show(alloc: Global, v: &Value, enums: &Enums) -> Result<Text, AllocError>
    ensures { IfOk result (λ made. made ≡ text_of enums.now v.now) }
{
    let mut out = Text::from(alloc, "")?;
    write_value(v, enums, alloc, &mut out)?;
    Ok(out)
}

/// Adds the value's text at the end.
#[cycle(showing)]
#[tactic(auto, using(crate::proofs::ValueLevels::text_of_tuple))]
fn write_value(v: &Value, enums: &Enums, alloc: Global, out: &mut Text) -> Result<(), AllocError>
    ensures { OnOk result (out.new ≡ out.old ++ text_of enums.now v.now) }
{
    match v {
        Value::Case(family, index) => match enums.case(*family, *index) {
            Some(name) => out.push_str(name),
            None => Ok(()),
        },
        Value::Flag(flag) => out.push_str(if *flag { "true" } else { "false" }),
        Value::Number(number) => {
            let text = format!(in alloc; "{number}")?;
            out.push_str(text.as_str())
        }
        Value::Tuple(parts) => {
            out.push_str("(")?;
            write_parts(parts, enums, alloc, out)?;
            out.push_str(")")
        }
    }
}

/// Adds the texts of the values at the end, with a comma and a space between each two.
#[cycle(showing)]
fn write_parts(
    parts: &List<Value>,
    enums: &Enums,
    alloc: Global,
    out: &mut Text,
) -> Result<(), AllocError>
    ensures { OnOk result (out.new ≡ out.old ++ with_commas (map (text_of enums.now) parts.now)) }
{
    'parts: for (at, part) in parts.as_slice().iter().enumerate() {
        if at > 0 {
            out.push_str(", ")?;
        }
        write_value(part, enums, alloc, out)?;
    }
    Ok(())
}
