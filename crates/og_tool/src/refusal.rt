ghost use Rattle.std.specs.Prelude.{◌≡◌, IfOk};
ghost use Rattle.og_tool.specs.Answer.{IsRefusal, fault_at, named_at, wire_fault_at};

use crate::Status;
use crate::answer::Answer;
use og_list::List;
use og_texts::{Place, TextFault};
use og_typing::WireFault;
use std::alloc::{AllocError, Global};

/// An answer of one line.
pub(crate) fn line(alloc: Global, status: Status, line: &[u8]) -> Result<Answer, AllocError>
    ensures ends { IfOk result (λ a. a.status ≡ status) }
    ensures writes { IfOk result (λ a. a.bytes ≡ line.now) }
{
    let bytes = List::from_slice(alloc, line)?;
    Ok(Answer { status, bytes })
}

/// The line that refuses a text for its fault. `which` says which text it is.
pub(crate) fn refuse(
    alloc: Global,
    status: Status,
    which: &str,
    text: &[u8],
    fault: TextFault,
) -> Result<Answer, AllocError>
    ensures { IfOk result (IsRefusal status (fault_at which.now text.now fault)) }
{
    refuse_at(alloc, status, which, text, fault.code(), fault.place())
}

/// The line that refuses a text for a fault of this name at this place.
fn refuse_at(
    alloc: Global,
    status: Status,
    which: &str,
    text: &[u8],
    code: &str,
    place: u32,
) -> Result<Answer, AllocError>
    ensures { IfOk result (IsRefusal status (named_at which.now text.now code.now place)) }
{
    let Place { line: row, column } = Place::of(text, place);
    let made = format!(in alloc; "refused {which} {code} at {row}:{column}\n")?;
    line(alloc, status, made.as_bytes())
}

/// The line that refuses a game's text for a rule of the wiring that it breaks.
pub(crate) fn refuse_wiring(
    alloc: Global,
    text: &[u8],
    fault: WireFault,
) -> Result<Answer, AllocError>
    ensures { IfOk result (IsRefusal Status.GameText (wire_fault_at text.now fault)) }
{
    refuse_at(
        alloc,
        Status::GameText,
        "game",
        text,
        fault.code(),
        fault.place(),
    )
}
