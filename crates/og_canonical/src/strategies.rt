ghost use Rattle.std.specs.Prelude.{◌≡◌, ◌++◌, IfOk, OnOk};
ghost use Rattle.og_canonical.specs.Strategies.{head_text, section_text, file_text};

use crate::tokens::{write_mark, write_quoted, write_word};
use crate::values::write_rows;
use og_lex::{Mark, Word};
use og_list::Text;
use og_syntax::{Section, StrategyFile};
use std::alloc::{AllocError, Global};

/// The canonical text of a strategy file: its tokens, each with one space or line feed behind it, and each
/// weight written out. That of `strategy "p" { (Low) -> A; }` has three lines: `strategy "p" {`,
/// `( Low ) -> A : 1 ;` and `}`.
pub fn print_strategy(alloc: Global, file: &StrategyFile) -> Result<Text, AllocError>
    ensures { IfOk result (λ made. made ≡ file_text file.now) }
{
    let mut out = Text::from(alloc, "")?;
    'sections: for section in file.sections.as_slice() {
        write_section(section, alloc, &mut out)?;
    }
    Ok(out)
}

/// Adds a section.
#[tactic(auto, unfolding(crate::specs::Strategies::section_text))]
fn write_section(section: &Section, alloc: Global, out: &mut Text) -> Result<(), AllocError>
    ensures { OnOk result (out.new ≡ out.old ++ section_text section.now) }
{
    write_head(section.agent.name.as_str(), out)?;
    write_rows(&section.rows, alloc, out)?;
    write_mark(Mark::RightBrace, out)
}

/// Adds the head of an agent's section.
#[tactic(auto, unfolding(crate::specs::Strategies::head_text))]
fn write_head(agent: &str, out: &mut Text) -> Result<(), AllocError>
    ensures { OnOk result (out.new ≡ out.old ++ head_text agent.now) }
{
    write_word(Word::Strategy, out)?;
    write_quoted(agent, out)?;
    write_mark(Mark::LeftBrace, out)
}
