//! What a game sees, and how large it is.
ghost use Rattle.std.specs.Prelude.{◌≡◌, IfOk};
ghost use Rattle.og_wires.specs.Sites.{blocks_of, with_named, below, inside, scaled, alone, with_lines, with_part, called};

use crate::kind::{DeclaredGame, Level, Size};
use og_list::List;
use og_names::Names;
use og_native::{Library, Ports};
use og_typing::{Around, plus};
use std::alloc::{AllocError, Global};

/// What a game sees: what is declared before it with the parameters round it, the games among these, and the host
/// program's blocks.
#[derive(Clone, Copy, Drop)]
pub struct Site<'a> {
    /// What is declared before it, and the parameters of the game in which it stands.
    pub around: Around<'a>,
    /// The declared games, by their numbers.
    pub games: &'a List<DeclaredGame>,
    /// The ports of the host program's blocks, by their names.
    pub blocks: &'a Names<Ports>,
}

/// Adds a block, if its name isn't there.
fn add_named(
    alloc: Global,
    name: &str,
    ports: &Ports,
    blocks: &mut Names<Ports>,
) -> Result<(), AllocError>
    ensures { IfOk result (λ _. blocks.new ≡ with_named name.now ports.now blocks.old) }
{
    if !blocks.has(name) {
        blocks.insert(alloc, name, ports.copy(alloc)?)?;
    }
    Ok(())
}

/// The ports of the library's blocks, by their names.
#[tactic(auto, using(crate::proofs::Blocks::blocks_next, crate::proofs::Blocks::blocks_end, crate::proofs::Blocks::blocks_all))]
pub fn blocks_of(alloc: Global, library: &Library) -> Result<Names<Ports>, AllocError>
    ensures { IfOk result (λ made. made ≡ blocks_of library.now.blocks.items) }
{
    let mut blocks = Names::new(alloc);
    'numbers: for number in 0..4_294_967_295 {
        match library.block(number) {
            Some(block) => add_named(alloc, block.name(), block.ports(), &mut blocks)?,
            None => return Ok(blocks),
        }
    }
    Ok(blocks)
}

/// One deeper.
pub(crate) fn below(level: Level) -> Level
    ensures { result ≡ below level }
{
    Level {
        depth: plus(level.depth, 1),
        inside: level.inside,
    }
}

/// One deeper, inside one branch more.
pub(crate) fn inside(level: Level) -> Level
    ensures { result ≡ inside level }
{
    Level {
        depth: plus(level.depth, 1),
        inside: plus(level.inside, 1),
    }
}

fn scaled(m: u64, n: u64) -> u64
    ensures { result ≡ scaled m n }
{
    m.saturating_mul(n).min(1 << 62)
}

/// A game without its parts.
pub(crate) fn alone(level: Level) -> Size
    ensures { result ≡ alone level }
{
    Size {
        deep: level.depth,
        nested: level.inside,
        nodes: 1,
        lines: 0,
        weight: 0,
        scale: 1,
    }
}

/// With so many more flat lines, and so many more of what they weigh.
pub(crate) fn with_lines(lines: u32, weight: u32, size: Size) -> Size
    ensures { result ≡ with_lines lines weight size }
{
    Size {
        lines: plus(size.lines, lines),
        weight: plus(size.weight, weight),
        ..size
    }
}

/// With one part more.
pub(crate) fn with_part(size: Size, part: Size) -> Size
    ensures { result ≡ with_part size part }
{
    Size {
        deep: size.deep.max(part.deep),
        nested: size.nested.max(part.nested),
        nodes: plus(size.nodes, part.nodes),
        lines: plus(size.lines, part.lines),
        weight: plus(size.weight, part.weight),
        scale: scaled(size.scale, part.scale),
    }
}

/// A body in the place of a call.
pub(crate) fn called(level: Level, size: Size) -> Size
    ensures { result ≡ called level size }
{
    Size {
        deep: plus(level.depth, size.deep).saturating_sub(1),
        nested: plus(level.inside, size.nested),
        ..size
    }
}
