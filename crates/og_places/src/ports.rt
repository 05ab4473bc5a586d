//! The ports of the game expression at a place.
ghost use Rattle.std.specs.Prelude.{◌≡◌, ◌<◌, ◌↔◌, ℕ, List, length, take, IfOk, IsSome};
ghost use Rattle.og_typing.specs.Checked.{Walks};
ghost use Rattle.og_wires.specs.Sites.{blocks_of};
ghost use Rattle.og_wires.specs.Programs.{no_names, decls_walk, IsWired};
ghost use Rattle.og_places.specs.Expressions.{expression_walk, given_by};
ghost use Rattle.og_places.specs.Places.{expression_at, ports_given, ports_within, ports_named, ports_there};

use crate::places::Place;
use crate::steps::{level_at, subtree};
use og_list::List;
use og_names::Names;
use og_native::{Library, Ports};
use og_syntax::{Decl, GameParam, GameTree, Program};
use og_typing::{Around, WireFault, plus};
use og_wires::{
    Declarations, GameKind, Level, Site, blocks_of, declare, walk_game, walk_game_params,
};
use std::alloc::{AllocError, Global};

/// What the declarations declare behind what is known, or the first rule that they break.
fn walk_decls(
    alloc: Global,
    decls: &[Decl],
    blocks: &Names<Ports>,
    mut known: Declarations,
) -> Result<Declarations, WireFault>
    ensures { Walks (decls_walk blocks.now 0 known decls.now) result }
{
    let mut number = 0;
    'decls: for decl in decls {
        known = declare(alloc, number, decl, known, blocks)?;
        number = plus(number, 1);
    }
    Ok(known)
}

/// What the declarations declare, or the first rule that they break.
fn walk_before(
    alloc: Global,
    decls: &[Decl],
    blocks: &Names<Ports>,
) -> Result<Declarations, WireFault>
    ensures { Walks (decls_walk blocks.now 0 no_names decls.now) result }
{
    let none = Declarations {
        declared: Names::new(alloc),
        games: List::new(alloc),
        families: 0,
    };
    walk_decls(alloc, decls, blocks, none)
}

/// What is found of a game expression in the body of a game with the name and the parameters, behind declarations.
fn walk_expression<'x>(
    alloc: Global,
    before: &[Decl],
    name: &'x str,
    params: &List<GameParam>,
    level: Level,
    expression: &GameTree,
    blocks: &'x Names<Ports>,
) -> Result<GameKind, WireFault>
    ensures { Walks (expression_walk blocks.now before.now name.now params.now level expression.now) result }
{
    let known = walk_before(alloc, before, blocks)?;
    let found = walk_game_params(alloc, params, &known.declared, name)?;
    let site = Site {
        around: Around {
            declared: &known.declared,
            own: name,
            given: &found.given,
        },
        games: &known.games,
        blocks,
    };
    walk_game(alloc, expression, &site, level)
}

/// The ports of such a game expression, or `None` where a rule is broken.
fn ports_given(
    alloc: Global,
    before: &[Decl],
    name: &str,
    params: &List<GameParam>,
    level: Level,
    expression: &GameTree,
    blocks: &Names<Ports>,
) -> Result<Option<Ports>, AllocError>
    ensures { IfOk result (λ found. found
        ≡ ports_given (expression_walk blocks.now before.now name.now params.now level expression.now)) }
{
    match walk_expression(alloc, before, name, params, level, expression, blocks) {
        Ok(kind) => Ok(Some(kind.ports)),
        Err(WireFault::Memory) => Err(AllocError),
        Err(_) => Ok(None),
    }
}

/// The ports of the game expression at the place in the game, which is the declaration with the number.
fn ports_within(
    alloc: Global,
    decls: &List<Decl>,
    number: usize,
    params: &List<GameParam>,
    body: &GameTree,
    blocks: &Names<Ports>,
    place: &Place,
) -> Result<Option<Ports>, AllocError>
    requires { number < length decls.now }
    ensures { IfOk result (λ found. found ≡ ports_within blocks.now decls.now place.now (record {
      number = number;
      params = params.now;
      body = body.now;
    })) }
{
    let before = &decls.as_slice()[..number];
    let level = level_at(&place.steps);
    match subtree(body, &place.steps) {
        Some(expression) => ports_given(
            alloc,
            before,
            place.game.as_str(),
            params,
            level,
            expression,
            blocks,
        ),
        None => Ok(None),
    }
}

/// The ports of the game expression at the place in the first game with the place's name.
fn ports_named(
    alloc: Global,
    decls: &List<Decl>,
    blocks: &Names<Ports>,
    place: &Place,
) -> Result<Option<Ports>, AllocError>
    ensures { IfOk result (λ found. found ≡ ports_named blocks.now decls.now place.now) }
{
    'decls: for (number, decl) in decls.as_slice().iter().enumerate() {
        if let Decl::Game {
            name,
            params,
            body,
            ..
        } = decl
        {
            if name.as_str() == place.game.as_str() {
                return ports_within(alloc, decls, number, params, body, blocks, place);
            }
        }
    }
    Ok(None)
}

/// The ports that the wiring gives the game expression at the place, in a program that breaks no rule. `None` exactly where no
/// game has the place's name, or the steps lead to no game expression. It fails only where there is no memory.
pub fn ports_at(
    alloc: Global,
    program: &Program,
    library: &Library,
    place: &Place,
) -> Result<Option<Ports>, AllocError>
    requires { IsWired (blocks_of library.now.blocks.items) program.now }
    ensures ports { IfOk result (λ found. found ≡ ports_there (blocks_of library.now.blocks.items) program.now place.now) }
    ensures there { IfOk result (λ found. IsSome found ↔ IsSome (expression_at program.now place.now)) }
{
    let blocks = blocks_of(alloc, library)?;
    ports_named(alloc, &program.decls, &blocks, place)
}
