//! Whole programs.
ghost use Rattle.std.specs.Prelude.{◌≡◌, [], false, Ok, IfOk};
ghost use Rattle.og_names.specs.Names.{has_name};
ghost use Rattle.og_typing.specs.Variables.{is_free};
ghost use Rattle.std.specs.Option.{option_copied};
ghost use Rattle.og_typing.specs.Checked.{Walks};
ghost use Rattle.og_wires.specs.Sites.{blocks_of, site_of};
ghost use Rattle.og_wires.specs.Programs.{is_tuple, given_walk, round_params, game_param_walk, game_params_walk, body_walk, game_kept, with_game, game_declared, enum_declared, alias_declared, function_with_names, decl_walk, decls_walk, main_named, end_walk, is_closed, size_fits, main_fits, all_walk, program_walk};
ghost use Rattle.og_wires.specs.Atoms.{FindsGame};

use crate::games::walk_game;
use crate::kind::{DeclaredGame, GameKind, Level, Size};
use crate::place::game_at;
use crate::sites::{Site, blocks_of};
use og_list::List;
use og_names::Names;
use og_native::{Library, Ports};
use og_syntax::{
    Decl, ExprTree, GameParam, GameTree, NameTree, ParamKind, ParamTree, Program, TyTree,
};
use og_types::Ty;
use og_typing::{
    Around, Given, Meaning, WireFault, count_of, declare_alias, declare_enum, declare_function,
    is_free, plus, type_at, walk_type,
};
use std::alloc::{AllocError, Global};

/// Parameters of a game.
#[derive(Drop)]
pub struct GameParams {
    /// What their names stand for.
    pub given: Names<Given>,
    /// What they stand for, in order.
    pub kinds: List<Given>,
}

/// What is declared, up to some declaration.
#[derive(Drop)]
pub struct Declarations {
    /// What the names stand for.
    pub declared: Names<Meaning>,
    /// The games, by their numbers.
    pub games: List<DeclaredGame>,
    /// How many enums there are.
    pub families: u32,
}

// ---- parameters of games

fn is_tuple(ty: &Ty) -> bool
    ensures { result ≡ is_tuple ty.now }
{
    match ty {
        Ty::Tuple(_) => true,
        Ty::Enum(..) | Ty::Bool | Ty::Range(..) | Ty::Number => false,
    }
}

/// What a parameter stands for: an agent, or a value of a type that is no tuple.
fn walk_given(
    alloc: Global,
    kind: &ParamKind,
    declared: &Names<Meaning>,
) -> Result<Given, WireFault>
    ensures { Walks (given_walk declared.now kind.now) result }
{
    match kind {
        ParamKind::Agent => Ok(Given::Agent),
        ParamKind::Of(written) => {
            let ty = walk_type(alloc, written, declared)?;
            if is_tuple(&ty) {
                return Err(WireFault::WrongType(type_at(written)));
            }
            Ok(Given::Value(ty))
        }
    }
}

fn copy_given(alloc: Global, given: &Given) -> Result<Given, AllocError>
    ensures { IfOk result (λ made. made ≡ given.now) }
{
    match given {
        Given::Agent => Ok(Given::Agent),
        Given::Value(ty) => Ok(Given::Value(ty.copy(alloc)?)),
    }
}

/// Whether nothing has the name yet, of what is declared, the game itself and its parameters so far.
fn is_new(
    alloc: Global,
    declared: &Names<Meaning>,
    own: &str,
    given: &Names<Given>,
    name: &str,
) -> bool
    ensures { result ≡ is_free (round_params declared.now own.now given.now) [] name.now }
{
    let variables = Names::new(alloc);
    let around = Around {
        declared,
        own,
        given,
    };
    is_free(&around, &variables, name)
}

/// A parameter: its name, then what it stands for.
fn walk_game_param(
    alloc: Global,
    param: &GameParam,
    declared: &Names<Meaning>,
    own: &str,
    before: GameParams,
) -> Result<GameParams, WireFault>
    ensures { Walks (game_param_walk declared.now own.now before param.now) result }
{
    let GameParams {
        mut given,
        mut kinds,
    } = before;
    let name = param.name.as_str();
    if !is_new(alloc, declared, own, &given, name) {
        return Err(WireFault::Twice(param.at));
    }
    let kind = walk_given(alloc, &param.kind, declared)?;
    kinds.add(copy_given(alloc, &kind)?)?;
    given.insert(alloc, name, kind)?;
    Ok(GameParams { given, kinds })
}

/// The parameters of a game with the name, in order.
pub fn walk_game_params(
    alloc: Global,
    params: &List<GameParam>,
    declared: &Names<Meaning>,
    own: &str,
) -> Result<GameParams, WireFault>
    ensures { Walks (game_params_walk declared.now own.now params.now) result }
{
    let mut found = GameParams {
        given: Names::new(alloc),
        kinds: List::new(alloc),
    };
    'params: for param in params.as_slice() {
        found = walk_game_param(alloc, param, declared, own, found)?;
    }
    Ok(found)
}

// ---- declarations

/// The body of a declared game, which isn't made of too many games.
fn walk_body(alloc: Global, body: &GameTree, site: &Site<'_>) -> Result<GameKind, WireFault>
    ensures { Walks (body_walk (site_of site.now) body.now) result }
{
    let level = Level {
        depth: 1,
        inside: 0,
    };
    let found = walk_game(alloc, body, site, level)?;
    if found.size.nodes > 65_536 {
        return Err(WireFault::TooBig(game_at(body)));
    }
    Ok(found)
}

/// What is kept of a game: its parameters, then its body.
fn walk_declared<'x>(
    alloc: Global,
    number: u32,
    at: u32,
    name: &'x str,
    params: &List<GameParam>,
    body: &GameTree,
    known: &'x Declarations,
    blocks: &'x Names<Ports>,
) -> Result<DeclaredGame, WireFault>
    ensures { Walks (game_kept blocks.now number at name.now known.now params.now body.now) result }
{
    let found = walk_game_params(alloc, params, &known.declared, name)?;
    let site = Site {
        around: Around {
            declared: &known.declared,
            own: name,
            given: &found.given,
        },
        games: &known.games,
        blocks,
    };
    let kind = walk_body(alloc, body, &site)?;
    Ok(DeclaredGame {
        number,
        at,
        params: found.kinds,
        kind,
    })
}

/// Declares a game: its name, its parameters, and its body.
fn declare_game(
    alloc: Global,
    number: u32,
    at: u32,
    name: &str,
    params: &List<GameParam>,
    body: &GameTree,
    known: Declarations,
    blocks: &Names<Ports>,
) -> Result<Declarations, WireFault>
    ensures { Walks (game_declared blocks.now number at name.now known params.now body.now) result }
{
    if known.declared.has(name) {
        return Err(WireFault::Twice(at));
    }
    let game = walk_declared(alloc, number, at, name, params, body, &known, blocks)?;
    with_game(alloc, name, game, known)
}

fn with_game(
    alloc: Global,
    name: &str,
    game: DeclaredGame,
    known: Declarations,
) -> Result<Declarations, WireFault>
    requires { has_name name.now known.declared ≡ false }
    ensures { Walks (Ok (with_game known name.now game)) result }
{
    let Declarations {
        mut declared,
        mut games,
        families,
    } = known;
    declared.insert(alloc, name, Meaning::Game(count_of(games.len())))?;
    games.add(game)?;
    Ok(Declarations {
        declared,
        games,
        families,
    })
}

fn declare_cases(
    alloc: Global,
    at: u32,
    name: &str,
    cases: &List<NameTree>,
    known: Declarations,
) -> Result<Declarations, WireFault>
    ensures { Walks (enum_declared at name.now known cases.now) result }
{
    let Declarations {
        mut declared,
        games,
        families,
    } = known;
    declare_enum(alloc, families, at, name, cases, &mut declared)?;
    Ok(Declarations {
        declared,
        games,
        families: plus(families, 1),
    })
}

fn declare_type(
    alloc: Global,
    at: u32,
    name: &str,
    ty: &TyTree,
    known: Declarations,
) -> Result<Declarations, WireFault>
    ensures { Walks (alias_declared at name.now known ty.now) result }
{
    let Declarations {
        mut declared,
        games,
        families,
    } = known;
    declare_alias(alloc, at, name, ty, &mut declared)?;
    Ok(Declarations {
        declared,
        games,
        families,
    })
}

fn declare_body(
    alloc: Global,
    number: u32,
    at: u32,
    name: &str,
    params: &List<ParamTree>,
    answer: &TyTree,
    body: &ExprTree,
    known: Declarations,
) -> Result<Declarations, WireFault>
    ensures { Walks (function_with_names number at name.now known params.now answer.now body.now) result }
{
    let Declarations {
        mut declared,
        games,
        families,
    } = known;
    declare_function(alloc, number, at, name, params, answer, body, &mut declared)?;
    Ok(Declarations {
        declared,
        games,
        families,
    })
}

/// What is declared with a declaration more, which has the number, or the first rule that it breaks.
pub fn declare(
    alloc: Global,
    number: u32,
    decl: &Decl,
    known: Declarations,
    blocks: &Names<Ports>,
) -> Result<Declarations, WireFault>
    ensures { Walks (decl_walk blocks.now number known decl.now) result }
{
    match decl {
        Decl::Enum { at, name, cases } => declare_cases(alloc, *at, name.as_str(), cases, known),
        Decl::Alias { at, name, ty } => declare_type(alloc, *at, name.as_str(), ty, known),
        Decl::Fn {
            at,
            name,
            params,
            answer,
            body,
        } => declare_body(
            alloc,
            number,
            *at,
            name.as_str(),
            params,
            answer,
            body,
            known,
        ),
        Decl::Game {
            at,
            name,
            params,
            body,
        } => declare_game(
            alloc,
            number,
            *at,
            name.as_str(),
            params,
            body,
            known,
            blocks,
        ),
    }
}

fn walk_decls(
    alloc: Global,
    decls: &List<Decl>,
    blocks: &Names<Ports>,
    mut known: Declarations,
) -> Result<Declarations, WireFault>
    ensures { Walks (decls_walk blocks.now 0 known decls.now) result }
{
    let mut number = 0;
    'decls: for decl in decls.as_slice() {
        known = declare(alloc, number, decl, known, blocks)?;
        number = plus(number, 1);
    }
    Ok(known)
}

// ---- the end

fn main_named<'a>(
    at: u32,
    games: &'a List<DeclaredGame>,
    found: Option<&Meaning>,
) -> Result<&'a DeclaredGame, WireFault>
    ensures { FindsGame (main_named at games.now (option_copied found.entry)) result }
{
    match found {
        Some(Meaning::Game(number)) => match games.get(*number as usize) {
            Some(game) => Ok(game),
            None => Err(WireFault::Unknown(at)),
        },
        _ => Err(WireFault::Unknown(at)),
    }
}

fn is_closed(ports: &Ports) -> bool
    ensures { result ≡ is_closed ports.now }
{
    (ports.inputs.is_empty() && ports.feedback.is_empty())
        && (ports.outputs.is_empty() && ports.returns.is_empty())
}

/// At most 4,096 flat lines, and at most 1,048,576 of what they weigh, with a scale below 2^62.
fn size_fits(at: u32, size: Size) -> Result<(), WireFault>
    ensures { Walks (size_fits at size) result }
{
    if size.lines > 4096 {
        return Err(WireFault::TooManyLines(at));
    }
    if size.weight > 1_048_576 {
        return Err(WireFault::TooBig(at));
    }
    if size.scale >= 1 << 62 {
        return Err(WireFault::ScaleTooLarge(at));
    }
    Ok(())
}

/// The rules on `main`, at its name.
fn main_fits(main: &DeclaredGame) -> Result<(), WireFault>
    ensures { Walks (main_fits main.now) result }
{
    if !main.params.is_empty() {
        return Err(WireFault::WrongCount(main.at));
    }
    if !is_closed(&main.kind.ports) {
        return Err(WireFault::NotClosed(main.at));
    }
    size_fits(main.at, main.kind.size)
}

fn walk_main(at: u32, known: &Declarations) -> Result<(), WireFault>
    ensures { Walks (end_walk at known.now) result }
{
    let main = main_named(at, &known.games, known.declared.get("main"))?;
    main_fits(main)
}

/// The declarations in order, then the rules on `main`.
fn walk_all(
    alloc: Global,
    program: &Program,
    blocks: &Names<Ports>,
) -> Result<Declarations, WireFault>
    ensures { Walks (all_walk blocks.now program.now) result }
{
    let none = Declarations {
        declared: Names::new(alloc),
        games: List::new(alloc),
        families: 0,
    };
    let known = walk_decls(alloc, &program.decls, blocks, none)?;
    walk_main(program.at, &known)?;
    Ok(known)
}

/// The same, where there are fewer than 2^32 declarations.
fn walk_with(
    alloc: Global,
    program: &Program,
    blocks: &Names<Ports>,
) -> Result<Declarations, WireFault>
    ensures { Walks (program_walk blocks.now program.now) result }
{
    if program.decls.len() > 4_294_967_295 {
        return Err(WireFault::TooBig(program.at));
    }
    walk_all(alloc, program, blocks)
}

/// What a whole program declares, or the first rule that it breaks: its declarations in order, then the rules on `main`.
pub fn walk_program(
    alloc: Global,
    program: &Program,
    library: &Library,
) -> Result<Declarations, WireFault>
    ensures { Walks (program_walk (blocks_of library.now.blocks.items) program.now) result }
{
    let blocks = blocks_of(alloc, library)?;
    walk_with(alloc, program, &blocks)
}
