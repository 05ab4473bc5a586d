ghost use Rattle.std.specs.Prelude.{◌≡◌, IfOk};

use crate::boxes::{add_made, both};
use crate::expressions::ExprTree;
use crate::games::GameTree;
use crate::types::{NameTree, ParamTree, TyTree, copy_names, copy_params};
use og_list::{List, Text};
use std::alloc::{AllocError, Global};

/// A program: its declarations, in order.
#[derive(Drop)]
pub struct Program {
    /// The length of the text.
    pub at: u32,
    /// The version of the language that the text asks for: 2 where it says so, else 1.
    pub version: u32,
    /// The declarations, in order.
    pub decls: List<Decl>,
}

/// A declaration.
#[derive(Drop)]
pub enum Decl {
    /// A type by its cases.
    Enum {
        /// The place of the type's name.
        at: u32,
        /// The type's name.
        name: Text,
        /// The cases, in order: one or more.
        cases: List<NameTree>,
    },
    /// A name for a type.
    Alias {
        /// The place of the name.
        at: u32,
        /// The name.
        name: Text,
        /// The type.
        ty: TyTree,
    },
    /// A function.
    Fn {
        /// The place of the function's name.
        at: u32,
        /// The function's name.
        name: Text,
        /// The parameters, in order.
        params: List<ParamTree>,
        /// The type of what it gives.
        answer: TyTree,
        /// What it gives.
        body: ExprTree,
    },
    /// A game.
    Game {
        /// The place of the game's name.
        at: u32,
        /// The game's name.
        name: Text,
        /// The parameters, in order.
        params: List<GameParam>,
        /// The game.
        body: GameTree,
    },
}

/// A parameter of a game.
#[derive(Drop)]
pub struct GameParam {
    /// The place of the parameter.
    pub at: u32,
    /// The parameter.
    pub name: Text,
    /// What it stands for.
    pub kind: ParamKind,
}

/// What a parameter of a game stands for.
#[derive(Drop)]
pub enum ParamKind {
    /// An agent's name.
    Agent,
    /// A value of a type.
    Of(TyTree),
}

impl Program {
    /// An equal program, in memory of its own.
    pub fn copy(&self, alloc: Global) -> Result<Program, AllocError>
        ensures { IfOk result (λ made. made ≡ self.now) }
    {
        let mut decls = List::new(alloc);
        'decls: for decl in self.decls.as_slice() {
            add_made(&mut decls, decl.copy(alloc))?;
        }
        Ok(Program {
            at: self.at,
            version: self.version,
            decls,
        })
    }
}

impl Decl {
    /// An equal declaration, in memory of its own.
    pub fn copy(&self, alloc: Global) -> Result<Decl, AllocError>
        ensures { IfOk result (λ made. made ≡ self.now) }
    {
        match self {
            Decl::Enum { at, name, cases } => copy_enum(alloc, *at, name, cases),
            Decl::Alias { at, name, ty } => copy_alias(alloc, *at, name, ty),
            Decl::Fn {
                at,
                name,
                params,
                answer,
                body,
            } => copy_fn(alloc, *at, name, params, answer, body),
            Decl::Game {
                at,
                name,
                params,
                body,
            } => copy_game(alloc, *at, name, params, body),
        }
    }
}

impl GameParam {
    /// An equal parameter, in memory of its own.
    pub fn copy(&self, alloc: Global) -> Result<GameParam, AllocError>
        ensures { IfOk result (λ made. made ≡ self.now) }
    {
        let (name, kind) = both(self.name.copy(alloc), self.kind.copy(alloc))?;
        Ok(GameParam {
            at: self.at,
            name,
            kind,
        })
    }
}

impl ParamKind {
    /// An equal kind, in memory of its own.
    pub fn copy(&self, alloc: Global) -> Result<ParamKind, AllocError>
        ensures { IfOk result (λ made. made ≡ self.now) }
    {
        match self {
            ParamKind::Agent => Ok(ParamKind::Agent),
            ParamKind::Of(ty) => Ok(ParamKind::Of(ty.copy(alloc)?)),
        }
    }
}

/// Equal parameters, in the same order, in memory of their own.
fn copy_game_params(alloc: Global, params: &List<GameParam>) -> Result<List<GameParam>, AllocError>
    ensures { IfOk result (λ made. made ≡ params.now) }
{
    let mut all = List::new(alloc);
    'params: for param in params.as_slice() {
        add_made(&mut all, param.copy(alloc))?;
    }
    Ok(all)
}

/// A type by equal cases, in memory of their own.
fn copy_enum(
    alloc: Global,
    at: u32,
    name: &Text,
    cases: &List<NameTree>,
) -> Result<Decl, AllocError>
    ensures { IfOk result (λ made. made ≡ Decl.Enum at name.now cases.now) }
{
    let (name, cases) = both(name.copy(alloc), copy_names(alloc, cases))?;
    Ok(Decl::Enum { at, name, cases })
}

/// An equal name for an equal type, in memory of their own.
fn copy_alias(alloc: Global, at: u32, name: &Text, ty: &TyTree) -> Result<Decl, AllocError>
    ensures { IfOk result (λ made. made ≡ Decl.Alias at name.now ty.now) }
{
    let (name, ty) = both(name.copy(alloc), ty.copy(alloc))?;
    Ok(Decl::Alias { at, name, ty })
}

/// A function of equal parts, in memory of their own.
fn copy_fn(
    alloc: Global,
    at: u32,
    name: &Text,
    params: &List<ParamTree>,
    answer: &TyTree,
    body: &ExprTree,
) -> Result<Decl, AllocError>
    ensures { IfOk result (λ made. made ≡ Decl.Fn at name.now params.now answer.now body.now) }
{
    let named = both(name.copy(alloc), copy_params(alloc, params));
    let given = both(answer.copy(alloc), body.copy(alloc));
    let ((name, params), (answer, body)) = both(named, given)?;
    Ok(Decl::Fn {
        at,
        name,
        params,
        answer,
        body,
    })
}

/// A game's declaration of equal parts, in memory of their own.
fn copy_game(
    alloc: Global,
    at: u32,
    name: &Text,
    params: &List<GameParam>,
    body: &GameTree,
) -> Result<Decl, AllocError>
    ensures { IfOk result (λ made. made ≡ Decl.Game at name.now params.now body.now) }
{
    let named = both(name.copy(alloc), copy_game_params(alloc, params));
    let ((name, params), body) = both(named, body.copy(alloc))?;
    Ok(Decl::Game {
        at,
        name,
        params,
        body,
    })
}
