ghost use Rattle.std.specs.Prelude.{◌≡◌, IfOk};

use crate::boxes::{add_made, both};
use og_list::{List, Text};
use std::alloc::{AllocError, Global};

/// A name, with its place.
#[derive(Drop)]
pub struct NameTree {
    /// The place of the name's token.
    pub at: u32,
    /// The name. Of a name that is written in quotes it is what stands between them.
    pub name: Text,
}

/// A variable with its type, as a parameter of a function or a wire of a block.
#[derive(Drop)]
pub struct ParamTree {
    /// The place of the variable.
    pub at: u32,
    /// The variable.
    pub name: Text,
    /// The variable's type.
    pub ty: TyTree,
}

/// A type as it is written.
#[derive(Drop)]
pub enum TyTree {
    /// A declared type, by its name: the place of the name, and the name.
    Name(u32, Text),
    /// The truths: the place of `bool`.
    Bool(u32),
    /// Any fraction: the place of `number`.
    Number(u32),
    /// The whole numbers from the first to the second: the place of the first one's token, or of its
    /// minus, and the two bounds.
    Range(u32, i64, i64),
    /// One value of each type: the place of `(`, and two types or more.
    Tuple(u32, List<TyTree>),
}

impl NameTree {
    /// An equal name, in memory of its own.
    pub fn copy(&self, alloc: Global) -> Result<NameTree, AllocError>
        ensures { IfOk result (λ made. made ≡ self.now) }
    {
        let name = self.name.copy(alloc)?;
        Ok(NameTree { at: self.at, name })
    }
}

impl ParamTree {
    /// An equal parameter, in memory of its own.
    pub fn copy(&self, alloc: Global) -> Result<ParamTree, AllocError>
        ensures { IfOk result (λ made. made ≡ self.now) }
    {
        let (name, ty) = both(self.name.copy(alloc), self.ty.copy(alloc))?;
        Ok(ParamTree {
            at: self.at,
            name,
            ty,
        })
    }
}

impl TyTree {
    /// An equal type, in memory of its own.
    #[cycle(type_copies)]
    pub fn copy(&self, alloc: Global) -> Result<TyTree, AllocError>
        ensures { IfOk result (λ made. made ≡ self.now) }
    {
        match self {
            TyTree::Name(at, name) => Ok(TyTree::Name(*at, name.copy(alloc)?)),
            TyTree::Bool(at) => Ok(TyTree::Bool(*at)),
            TyTree::Number(at) => Ok(TyTree::Number(*at)),
            TyTree::Range(at, low, high) => Ok(TyTree::Range(*at, *low, *high)),
            TyTree::Tuple(at, parts) => Ok(TyTree::Tuple(*at, copy_types(alloc, parts)?)),
        }
    }
}

/// Equal types, in the same order, in memory of their own.
#[cycle(type_copies)]
pub(crate) fn copy_types(alloc: Global, types: &List<TyTree>) -> Result<List<TyTree>, AllocError>
    ensures { IfOk result (λ made. made ≡ types.now) }
{
    let mut all = List::new(alloc);
    'types: for ty in types.as_slice() {
        add_made(&mut all, ty.copy(alloc))?;
    }
    Ok(all)
}

/// Equal names, in the same order, in memory of their own.
pub(crate) fn copy_names(
    alloc: Global,
    names: &List<NameTree>,
) -> Result<List<NameTree>, AllocError>
    ensures { IfOk result (λ made. made ≡ names.now) }
{
    let mut all = List::new(alloc);
    'names: for name in names.as_slice() {
        add_made(&mut all, name.copy(alloc))?;
    }
    Ok(all)
}

/// Equal parameters, in the same order, in memory of their own.
pub(crate) fn copy_params(
    alloc: Global,
    params: &List<ParamTree>,
) -> Result<List<ParamTree>, AllocError>
    ensures { IfOk result (λ made. made ≡ params.now) }
{
    let mut all = List::new(alloc);
    'params: for param in params.as_slice() {
        add_made(&mut all, param.copy(alloc))?;
    }
    Ok(all)
}
