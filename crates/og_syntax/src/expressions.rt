ghost use Rattle.std.specs.Prelude.{◌≡◌, ℕ, List, Ok, IfOk};
ghost use Rattle.og_syntax.specs.Places.{expr_place};

use crate::boxes::{add_made, both, new_box};
use crate::types::TyTree;
use crate::values::{ValueTree, copy_values};
use og_list::{Boxed, List, Text};
use std::alloc::{AllocError, Global};

/// An expression as it is written. Round brackets round one expression leave no node, so an operation
/// begins where its first part begins.
///
/// The types of its parts, as `SumPart`, are over any type of expressions: a definition by recursion on
/// expressions has in their place what it gives of each.
#[derive(Drop)]
pub enum ExprTree {
    /// A whole number, also one behind a minus: the place of its first token, and the number.
    Number(u32, i64),
    /// A truth: the place of its word, and the truth.
    Flag(u32, bool),
    /// A variable or a case: the place of the name, and the name.
    Name(u32, Text),
    /// A call of a function.
    Call {
        /// The place of the function's name.
        at: u32,
        /// The function's name.
        name: Text,
        /// The arguments, in order.
        args: List<ExprTree>,
    },
    /// A chain of `or`: the place where its first part begins, and two parts or more.
    Or(u32, List<ExprTree>),
    /// A chain of `and`: the place where its first part begins, and two parts or more.
    And(u32, List<ExprTree>),
    /// `not` before an expression: the place of `not`, and the expression.
    Not(u32, Boxed<ExprTree>),
    /// A comparison.
    Compare {
        /// The place where the left part begins.
        at: u32,
        /// Which comparison it is.
        op: CompareOp,
        /// What stands before the mark.
        left: Boxed<ExprTree>,
        /// What stands behind it.
        right: Boxed<ExprTree>,
    },
    /// A chain of `+` and `-`.
    Sum {
        /// The place where the first part begins.
        at: u32,
        /// The first part.
        first: Boxed<ExprTree>,
        /// The others, each with the mark before it: one or more.
        rest: List<SumPart>,
    },
    /// A chain of `*` and `/`.
    Product {
        /// The place where the first part begins.
        at: u32,
        /// The first part.
        first: Boxed<ExprTree>,
        /// The others, each with the mark before it: one or more.
        rest: List<ProductPart>,
    },
    /// A minus before an expression that isn't a number: the place of the minus, and the expression.
    Neg(u32, Boxed<ExprTree>),
    /// A component of a tuple, or of a component of it, and so on: `e.1.0` is one node.
    Field {
        /// The place where the tuple's expression begins.
        at: u32,
        /// The tuple's expression.
        part: Boxed<ExprTree>,
        /// The components that are taken, one after another, each counted from 0: one or more.
        path: List<u64>,
    },
    /// A tuple: the place of `(`, and two parts or more.
    Tuple(u32, List<ExprTree>),
    /// A choice by conditions.
    If {
        /// The place of `if`.
        at: u32,
        /// The conditions with what holds under each, in order: one or more.
        arms: List<IfArm>,
        /// What holds where no condition is true.
        otherwise: Boxed<ExprTree>,
    },
    /// A choice by the joint value of some keys.
    Table {
        /// The place of `table`.
        at: u32,
        /// The keys, each with its type: one or more.
        keys: List<ResultTree>,
        /// The rows, in order.
        rows: List<TableRow>,
    },
    /// A quotient, with what to take where the divisor is 0.
    Ratio {
        /// The place of `ratio`.
        at: u32,
        /// What is divided.
        x: Boxed<ExprTree>,
        /// The divisor.
        y: Boxed<ExprTree>,
        /// What to take where the divisor is 0.
        otherwise: Boxed<ExprTree>,
    },
    /// The lesser of two: the place of `min`, and the two.
    Min(u32, Boxed<ExprTree>, Boxed<ExprTree>),
    /// The greater of two: the place of `max`, and the two.
    Max(u32, Boxed<ExprTree>, Boxed<ExprTree>),
    /// A number rounded down and held between two bounds.
    Clamp {
        /// The place of `clamp`.
        at: u32,
        /// The place of the lower bound's first token.
        lo_at: u32,
        /// The lower bound.
        lo: i64,
        /// The upper bound.
        hi: i64,
        /// The number's expression.
        part: Boxed<ExprTree>,
    },
}

/// The comparisons.
#[derive(Clone, Copy, Debug, PartialEq, Eq)]
pub enum CompareOp {
    /// `==`
    Equal,
    /// `!=`
    Differs,
    /// `<`
    Less,
    /// `<=`
    AtMost,
    /// `>`
    Greater,
    /// `>=`
    AtLeast,
}

/// A further part of a chain of `+` and `-`.
#[derive(Drop)]
pub enum SumPart<E = ExprTree> {
    /// A part behind `+`.
    Plus(E),
    /// A part behind `-`.
    Minus(E),
}

/// A further part of a chain of `*` and `/`.
#[derive(Drop)]
pub enum ProductPart<E = ExprTree> {
    /// A part behind `*`.
    Times(E),
    /// The number behind `/`.
    Over(u64),
}

/// A condition with what holds under it.
#[derive(Drop)]
pub struct IfArm<E = ExprTree> {
    /// The condition.
    pub cond: E,
    /// What holds where it is the first true one.
    pub body: E,
}

/// A row of a table.
#[derive(Drop)]
pub struct TableRow<E = ExprTree> {
    /// The place of `(`.
    pub at: u32,
    /// One value for each of the table's keys.
    pub key: List<ValueTree>,
    /// What holds there.
    pub body: E,
}

/// An expression with the type that is written behind it.
#[derive(Drop)]
pub struct ResultTree<E = ExprTree> {
    /// The expression.
    pub expr: E,
    /// Its type.
    pub ty: TyTree,
}

impl ExprTree {
    /// The place where the expression begins, without the brackets round it that leave no node.
    pub fn at(&self) -> u32
        ensures { result ≡ expr_place self.now }
    {
        match self {
            ExprTree::Number(at, _)
            | ExprTree::Flag(at, _)
            | ExprTree::Name(at, _)
            | ExprTree::Or(at, _)
            | ExprTree::And(at, _)
            | ExprTree::Not(at, _)
            | ExprTree::Neg(at, _)
            | ExprTree::Tuple(at, _)
            | ExprTree::Min(at, _, _)
            | ExprTree::Max(at, _, _)
            | ExprTree::Call { at, .. }
            | ExprTree::Compare { at, .. }
            | ExprTree::Sum { at, .. }
            | ExprTree::Product { at, .. }
            | ExprTree::Field { at, .. }
            | ExprTree::If { at, .. }
            | ExprTree::Table { at, .. }
            | ExprTree::Ratio { at, .. }
            | ExprTree::Clamp { at, .. } => *at,
        }
    }

    /// An equal expression, in memory of its own.
    #[cycle(expression_copies)]
    pub fn copy(&self, alloc: Global) -> Result<ExprTree, AllocError>
        ensures { IfOk result (λ made. made ≡ self.now) }
    {
        match self {
            ExprTree::Number(at, number) => Ok(ExprTree::Number(*at, *number)),
            ExprTree::Flag(at, flag) => Ok(ExprTree::Flag(*at, *flag)),
            ExprTree::Name(at, name) => Ok(ExprTree::Name(*at, name.copy(alloc)?)),
            ExprTree::Call { at, name, args } => {
                call(*at, name.copy(alloc), copy_exprs(alloc, args))
            }
            ExprTree::Or(at, parts) => Ok(ExprTree::Or(*at, copy_exprs(alloc, parts)?)),
            ExprTree::And(at, parts) => Ok(ExprTree::And(*at, copy_exprs(alloc, parts)?)),
            ExprTree::Not(at, part) => Ok(ExprTree::Not(*at, copy_box(alloc, part)?)),
            ExprTree::Compare {
                at,
                op,
                left,
                right,
            } => compare(*at, *op, copy_box(alloc, left), copy_box(alloc, right)),
            ExprTree::Sum { at, first, rest } => {
                sum(*at, copy_box(alloc, first), copy_sum_parts(alloc, rest))
            }
            ExprTree::Product { at, first, rest } => {
                product(*at, copy_box(alloc, first), copy_product_parts(alloc, rest))
            }
            ExprTree::Neg(at, part) => Ok(ExprTree::Neg(*at, copy_box(alloc, part)?)),
            ExprTree::Field { at, part, path } => {
                field(
                    *at,
                    copy_box(alloc, part),
                    List::from_slice(alloc, path.as_slice()),
                )
            }
            ExprTree::Tuple(at, parts) => Ok(ExprTree::Tuple(*at, copy_exprs(alloc, parts)?)),
            ExprTree::If {
                at,
                arms,
                otherwise,
            } => choice(*at, copy_if_arms(alloc, arms), copy_box(alloc, otherwise)),
            ExprTree::Table { at, keys, rows } => {
                table(*at, copy_results(alloc, keys), copy_table_rows(alloc, rows))
            }
            ExprTree::Ratio {
                at,
                x,
                y,
                otherwise,
            } => ratio(
                *at,
                copy_box(alloc, x),
                copy_box(alloc, y),
                copy_box(alloc, otherwise),
            ),
            ExprTree::Min(at, first, second) => {
                lesser(*at, copy_box(alloc, first), copy_box(alloc, second))
            }
            ExprTree::Max(at, first, second) => {
                greater(*at, copy_box(alloc, first), copy_box(alloc, second))
            }
            ExprTree::Clamp {
                at,
                lo_at,
                lo,
                hi,
                part,
            } => Ok(ExprTree::Clamp {
                at: *at,
                lo_at: *lo_at,
                lo: *lo,
                hi: *hi,
                part: copy_box(alloc, part)?,
            }),
        }
    }
}

impl SumPart<ExprTree> {
    /// An equal part of a sum, in memory of its own.
    pub fn copy(&self, alloc: Global) -> Result<SumPart, AllocError>
        ensures { IfOk result (λ made. made ≡ self.now) }
    {
        match self {
            SumPart::Plus(expr) => Ok(SumPart::Plus(expr.copy(alloc)?)),
            SumPart::Minus(expr) => Ok(SumPart::Minus(expr.copy(alloc)?)),
        }
    }
}

impl ProductPart<ExprTree> {
    /// An equal part of a product, in memory of its own.
    pub fn copy(&self, alloc: Global) -> Result<ProductPart, AllocError>
        ensures { IfOk result (λ made. made ≡ self.now) }
    {
        match self {
            ProductPart::Times(expr) => Ok(ProductPart::Times(expr.copy(alloc)?)),
            ProductPart::Over(divisor) => Ok(ProductPart::Over(*divisor)),
        }
    }
}

impl IfArm<ExprTree> {
    /// An equal condition and an equal body, in memory of their own.
    pub fn copy(&self, alloc: Global) -> Result<IfArm, AllocError>
        ensures { IfOk result (λ made. made ≡ self.now) }
    {
        if_arm(self.cond.copy(alloc), self.body.copy(alloc))
    }
}

impl TableRow<ExprTree> {
    /// An equal row, in memory of its own.
    pub fn copy(&self, alloc: Global) -> Result<TableRow, AllocError>
        ensures { IfOk result (λ made. made ≡ self.now) }
    {
        table_row(
            self.at,
            copy_values(alloc, &self.key),
            self.body.copy(alloc),
        )
    }
}

impl ResultTree<ExprTree> {
    /// An equal expression with an equal type, in memory of their own.
    pub fn copy(&self, alloc: Global) -> Result<ResultTree, AllocError>
        ensures { IfOk result (λ made. made ≡ self.now) }
    {
        typed(self.expr.copy(alloc), self.ty.copy(alloc))
    }
}

/// An equal expression behind a pointer of its own.
#[cycle(expression_copies)]
fn copy_box(alloc: Global, part: &Boxed<ExprTree>) -> Result<Boxed<ExprTree>, AllocError>
    ensures { IfOk result (λ made. made ≡ part.now) }
{
    new_box(alloc, part.get().copy(alloc)?)
}

/// Equal expressions, in the same order, in memory of their own.
#[cycle(expression_copies)]
pub(crate) fn copy_exprs(
    alloc: Global,
    exprs: &List<ExprTree>,
) -> Result<List<ExprTree>, AllocError>
    ensures { IfOk result (λ made. made ≡ exprs.now) }
{
    let mut all = List::new(alloc);
    'exprs: for expr in exprs.as_slice() {
        add_made(&mut all, expr.copy(alloc))?;
    }
    Ok(all)
}

/// Equal parts of a sum, in the same order, in memory of their own.
#[cycle(expression_copies)]
fn copy_sum_parts(alloc: Global, parts: &List<SumPart>) -> Result<List<SumPart>, AllocError>
    ensures { IfOk result (λ made. made ≡ parts.now) }
{
    let mut all = List::new(alloc);
    'parts: for part in parts.as_slice() {
        let made = match part {
            SumPart::Plus(expr) => SumPart::Plus(expr.copy(alloc)?),
            SumPart::Minus(expr) => SumPart::Minus(expr.copy(alloc)?),
        };
        all.add(made)?;
    }
    Ok(all)
}

/// Equal parts of a product, in the same order, in memory of their own.
#[cycle(expression_copies)]
fn copy_product_parts(
    alloc: Global,
    parts: &List<ProductPart>,
) -> Result<List<ProductPart>, AllocError>
    ensures { IfOk result (λ made. made ≡ parts.now) }
{
    let mut all = List::new(alloc);
    'parts: for part in parts.as_slice() {
        let made = match part {
            ProductPart::Times(expr) => ProductPart::Times(expr.copy(alloc)?),
            ProductPart::Over(divisor) => ProductPart::Over(*divisor),
        };
        all.add(made)?;
    }
    Ok(all)
}

/// Equal conditions and bodies, in the same order, in memory of their own.
#[cycle(expression_copies)]
fn copy_if_arms(alloc: Global, arms: &List<IfArm>) -> Result<List<IfArm>, AllocError>
    ensures { IfOk result (λ made. made ≡ arms.now) }
{
    let mut all = List::new(alloc);
    'arms: for arm in arms.as_slice() {
        all.add(if_arm(arm.cond.copy(alloc), arm.body.copy(alloc))?)?;
    }
    Ok(all)
}

/// Equal expressions with their types, in the same order, in memory of their own.
#[cycle(expression_copies)]
pub(crate) fn copy_results(
    alloc: Global,
    results: &List<ResultTree>,
) -> Result<List<ResultTree>, AllocError>
    ensures { IfOk result (λ made. made ≡ results.now) }
{
    let mut all = List::new(alloc);
    'results: for one in results.as_slice() {
        all.add(typed(one.expr.copy(alloc), one.ty.copy(alloc))?)?;
    }
    Ok(all)
}

/// Equal rows of a table, in the same order, in memory of their own.
#[cycle(expression_copies)]
fn copy_table_rows(alloc: Global, rows: &List<TableRow>) -> Result<List<TableRow>, AllocError>
    ensures { IfOk result (λ made. made ≡ rows.now) }
{
    let mut all = List::new(alloc);
    'rows: for row in rows.as_slice() {
        let key = copy_values(alloc, &row.key);
        all.add(table_row(row.at, key, row.body.copy(alloc))?)?;
    }
    Ok(all)
}

/// A call of these parts, where they could be made.
fn call(
    at: u32,
    name: Result<Text, AllocError>,
    args: Result<List<ExprTree>, AllocError>,
) -> Result<ExprTree, AllocError>
    ensures { (n : List ℕ) (a : List ExprTree) → IfOk name (λ it. it ≡ n) → IfOk args (λ it. it ≡ a)
        → IfOk result (λ made. made ≡ ExprTree.Call at n a) }
{
    let (name, args) = both(name, args)?;
    Ok(ExprTree::Call { at, name, args })
}

/// A comparison of these parts, where they could be made.
fn compare(
    at: u32,
    op: CompareOp,
    left: Result<Boxed<ExprTree>, AllocError>,
    right: Result<Boxed<ExprTree>, AllocError>,
) -> Result<ExprTree, AllocError>
    ensures { (l : ExprTree) (r : ExprTree) → IfOk left (λ it. it ≡ l) → IfOk right (λ it. it ≡ r)
        → IfOk result (λ made. made ≡ ExprTree.Compare at op l r) }
{
    let (left, right) = both(left, right)?;
    Ok(ExprTree::Compare {
        at,
        op,
        left,
        right,
    })
}

/// A sum of these parts, where they could be made.
fn sum(
    at: u32,
    first: Result<Boxed<ExprTree>, AllocError>,
    rest: Result<List<SumPart>, AllocError>,
) -> Result<ExprTree, AllocError>
    ensures { (f : ExprTree) (r : List (SumPart ExprTree)) → IfOk first (λ it. it ≡ f) → IfOk rest (λ it. it ≡ r)
        → IfOk result (λ made. made ≡ ExprTree.Sum at f r) }
{
    let (first, rest) = both(first, rest)?;
    Ok(ExprTree::Sum { at, first, rest })
}

/// A product of these parts, where they could be made.
fn product(
    at: u32,
    first: Result<Boxed<ExprTree>, AllocError>,
    rest: Result<List<ProductPart>, AllocError>,
) -> Result<ExprTree, AllocError>
    ensures { (f : ExprTree) (r : List (ProductPart ExprTree)) → IfOk first (λ it. it ≡ f) → IfOk rest (λ it. it ≡ r)
        → IfOk result (λ made. made ≡ ExprTree.Product at f r) }
{
    let (first, rest) = both(first, rest)?;
    Ok(ExprTree::Product { at, first, rest })
}

/// A component, where its parts could be made.
fn field(
    at: u32,
    part: Result<Boxed<ExprTree>, AllocError>,
    path: Result<List<u64>, AllocError>,
) -> Result<ExprTree, AllocError>
    ensures { (e : ExprTree) (p : List ℕ) → IfOk part (λ it. it ≡ e) → IfOk path (λ it. it ≡ p)
        → IfOk result (λ made. made ≡ ExprTree.Field at e p) }
{
    let (part, path) = both(part, path)?;
    Ok(ExprTree::Field { at, part, path })
}

/// A choice by these conditions, where its parts could be made.
fn choice(
    at: u32,
    arms: Result<List<IfArm>, AllocError>,
    otherwise: Result<Boxed<ExprTree>, AllocError>,
) -> Result<ExprTree, AllocError>
    ensures { (a : List (IfArm ExprTree)) (o : ExprTree) → IfOk arms (λ it. it ≡ a) → IfOk otherwise (λ it. it ≡ o)
        → IfOk result (λ made. made ≡ ExprTree.If at a o) }
{
    let (arms, otherwise) = both(arms, otherwise)?;
    Ok(ExprTree::If {
        at,
        arms,
        otherwise,
    })
}

/// A table of these parts, where they could be made.
fn table(
    at: u32,
    keys: Result<List<ResultTree>, AllocError>,
    rows: Result<List<TableRow>, AllocError>,
) -> Result<ExprTree, AllocError>
    ensures { (k : List (ResultTree ExprTree)) (r : List (TableRow ExprTree)) → IfOk keys (λ it. it ≡ k) → IfOk rows (λ it. it ≡ r)
        → IfOk result (λ made. made ≡ ExprTree.Table at k r) }
{
    let (keys, rows) = both(keys, rows)?;
    Ok(ExprTree::Table { at, keys, rows })
}

/// A quotient of these parts, where they could be made.
fn ratio(
    at: u32,
    x: Result<Boxed<ExprTree>, AllocError>,
    y: Result<Boxed<ExprTree>, AllocError>,
    otherwise: Result<Boxed<ExprTree>, AllocError>,
) -> Result<ExprTree, AllocError>
    ensures { (a : ExprTree) (b : ExprTree) (c : ExprTree) → IfOk x (λ it. it ≡ a) → IfOk y (λ it. it ≡ b)
        → IfOk otherwise (λ it. it ≡ c) → IfOk result (λ made. made ≡ ExprTree.Ratio at a b c) }
{
    let ((x, y), otherwise) = both(both(x, y), otherwise)?;
    Ok(ExprTree::Ratio {
        at,
        x,
        y,
        otherwise,
    })
}

/// The lesser of two, where they could be made.
fn lesser(
    at: u32,
    first: Result<Boxed<ExprTree>, AllocError>,
    second: Result<Boxed<ExprTree>, AllocError>,
) -> Result<ExprTree, AllocError>
    ensures { (f : ExprTree) (s : ExprTree) → IfOk first (λ it. it ≡ f) → IfOk second (λ it. it ≡ s)
        → IfOk result (λ made. made ≡ ExprTree.Min at f s) }
{
    let (first, second) = both(first, second)?;
    Ok(ExprTree::Min(at, first, second))
}

/// The greater of two, where they could be made.
fn greater(
    at: u32,
    first: Result<Boxed<ExprTree>, AllocError>,
    second: Result<Boxed<ExprTree>, AllocError>,
) -> Result<ExprTree, AllocError>
    ensures { (f : ExprTree) (s : ExprTree) → IfOk first (λ it. it ≡ f) → IfOk second (λ it. it ≡ s)
        → IfOk result (λ made. made ≡ ExprTree.Max at f s) }
{
    let (first, second) = both(first, second)?;
    Ok(ExprTree::Max(at, first, second))
}

/// A condition with what holds under it, where they could be made.
fn if_arm(
    cond: Result<ExprTree, AllocError>,
    body: Result<ExprTree, AllocError>,
) -> Result<IfArm, AllocError>
    ensures { IfOk result (λ made. (cond ≡ Ok made.cond) × (body ≡ Ok made.body)) }
{
    let (cond, body) = both(cond, body)?;
    Ok(IfArm { cond, body })
}

/// A row of a table, where its parts could be made.
fn table_row(
    at: u32,
    key: Result<List<ValueTree>, AllocError>,
    body: Result<ExprTree, AllocError>,
) -> Result<TableRow, AllocError>
    ensures { IfOk result (λ made. (made.at ≡ at) × (key ≡ Ok made.key) × (body ≡ Ok made.body)) }
{
    let (key, body) = both(key, body)?;
    Ok(TableRow { at, key, body })
}

/// An expression with its type, where they could be made.
fn typed(
    expr: Result<ExprTree, AllocError>,
    ty: Result<TyTree, AllocError>,
) -> Result<ResultTree, AllocError>
    ensures { IfOk result (λ made. (expr ≡ Ok made.expr) × (ty ≡ Ok made.ty)) }
{
    let (expr, ty) = both(expr, ty)?;
    Ok(ResultTree { expr, ty })
}
