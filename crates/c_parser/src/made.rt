//! Makers: each takes tokens and parts, and says what the definitions see.

ghost use Rattle.std.specs.Prelude.{◌≡◌, map, option_map, IfOk};
ghost use Rattle.c_tree.specs.Stmt.{Stmt as StmtSeen, SwitchItem as ItemSeen};
ghost use Rattle.c_tree.specs.TreeView.{
  expr_view,
  for_view,
  head_view,
  init_view,
  item_view,
  items_of,
  other_of,
  param_view,
  size_view,
  stmt_view,
  var_view,
};
ghost use Rattle.c_grammar.specs.Forms as spec;

use c_grammar::name_of;
use c_tokens::Token;
use c_tree::{
    Base, Expr, ForHead, Head, Ident, Init, Param, Size, Stmt, SwitchItem, Var, make_stmt,
};
use sqlite_items::{Boxed, Items};
use std::alloc::{AllocError, Global};

/// A variable with the name, the place and the line of a token.
pub fn variable(
    alloc: Global,
    text: &[u8],
    base: Base,
    name: Token,
    size: Size,
    init: Init,
) -> Result<Var, AllocError>
    ensures { IfOk result (λ v. var_view v
        ≡ spec.variable_at text.now base name (size_view size) (init_view init)) }
{
    Ok(Var {
        base,
        name: Ident::of(alloc, name_of(text, name))?,
        size,
        init,
        place: name.start,
        line: name.line,
    })
}

/// A parameter with the name and the place of a token.
pub fn named_param(alloc: Global, text: &[u8], base: Base, name: Token) -> Result<Param, AllocError>
    ensures { IfOk result (λ p. param_view p ≡ spec.named_param text.now base name) }
{
    Ok(Param {
        base,
        name: Some(Ident::of(alloc, name_of(text, name))?),
        place: name.start,
    })
}

/// A parameter without a name, at the place of its first word.
pub fn nameless_param(base: Base, place: u32) -> Param
    ensures { param_view result ≡ spec.nameless_param base place }
{
    Param {
        base,
        name: None,
        place,
    }
}

/// A function's head with the name, the place and the line of a token.
pub fn head(
    alloc: Global,
    text: &[u8],
    base: Base,
    name: Token,
    params: Items<Param>,
) -> Result<Head, AllocError>
    ensures { IfOk result (λ h. head_view h
        ≡ spec.head_at text.now base name (map param_view params)) }
{
    Ok(Head {
        base,
        name: Ident::of(alloc, name_of(text, name))?,
        params,
        place: name.start,
        line: name.line,
    })
}

/// An expression or none, and `;`.
pub fn value(expr: Option<Boxed<Expr>>) -> Stmt
    ensures { stmt_view result ≡ spec.value_of (option_map expr_view expr) }
{
    match expr {
        Some(expr) => make_stmt::value(expr),
        None => Stmt::Empty,
    }
}

/// An expression and `;`.
pub fn stated(alloc: Global, expr: Expr) -> Result<Stmt, AllocError>
    ensures { IfOk result (λ s. stmt_view s ≡ StmtSeen.Value (expr_view expr)) }
{
    Ok(make_stmt::value(Boxed::new(alloc, expr)?))
}

/// `break;`, with the place and line of its word.
pub fn break_(word: Token) -> Stmt
    ensures { stmt_view result ≡ StmtSeen.Break word.start word.line }
{
    Stmt::Break(word.start, word.line)
}

/// `continue;`, with the place and line of its word.
pub fn continue_(word: Token) -> Stmt
    ensures { stmt_view result ≡ StmtSeen.Continue word.start word.line }
{
    Stmt::Continue(word.start, word.line)
}

/// `return`, with the place and line of its word, an expression or none, and `;`.
pub fn return_(word: Token, expr: Option<Boxed<Expr>>) -> Stmt
    ensures { stmt_view result
        ≡ StmtSeen.Return (option_map expr_view expr) word.start word.line }
{
    match expr {
        Some(expr) => make_stmt::return_value(expr, word.start, word.line),
        None => make_stmt::return_nothing(word.start, word.line),
    }
}

/// `if (` test `)` first, and what `else` adds.
pub fn if_(alloc: Global, test: Expr, first: Stmt, other: Option<Stmt>) -> Result<Stmt, AllocError>
    ensures { IfOk result (λ s. stmt_view s ≡ StmtSeen.If (expr_view test) (stmt_view first)
        (other_of (option_map stmt_view other))) }
{
    let test = Boxed::new(alloc, test)?;
    match other {
        Some(second) => Ok(make_stmt::if_else(alloc, test, first, second)?),
        None => Ok(make_stmt::if_(alloc, test, first)?),
    }
}

/// `while (` test `)` body
pub fn while_(alloc: Global, test: Expr, body: Stmt) -> Result<Stmt, AllocError>
    ensures { IfOk result (λ s. stmt_view s ≡ StmtSeen.While (expr_view test) (stmt_view body)) }
{
    let test = Boxed::new(alloc, test)?;
    Ok(make_stmt::while_(alloc, test, body)?)
}

/// `do` body `while (` test `);`, with the line of its `while`.
pub fn do_while(alloc: Global, body: Stmt, test: Expr, line: u32) -> Result<Stmt, AllocError>
    ensures { IfOk result (λ s. stmt_view s
        ≡ StmtSeen.DoWhile (stmt_view body) (expr_view test) line) }
{
    let test = Boxed::new(alloc, test)?;
    Ok(make_stmt::do_while(alloc, body, test, line)?)
}

/// `for (` head `)` body
pub fn for_(alloc: Global, head: ForHead, body: Stmt) -> Result<Stmt, AllocError>
    ensures { IfOk result (λ s. stmt_view s ≡ StmtSeen.For (for_view head) (stmt_view body)) }
{
    Ok(make_stmt::for_(alloc, head, body)?)
}

/// `switch (` value `) {` items `}`
pub fn switch(alloc: Global, value: Expr, items: Items<SwitchItem>) -> Result<Stmt, AllocError>
    ensures { IfOk result (λ s. stmt_view s
        ≡ StmtSeen.Switch (expr_view value) (items_of (map item_view items))) }
{
    let value = Boxed::new(alloc, value)?;
    Ok(make_stmt::switch(value, items))
}

/// `case` value `:`, with the place of its word.
pub fn case(alloc: Global, word: Token, value: Expr) -> Result<SwitchItem, AllocError>
    ensures { IfOk result (λ i. item_view i ≡ ItemSeen.Case (expr_view value) word.start) }
{
    Ok(SwitchItem::Case(Boxed::new(alloc, value)?, word.start))
}

/// `default:`, with the place of its word.
pub fn default(word: Token) -> SwitchItem
    ensures { item_view result ≡ ItemSeen.Default word.start }
{
    SwitchItem::Default(word.start)
}

/// A declaration or a statement in the braces of a `switch`.
pub fn item_of(stmt: Stmt) -> SwitchItem
    ensures { item_view result ≡ ItemSeen.Item (stmt_view stmt) }
{
    SwitchItem::Item(stmt)
}
