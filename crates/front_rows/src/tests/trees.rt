//! Parts of trees, made by hand.

use c_tree::{Base, Expr, ExprKind, ForHead, Globals, Ident, Stmt, make, make_stmt};
use int_ops::{BinOp, IntType};
use sqlite_items::{Boxed, Items};
use std::alloc::AllocError;
use std::test::*;

/// The number 7, at place 3 of line 2.
fn seven() -> Expr {
    Expr {
        kind: ExprKind::Number(7, IntType::Int),
        place: 3,
        line: 2,
    }
}

#[test]
fn names_and_globals_keep_what_they_are_given(rt: HostRuntime) -> Result<(), Fail> {
    let name = Ident::of(rt.alloc(), b"main")?;
    assert_eq!(rt; name.bytes(), b"main".as_slice());
    let mut globals = Globals::new(rt.alloc());
    globals.push(5, 3)?;
    globals.push(-1, 1_048_576)?;
    assert_eq!(rt; globals.len(), 1_048_579);
    assert_eq!(rt; globals.runs().len(), 2);
    Ok(())
}

/// Whether the form is this operator on two sevens.
fn is_of_sevens(kind: &ExprKind, op: BinOp) -> bool {
    match kind {
        ExprKind::Binary(found, left, right) => {
            *found == op && is_seven(left.get()) && is_seven(right.get())
        }
        _ => false,
    }
}

fn is_seven(expr: &Expr) -> bool {
    matches!(expr.kind, ExprKind::Number(7, IntType::Int)) && expr.place == 3 && expr.line == 2
}

#[test]
fn an_operator_holds_its_operands(rt: HostRuntime) -> Result<(), Fail> {
    let sum = make::binary(rt.alloc(), BinOp::Add, seven(), seven())?;
    assert!(rt; is_of_sevens(&sum, BinOp::Add));
    Ok(())
}

fn is_made(made: Result<ExprKind, AllocError>) -> bool {
    made.is_ok()
}

#[test]
fn each_form_of_an_expression_is_made(rt: HostRuntime) -> Result<(), Fail> {
    let alloc = rt.alloc();
    assert!(rt; is_made(make::paren(alloc, seven())));
    assert!(rt; is_made(make::plus(alloc, seven())));
    assert!(rt; is_made(make::minus(alloc, seven())));
    assert!(rt; is_made(make::complement(alloc, seven())));
    assert!(rt; is_made(make::not(alloc, seven())));
    assert!(rt; is_made(make::cast(alloc, Base::Void, seven())));
    assert!(rt; is_made(make::and_also(alloc, seven(), seven())));
    assert!(rt; is_made(make::or_else(alloc, seven(), seven())));
    assert!(rt; is_made(make::choose(alloc, seven(), seven(), seven())));
    assert!(rt; is_made(make::assign(alloc, None, seven(), seven())));
    assert!(rt; is_made(make::before(alloc, BinOp::Add, seven())));
    assert!(rt; is_made(make::after(alloc, BinOp::Sub, seven())));
    assert!(rt; is_made(make::comma(alloc, seven(), seven())));
    let name = Ident::of(alloc, b"a")?;
    assert!(rt; is_made(make::index(alloc, name, 1, 2, seven())));
    let name = Ident::of(alloc, b"f")?;
    let call = make::call(name, Items::new(alloc));
    assert!(rt; matches!(&call, ExprKind::Call(..)));
    Ok(())
}

/// Whether the statement is made, and of the form that has this name.
fn is_form(made: Result<Stmt, AllocError>, name: &str) -> bool {
    match &made {
        Ok(stmt) => form_of(stmt) == name,
        Err(_) => false,
    }
}

fn form_of(stmt: &Stmt) -> &'static str {
    match stmt {
        Stmt::Vars(_) => "vars",
        Stmt::Block(_) => "block",
        Stmt::Empty => "empty",
        Stmt::Value(_) => "value",
        Stmt::If(_, _, None) => "if",
        Stmt::If(_, _, Some(_)) => "if else",
        Stmt::While(..) => "while",
        Stmt::DoWhile(_, _, 4) => "do while",
        Stmt::DoWhile(..) => "do while on another line",
        Stmt::For(..) => "for",
        Stmt::Switch(..) => "switch",
        Stmt::Break(..) => "break",
        Stmt::Continue(..) => "continue",
        Stmt::Return(None, 1, 2) => "return",
        Stmt::Return(Some(_), 1, 2) => "return value",
        Stmt::Return(..) => "return elsewhere",
    }
}

#[test]
fn statements_with_a_statement_in_them_are_made(rt: HostRuntime) -> Result<(), Fail> {
    let alloc = rt.alloc();
    let test = Boxed::new(alloc, seven())?;
    assert!(rt; is_form(make_stmt::if_(alloc, test, Stmt::Empty), "if"));
    let test = Boxed::new(alloc, seven())?;
    assert!(rt;
        is_form(
            make_stmt::if_else(alloc, test, Stmt::Empty, Stmt::Empty),
            "if else"
        )
    );
    let test = Boxed::new(alloc, seven())?;
    assert!(rt; is_form(make_stmt::while_(alloc, test, Stmt::Empty), "while"));
    let test = Boxed::new(alloc, seven())?;
    assert!(rt; is_form(make_stmt::do_while(alloc, Stmt::Empty, test, 4), "do while"));
    let head = ForHead {
        first: None,
        test: None,
        step: None,
    };
    assert!(rt; is_form(make_stmt::for_(alloc, head, Stmt::Empty), "for"));
    Ok(())
}

#[test]
fn other_statements_are_made(rt: HostRuntime) -> Result<(), Fail> {
    let alloc = rt.alloc();
    assert!(rt; is_form(Ok(make_stmt::vars(Items::new(alloc))), "vars"));
    assert!(rt; is_form(Ok(make_stmt::block(Items::new(alloc))), "block"));
    let number = Boxed::new(alloc, seven())?;
    assert!(rt; is_form(Ok(make_stmt::value(number)), "value"));
    let number = Boxed::new(alloc, seven())?;
    assert!(rt; is_form(Ok(make_stmt::switch(number, Items::new(alloc))), "switch"));
    assert!(rt; is_form(Ok(make_stmt::return_nothing(1, 2)), "return"));
    let number = Boxed::new(alloc, seven())?;
    assert!(rt; is_form(Ok(make_stmt::return_value(number, 1, 2)), "return value"));
    Ok(())
}
