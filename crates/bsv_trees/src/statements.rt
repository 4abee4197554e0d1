use crate::expressions::{show_expr, show_exprs};
use crate::shown::{Shown, close, note, open, put, show_name};
use crate::types::show_type;
use bsv_ast::{
    Body, Boxed, Branch, Call, CaseArm, Condition, Declaration, DeclaredType, Expr, Head, Items,
    Place, Stmt,
};
use std::alloc::AllocError;

fn show_place(shown: &mut Shown, place: &Place, fuel: usize) -> Result<(), AllocError> {
    match place {
        Place::Name(span, name) => {
            note(shown, "place", *span)?;
            show_name(shown, name)
        }
        Place::Index(span, name, index) => {
            open(shown, "place", *span)?;
            show_name(shown, name)?;
            show_expr(shown, index, fuel)?;
            close(shown)
        }
    }
}

fn show_call(shown: &mut Shown, call: &Call, fuel: usize) -> Result<(), AllocError> {
    open(shown, "call", call.span)?;
    show_place(shown, &call.place, fuel)?;
    show_name(shown, &call.method)?;
    show_exprs(shown, &call.arguments, fuel)?;
    close(shown)
}

fn show_declared(
    shown: &mut Shown,
    declared: &DeclaredType,
    fuel: usize,
) -> Result<(), AllocError> {
    note(shown, "declared", declared.span())?;
    match declared {
        DeclaredType::Written(_, written) => show_type(shown, written, fuel),
        DeclaredType::Let(_) => put(shown, b" let"),
    }
}

pub(crate) fn show_declaration(
    shown: &mut Shown,
    declaration: &Declaration,
    fuel: usize,
) -> Result<(), AllocError> {
    open(shown, "define", declaration.span)?;
    show_declared(shown, &declaration.declared, fuel)?;
    show_name(shown, &declaration.name)?;
    show_expr(shown, &declaration.value, fuel)?;
    close(shown)
}

fn show_condition(shown: &mut Shown, condition: &Condition, fuel: usize) -> Result<(), AllocError> {
    match condition {
        Condition::Test(span, test) => {
            note(shown, "test", *span)?;
            show_expr(shown, test, fuel)
        }
        Condition::Matches(span, subject, name) => {
            open(shown, "matches", *span)?;
            show_expr(shown, subject, fuel)?;
            show_name(shown, name)?;
            close(shown)
        }
    }
}

pub(crate) fn show_head(shown: &mut Shown, head: &Head, fuel: usize) -> Result<(), AllocError> {
    open(shown, "head", head.span)?;
    show_name(shown, &head.variable)?;
    show_expr(shown, &head.first, fuel)?;
    show_expr(shown, &head.condition, fuel)?;
    show_name(shown, &head.stepped)?;
    show_expr(shown, &head.step, fuel)?;
    close(shown)
}

#[cycle(show_statements)]
pub(crate) fn show_stmts(
    shown: &mut Shown,
    stmts: &Items<Stmt>,
    fuel: usize,
) -> Result<(), AllocError> {
    let Some(fuel) = fuel.checked_sub(1) else {
        return put(shown, b"?");
    };
    for stmt in stmts.as_slice() {
        show_stmt(shown, stmt, fuel)?;
    }
    Ok(())
}

/// What a statement is that opens a node of its own.
fn stmt_kind(stmt: &Stmt) -> &'static str {
    match stmt {
        Stmt::Write(_, _, _) => "write",
        Stmt::Call(_, _) => "do",
        Stmt::Bind(_, _, _, _) => "bind",
        Stmt::Declare(_, _) => "declare",
        Stmt::Assign(_, _, _) => "set",
        Stmt::Return(_, _) => "return",
        Stmt::NoAction(_) => "noAction",
        Stmt::Block(_, _) => "block",
        Stmt::If(_, _, _) => "if",
        Stmt::For(_, _, _) => "for",
        Stmt::Case(_, _, _, _) => "case",
    }
}

#[cycle(show_statements)]
fn show_stmt(shown: &mut Shown, stmt: &Stmt, fuel: usize) -> Result<(), AllocError> {
    let Some(fuel) = fuel.checked_sub(1) else {
        return put(shown, b"?");
    };
    open(shown, stmt_kind(stmt), stmt.span())?;
    match stmt {
        Stmt::Write(_, place, value) => {
            show_place(shown, place, fuel)?;
            show_expr(shown, value, fuel)?;
        }
        Stmt::Call(_, call) => show_call(shown, call, fuel)?,
        Stmt::Bind(_, declared, name, call) => {
            show_declared(shown, declared, fuel)?;
            show_name(shown, name)?;
            show_call(shown, call, fuel)?;
        }
        Stmt::Declare(_, declaration) => show_declaration(shown, declaration, fuel)?,
        Stmt::Assign(_, name, value) => {
            show_name(shown, name)?;
            show_expr(shown, value, fuel)?;
        }
        Stmt::Return(_, value) => show_expr(shown, value, fuel)?,
        Stmt::NoAction(_) => {}
        Stmt::Block(_, stmts) => show_stmts(shown, stmts, fuel)?,
        Stmt::If(_, branches, last) => show_if(shown, branches, last, fuel)?,
        Stmt::For(_, head, arm) => {
            show_head(shown, head, fuel)?;
            show_stmt(shown, arm.get(), fuel)?;
        }
        Stmt::Case(_, subject, arms, last) => {
            show_expr(shown, subject, fuel)?;
            show_arms(shown, arms, last, fuel)?;
        }
    }
    close(shown)
}

#[cycle(show_statements)]
fn show_if(
    shown: &mut Shown,
    branches: &Items<Branch>,
    last: &Option<Boxed<Stmt>>,
    fuel: usize,
) -> Result<(), AllocError> {
    let Some(fuel) = fuel.checked_sub(1) else {
        return put(shown, b"?");
    };
    for branch in branches.as_slice() {
        open(shown, "branch", branch.span)?;
        show_condition(shown, &branch.condition, fuel)?;
        show_stmt(shown, &branch.arm, fuel)?;
        close(shown)?;
    }
    if let Some(last) = last {
        put(shown, b" else")?;
        show_stmt(shown, last.get(), fuel)?;
    }
    Ok(())
}

#[cycle(show_statements)]
fn show_arms(
    shown: &mut Shown,
    arms: &Items<CaseArm>,
    last: &Option<Boxed<Stmt>>,
    fuel: usize,
) -> Result<(), AllocError> {
    let Some(fuel) = fuel.checked_sub(1) else {
        return put(shown, b"?");
    };
    for arm in arms.as_slice() {
        open(shown, "arm", arm.span)?;
        put(shown, b" (of")?;
        show_exprs(shown, &arm.labels, fuel)?;
        close(shown)?;
        show_stmt(shown, &arm.arm, fuel)?;
        close(shown)?;
    }
    if let Some(last) = last {
        put(shown, b" default")?;
        show_stmt(shown, last.get(), fuel)?;
    }
    Ok(())
}

/// The condition of a rule or a method.
pub(crate) fn show_when(
    shown: &mut Shown,
    condition: &Option<Expr>,
    fuel: usize,
) -> Result<(), AllocError> {
    if let Some(condition) = condition {
        put(shown, b" when")?;
        show_expr(shown, condition, fuel)?;
    }
    Ok(())
}

pub(crate) fn show_body(shown: &mut Shown, body: &Body, fuel: usize) -> Result<(), AllocError> {
    match body {
        Body::Statements(span, stmts) => {
            open(shown, "body", *span)?;
            show_stmts(shown, stmts, fuel)?;
        }
        Body::Value(span, value) => {
            open(shown, "=", *span)?;
            show_expr(shown, value, fuel)?;
        }
    }
    close(shown)
}
