use crate::expressions::{show_expr, show_exprs};
use crate::shown::{FUEL, Shown, close, note, open, put, show_name};
use crate::statements::{show_body, show_declaration, show_head, show_stmts, show_when};
use crate::types::{show_params, show_type};
use bsv_ast::{AttributeGroup, Boxed, Items, Make, Method, Module, ModuleBranch, ModuleStmt, Rule};
use std::alloc::AllocError;

fn show_attributes(shown: &mut Shown, groups: &Items<AttributeGroup>) -> Result<(), AllocError> {
    for group in groups.as_slice() {
        open(shown, "group", group.span)?;
        for attribute in group.attributes.as_slice() {
            open(shown, "attribute", attribute.span)?;
            show_name(shown, &attribute.name)?;
            if let Some(text) = &attribute.text {
                put(shown, b" \"")?;
                put(shown, text.bytes())?;
                put(shown, b"\"")?;
            }
            close(shown)?;
        }
        close(shown)?;
    }
    Ok(())
}

fn show_rule(shown: &mut Shown, rule: &Rule, fuel: usize) -> Result<(), AllocError> {
    note(shown, "its rule", rule.span)?;
    show_attributes(shown, &rule.attributes)?;
    show_name(shown, &rule.name)?;
    show_when(shown, &rule.condition, fuel)?;
    show_stmts(shown, &rule.body, fuel)
}

fn show_method(shown: &mut Shown, method: &Method, fuel: usize) -> Result<(), AllocError> {
    note(shown, "its method", method.span)?;
    show_type(shown, &method.result, fuel)?;
    show_name(shown, &method.name)?;
    show_params(shown, &method.params, fuel)?;
    show_when(shown, &method.condition, fuel)?;
    show_body(shown, &method.body, fuel)
}

fn show_make(shown: &mut Shown, make: &Make, fuel: usize) -> Result<(), AllocError> {
    open(shown, "make", make.span)?;
    show_name(shown, &make.maker)?;
    show_exprs(shown, &make.arguments, fuel)?;
    close(shown)
}

#[cycle(show_modules)]
fn show_module_stmts(
    shown: &mut Shown,
    stmts: &Items<ModuleStmt>,
    fuel: usize,
) -> Result<(), AllocError> {
    let Some(fuel) = fuel.checked_sub(1) else {
        return put(shown, b"?");
    };
    for stmt in stmts.as_slice() {
        show_module_stmt(shown, stmt, fuel)?;
    }
    Ok(())
}

/// What a statement of a module is.
fn module_stmt_kind(stmt: &ModuleStmt) -> &'static str {
    match stmt {
        ModuleStmt::Instance(_, _, _, _) => "instance",
        ModuleStmt::Array(_, _, _, _) => "array",
        ModuleStmt::Place(_, _, _, _) => "fill",
        ModuleStmt::Declare(_, _) => "declare",
        ModuleStmt::Assign(_, _, _) => "set",
        ModuleStmt::Block(_, _) => "block",
        ModuleStmt::If(_, _, _) => "if",
        ModuleStmt::For(_, _, _) => "for",
        ModuleStmt::Rule(_, _) => "rule",
        ModuleStmt::Method(_, _) => "method",
    }
}

#[cycle(show_modules)]
fn show_module_stmt(shown: &mut Shown, stmt: &ModuleStmt, fuel: usize) -> Result<(), AllocError> {
    let Some(fuel) = fuel.checked_sub(1) else {
        return put(shown, b"?");
    };
    open(shown, module_stmt_kind(stmt), stmt.span())?;
    match stmt {
        ModuleStmt::Instance(_, written, name, make) => {
            show_type(shown, written, fuel)?;
            show_name(shown, name)?;
            show_make(shown, make, fuel)?;
        }
        ModuleStmt::Array(_, written, name, length) => {
            show_type(shown, written, fuel)?;
            show_name(shown, name)?;
            show_expr(shown, length, fuel)?;
        }
        ModuleStmt::Place(_, name, index, make) => {
            show_name(shown, name)?;
            show_expr(shown, index, fuel)?;
            show_make(shown, make, fuel)?;
        }
        ModuleStmt::Declare(_, declaration) => show_declaration(shown, declaration, fuel)?,
        ModuleStmt::Assign(_, name, value) => {
            show_name(shown, name)?;
            show_expr(shown, value, fuel)?;
        }
        ModuleStmt::Block(_, stmts) => show_module_stmts(shown, stmts, fuel)?,
        ModuleStmt::If(_, branches, last) => show_module_if(shown, branches, last, fuel)?,
        ModuleStmt::For(_, head, arm) => {
            show_head(shown, head, fuel)?;
            show_module_stmt(shown, arm.get(), fuel)?;
        }
        ModuleStmt::Rule(_, rule) => show_rule(shown, rule, fuel)?,
        ModuleStmt::Method(_, method) => show_method(shown, method, fuel)?,
    }
    close(shown)
}

#[cycle(show_modules)]
fn show_module_if(
    shown: &mut Shown,
    branches: &Items<ModuleBranch>,
    last: &Option<Boxed<ModuleStmt>>,
    fuel: usize,
) -> Result<(), AllocError> {
    let Some(fuel) = fuel.checked_sub(1) else {
        return put(shown, b"?");
    };
    for branch in branches.as_slice() {
        open(shown, "branch", branch.span)?;
        show_expr(shown, &branch.condition, fuel)?;
        show_module_stmt(shown, &branch.arm, fuel)?;
        close(shown)?;
    }
    if let Some(last) = last {
        put(shown, b" else")?;
        show_module_stmt(shown, last.get(), fuel)?;
    }
    Ok(())
}

pub(crate) fn show_module(shown: &mut Shown, module: &Module) -> Result<(), AllocError> {
    open(shown, "module", module.span)?;
    show_attributes(shown, &module.attributes)?;
    show_name(shown, &module.name)?;
    show_params(shown, &module.params, FUEL)?;
    show_type(shown, &module.interface, FUEL)?;
    show_module_stmts(shown, &module.body, FUEL)?;
    close(shown)
}
