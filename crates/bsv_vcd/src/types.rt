use bsv_types::{Module, ModuleBranch, ModuleStmt, PartTy, Ty};
use sqlite_items::Boxed;

/// So deep statements in each other are looked into.
const MOST_DEPTH: u32 = 256;

/// The types of the declarations that were found.
#[derive(Clone, Copy)]
enum Found<'a> {
    Nothing,
    /// All have this type.
    One(&'a Ty),
    Several,
}

impl<'a> Found<'a> {
    /// With one more.
    fn with(self, ty: &'a Ty) -> Found<'a> {
        match self {
            Found::Nothing => Found::One(ty),
            Found::One(first) if first.same(ty) => Found::One(first),
            Found::One(_) | Found::Several => Found::Several,
        }
    }
}

/// Whether these bytes are an underline and a number.
fn is_count(bytes: &[u8]) -> bool {
    match bytes {
        [b'_', digits @ ..] => !digits.is_empty()
            && digits.iter().all(|byte| byte.is_ascii_digit()),
        _ => false,
    }
}

/// Whether an instance of the declared name can have this name: of several the later ones have a number after it.
fn can_be_named(declared: &[u8], name: &[u8]) -> bool {
    match name.split_at_checked(declared.len()) {
        Some((front, rest)) => front == declared && (rest.is_empty() || is_count(rest)),
        None => false,
    }
}

/// What a declaration adds.
fn with_declaration<'a>(declared: &[u8], ty: &'a Ty, name: &[u8], found: Found<'a>) -> Found<'a> {
    if can_be_named(declared, name) {
        found.with(ty)
    } else {
        found
    }
}

/// What the declarations in a statement add; in statements that are deeper than so many in each other none is looked for.
#[cycle(declarations)]
fn in_statement<'a>(
    statement: &'a ModuleStmt,
    name: &[u8],
    found: Found<'a>,
    depth: u32,
) -> Found<'a> {
    if depth == 0 {
        return found;
    }
    match statement {
        ModuleStmt::Instance(ty, declared, _) | ModuleStmt::Array(ty, declared, _) => {
            with_declaration(declared.bytes(), ty, name, found)
        }
        ModuleStmt::Block(body) => in_statements(body.as_slice(), name, found, depth - 1),
        ModuleStmt::If(branches, last) => {
            let found = in_branches(branches.as_slice(), name, found, depth - 1);
            in_last(last, name, found, depth - 1)
        }
        ModuleStmt::For(_, body) => in_statement(body.get(), name, found, depth - 1),
        _ => found,
    }
}

/// What those in a list of statements add.
#[cycle(declarations)]
fn in_statements<'a>(
    statements: &'a [ModuleStmt],
    name: &[u8],
    found: Found<'a>,
    depth: u32,
) -> Found<'a> {
    let mut found = found;
    for statement in statements {
        found = in_statement(statement, name, found, depth);
    }
    found
}

/// What those in the arms of an `if` add.
#[cycle(declarations)]
fn in_branches<'a>(
    branches: &'a [ModuleBranch],
    name: &[u8],
    found: Found<'a>,
    depth: u32,
) -> Found<'a> {
    let mut found = found;
    for branch in branches {
        found = in_statement(&branch.arm, name, found, depth);
    }
    found
}

/// What those after the last `else` add.
#[cycle(declarations)]
fn in_last<'a>(
    last: &'a Option<Boxed<ModuleStmt>>,
    name: &[u8],
    found: Found<'a>,
    depth: u32,
) -> Found<'a> {
    match last {
        Some(arm) => in_statement(arm.get(), name, found, depth),
        None => found,
    }
}

/// The type of what a register or a queue of the name holds, where the text of its module leaves no doubt.
pub(crate) fn held_type<'a>(module: &'a Module, name: &[u8]) -> Option<&'a Ty> {
    match in_statements(module.body.as_slice(), name, Found::Nothing, MOST_DEPTH) {
        Found::One(Ty::Part(PartTy::Reg | PartTy::Fifo | PartTy::Fifof, Some(held))) => {
            Some(held.get())
        }
        _ => None,
    }
}
