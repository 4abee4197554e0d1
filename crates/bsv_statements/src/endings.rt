ghost use Rattle.std.specs.Prelude.{◌≡◌, map};
ghost use Rattle.bsv_types.specs.Statements as ending;
ghost use Rattle.bsv_statements.specs.Returns as spec;
ghost use Rattle.bsv_statements.specs.ReturnsSeen.{ends_of, arm_ends, case_ends};

use bsv_ast::{Branch, CaseArm, Stmt};

/// How a path through statements ends.
#[derive(Clone, Copy, Debug, PartialEq, Eq)]
pub(crate) enum Ending {
    /// It goes on after them.
    GoesOn,
    /// It has returned.
    Returned,
}

/// How two paths end; None where they differ.
fn agree(first: Option<Ending>, second: Option<Ending>) -> Option<Ending>
    ensures { ends_of result ≡ ending.agree (ends_of first) (ends_of second) }
{
    match (first, second) {
        (Some(Ending::GoesOn), Some(Ending::GoesOn)) => Some(Ending::GoesOn),
        (Some(Ending::Returned), Some(Ending::Returned)) => Some(Ending::Returned),
        _ => None,
    }
}

/// How each path through a statement ends; None where paths differ, or something comes after a
/// `return`.
#[cycle(ends)]
fn ends(stmt: &Stmt) -> Option<Ending>
    ensures { ends_of result ≡ spec.stmt_ends stmt.now }
{
    match stmt {
        Stmt::Return(_, _) => Some(Ending::Returned),
        Stmt::Block(_, stmts) => sequence(stmts.as_slice()),
        Stmt::If(_, arms, None) => branches(arms.as_slice(), Some(Ending::GoesOn)),
        Stmt::If(_, arms, Some(otherwise)) => branches(arms.as_slice(), ends(otherwise.get())),
        Stmt::For(_, _, body) => agree(ends(body.get()), Some(Ending::GoesOn)),
        Stmt::Case(_, _, arms, None) => cases(arms.as_slice(), Some(Ending::GoesOn)),
        Stmt::Case(_, _, arms, Some(otherwise)) => cases(arms.as_slice(), ends(otherwise.get())),
        _ => Some(Ending::GoesOn),
    }
}

/// How statements end, one after the other.
#[cycle(ends)]
fn sequence(stmts: &[Stmt]) -> Option<Ending>
    ensures { ends_of result ≡ ending.sequence (map spec.stmt_ends stmts.now) }
{
    let mut rest = stmts;
    while let Some((stmt, after)) = rest.split_first() {
        let found = ends(stmt);
        if after.is_empty() {
            return found;
        }
        match found {
            Some(Ending::GoesOn) => rest = after,
            _ => return None,
        }
    }
    Some(Ending::GoesOn)
}

/// How an arm of an `if` ends.
#[cycle(ends)]
fn branch(arm: &Branch) -> Option<Ending>
    ensures { ends_of result ≡ arm_ends arm.now }
{
    ends(&arm.arm)
}

/// How an arm of a `case` ends.
#[cycle(ends)]
fn case_arm(arm: &CaseArm) -> Option<Ending>
    ensures { ends_of result ≡ case_ends arm.now }
{
    ends(&arm.arm)
}

/// How the arms of an `if` end, where the last one ends so.
#[cycle(ends)]
#[tactic(auto, using(crate::proofs::Agreeing::agreeing))]
fn branches(arms: &[Branch], last: Option<Ending>) -> Option<Ending>
    ensures { ends_of result ≡ ending.all_agree (map arm_ends arms.now) (ends_of last) }
{
    let mut found = last;
    let mut rest = arms;
    while let Some((arm, after)) = rest.split_first() {
        found = agree(found, branch(arm));
        rest = after;
    }
    found
}

/// How the arms of a `case` end, where the last one ends so.
#[cycle(ends)]
#[tactic(auto, using(crate::proofs::Agreeing::agreeing))]
fn cases(arms: &[CaseArm], last: Option<Ending>) -> Option<Ending>
    ensures { ends_of result ≡ ending.all_agree (map case_ends arms.now) (ends_of last) }
{
    let mut found = last;
    let mut rest = arms;
    while let Some((arm, after)) = rest.split_first() {
        found = agree(found, case_arm(arm));
        rest = after;
    }
    found
}

/// Whether statements return in each path, once and last.
pub fn returns(stmts: &[Stmt]) -> bool
    ensures { result ≡ spec.returns stmts.now }
{
    matches!(sequence(stmts), Some(Ending::Returned))
}
