//! What the typing of expressions promises.

ghost use Rattle.bsv_ast.specs.declared.expressions.Expr.{Expr};
ghost use Rattle.bsv_types.specs.Expressions.{Frame, World};
ghost use Rattle.bsv_context.specs.Env.{Env};
ghost use Rattle.bsv_typing.specs.Laws.{Fits, Right};
ghost use Rattle.bsv_typing.specs.Typing.{typed};

/// What an expression is typed as is in order, and has the type that was expected.
pub fn typing_is_right()
    ensures { (env : Env) (w : World) (frame : Frame) → Fits env w frame → (e : Expr)
        → Right w frame (typed env e) }
{}
