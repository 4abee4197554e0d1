ghost use Rattle.std.specs.Prelude.{◌≡◌, ℕ, List, [], ◌∷◌};
ghost use Rattle.std.specs.Option.{option_map};
ghost use Rattle.bsv_expr.specs.Reading as spec;
ghost use Rattle.bsv_expr.specs.Reading.{Gives};
ghost use Rattle.bsv_expr.specs.Expressions as grammar;
ghost use Rattle.bsv_lex.specs.declared.terminal.Terminal.TheVariants as word;

use crate::fault::ReadFault;
use crate::input::refusal;
use crate::lexeme::{Lexeme, is_in};
use bsv_ast::{Level, Operator, Span, UnaryOperator};
use bsv_lex::Terminal;

/// The levels of the operators, from the loosest one.
pub const LEVELS: [Level; 10] = [
    Level::Either,
    Level::Both,
    Level::Or,
    Level::Xor,
    Level::And,
    Level::Equality,
    Level::Order,
    Level::Shift,
    Level::Sum,
    Level::Product,
];

/// The words of a level.
#[tactic(auto, unfolding(crate::specs::Expressions::words_of))]
pub fn words_of(level: Level) -> &'static [Terminal]
    ensures { result.now ≡ grammar.words_of level }
{
    match level {
        Level::Product => &[Terminal::Star],
        Level::Sum => &[Terminal::Plus, Terminal::Minus],
        Level::Shift => &[Terminal::ShiftLeft, Terminal::ShiftRight],
        Level::Order => &[
            Terminal::Less,
            Terminal::LessEqual,
            Terminal::Greater,
            Terminal::GreaterEqual,
        ],
        Level::Equality => &[Terminal::DoubleEqual, Terminal::NotEqual],
        Level::And => &[Terminal::And],
        Level::Xor => &[Terminal::Caret],
        Level::Or => &[Terminal::Or],
        Level::Both => &[Terminal::DoubleAnd],
        Level::Either => &[Terminal::DoubleOr],
    }
}

/// The operator that a word is between two operands.
#[tactic(auto, unfolding(crate::specs::Expressions::operator_of))]
fn operator_of(terminal: Terminal) -> Option<Operator>
    ensures { result ≡ grammar.operator_of terminal }
{
    match terminal {
        Terminal::Star => Some(Operator::Mul),
        Terminal::Plus => Some(Operator::Add),
        Terminal::Minus => Some(Operator::Sub),
        Terminal::ShiftLeft => Some(Operator::Shl),
        Terminal::ShiftRight => Some(Operator::Shr),
        Terminal::Less => Some(Operator::Less),
        Terminal::LessEqual => Some(Operator::LessOrSame),
        Terminal::Greater => Some(Operator::Greater),
        Terminal::GreaterEqual => Some(Operator::GreaterOrSame),
        Terminal::DoubleEqual => Some(Operator::Same),
        Terminal::NotEqual => Some(Operator::Different),
        Terminal::And => Some(Operator::And),
        Terminal::Caret => Some(Operator::Xor),
        Terminal::Or => Some(Operator::Or),
        Terminal::DoubleAnd => Some(Operator::Both),
        Terminal::DoubleOr => Some(Operator::Either),
        _ => None,
    }
}

/// The operator that a word is in front of an operand.
fn unary_operator(terminal: Terminal) -> Option<UnaryOperator>
    ensures { result ≡ grammar.unary_operator terminal }
{
    match terminal {
        Terminal::Not => Some(UnaryOperator::Not),
        Terminal::Tilde => Some(UnaryOperator::Complement),
        Terminal::Minus => Some(UnaryOperator::Negate),
        _ => None,
    }
}

/// An operator of the level, and the tokens after it.
#[tactic(auto, unfolding(crate::specs::Reading::take_leaf))]
pub fn operator(level: Level, lexemes: &[Lexeme]) -> Result<(Operator, &[Lexeme]), ReadFault>
    ensures { (source : List ℕ) → Gives (λ x. (x.0, x.1.now)) result
        (spec.take_leaf source (grammar.words_of level) grammar.operator_told lexemes.now) }
{
    match lexemes {
        [next, rest @ ..] if is_in(words_of(level), next.terminal) => {
            match operator_of(next.terminal) {
                Some(operator) => Ok((operator, rest)),
                None => Err(refusal(lexemes)),
            }
        }
        _ => Err(refusal(lexemes)),
    }
}

/// An operator in front of an operand, and the tokens after it.
#[tactic(auto, unfolding(crate::specs::Reading::take_leaf))]
pub fn prefix(lexemes: &[Lexeme]) -> Result<((Span, UnaryOperator), &[Lexeme]), ReadFault>
    ensures { (source : List ℕ) → Gives (λ x. (x.0, x.1.now)) result
        (spec.take_leaf source (word.Not ∷ word.Tilde ∷ word.Minus ∷ []) grammar.unary_told
        lexemes.now) }
{
    match lexemes {
        [next, rest @ ..]
            if is_in(
                &[Terminal::Not, Terminal::Tilde, Terminal::Minus],
                next.terminal,
            ) => {
            match unary_operator(next.terminal) {
                Some(operator) => Ok(((next.span, operator), rest)),
                None => Err(refusal(lexemes)),
            }
        }
        _ => Err(refusal(lexemes)),
    }
}
