ghost use Rattle.std.specs.Prelude.{◌≡◌, IfOk, map};
ghost use Rattle.bsv_tree.specs.carrying.Values as spec;
ghost use Rattle.bsv_tree.specs.meaning.Values.{constant_word as word_of_constant};

use crate::statics::Static;
use crate::steps::Atom;
use crate::values::{Constant, Value};
use bsv_bits::Word;
use sqlite_items::Items;
use std::alloc::{AllocError, Global};

pub(crate) fn constant_word(constant: Constant) -> Word
    ensures { result ≡ word_of_constant constant }
{
    match constant {
        Constant::Number(_) => Word::bit(false),
        Constant::Bits(word) => word,
    }
}

/// The word that a step names for the value.
pub fn atom_of(value: Value) -> Atom
    ensures { result ≡ spec.atom_of value }
{
    match value {
        Value::Static(constant) => Atom::Word(constant_word(constant)),
        Value::Open(atom) => atom,
    }
}

pub fn atoms(alloc: Global, values: &[Value]) -> Result<Items<Atom>, AllocError>
    ensures { IfOk result (λ atoms. atoms ≡ map spec.atom_of values.now) }
{
    let mut found = Items::new(alloc);
    for value in values {
        found.push(atom_of(*value))?;
    }
    Ok(found)
}

pub fn is_static(value: &Value) -> bool
    ensures { result ≡ spec.is_static value.now }
{
    match value {
        Value::Static(_) => true,
        Value::Open(_) => false,
    }
}

pub(crate) fn all_static(values: &[Value]) -> bool
    ensures { result ≡ spec.all_static values.now }
{
    for value in values {
        if !is_static(value) {
            return false;
        }
    }
    true
}

/// The same value, which is not static.
pub fn opened(value: Value) -> Value
    ensures { result ≡ spec.opened value }
{
    Value::Open(atom_of(value))
}

/// The word of a static value.
pub(crate) fn known(value: Value) -> Option<Word>
    ensures { result ≡ spec.known value }
{
    match value {
        Value::Static(constant) => Some(constant_word(constant)),
        Value::Open(_) => None,
    }
}

pub fn truth(truth: bool) -> Value
    ensures { result ≡ spec.truth truth }
{
    Value::Static(Constant::Bits(Word::bit(truth)))
}

/// What a condition decides; None where it is not static.
pub fn decided(value: Value) -> Option<bool>
    ensures { result ≡ spec.decided value }
{
    match value {
        Value::Static(constant) => Some(constant_word(constant).value() == 1),
        Value::Open(_) => None,
    }
}

/// Whether it is static and True.
pub fn is_true(value: &Value) -> bool
    ensures { result ≡ spec.is_true value.now }
{
    match value {
        Value::Static(constant) => constant_word(*constant).value() == 1,
        Value::Open(_) => false,
    }
}

/// What a variable of a module is, as a value; None of an instance.
pub fn held(value: &Static) -> Option<Value>
    ensures { result ≡ spec.held value.now }
{
    match value {
        Static::Number(number) => Some(Value::Static(Constant::Number(*number))),
        Static::Bits(word) => Some(Value::Static(Constant::Bits(*word))),
        Static::Truth(told) => Some(truth(*told)),
        Static::Place(_) | Static::Places(_) => None,
    }
}
