ghost use Rattle.std.specs.Prelude.{◌≡◌, IfOk};
ghost use Rattle.bsv_types.specs.Asked as spec;

use crate::attribute_text::{listed, sides};
use crate::attributes::Attribute;
use bsv_ast::Attribute as Written;
use std::alloc::{AllocError, Global};

/// What an attribute belongs to.
#[derive(Clone, Copy, Debug, PartialEq, Eq)]
pub enum Owner {
    Module,
    Rule,
}

fn without_text(owner: Owner, name: &[u8]) -> Option<Attribute>
    ensures { result ≡ spec.without_text owner name.now }
{
    match owner {
        Owner::Module => {
            if name == b"synthesize".as_slice() {
                Some(Attribute::Synthesize)
            } else {
                None
            }
        }
        Owner::Rule => {
            if name == b"fire_when_enabled".as_slice() {
                Some(Attribute::FireWhenEnabled)
            } else if name == b"no_implicit_conditions".as_slice() {
                Some(Attribute::NoImplicitConditions)
            } else {
                None
            }
        }
    }
}

fn with_text(alloc: Global, name: &[u8], text: &[u8]) -> Result<Option<Attribute>, AllocError>
    ensures { IfOk result (λ asked. asked ≡ spec.with_text name.now text.now) }
{
    if name == b"descending_urgency".as_slice() {
        Ok(listed(alloc, text)?.map(Attribute::DescendingUrgency))
    } else if name == b"execution_order".as_slice() {
        Ok(listed(alloc, text)?.map(Attribute::ExecutionOrder))
    } else if name == b"preempts".as_slice() {
        Ok(sides(alloc, text)?.map(|(left, right)| Attribute::Preempts(left, right)))
    } else {
        Ok(None)
    }
}

/// What the attribute asks for; None where it is malformed.
#[tactic(auto, unfolding(crate::specs::Asked::attribute))]
pub fn attribute(
    alloc: Global,
    owner: Owner,
    written: &Written,
) -> Result<Option<Attribute>, AllocError>
    ensures { IfOk result (λ asked. asked ≡ spec.attribute owner written.now) }
{
    let name = written.name.name.bytes();
    match &written.text {
        None => Ok(without_text(owner, name)),
        Some(text) => with_text(alloc, name, text.bytes()),
    }
}
