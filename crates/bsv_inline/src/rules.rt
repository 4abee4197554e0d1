ghost use Rattle.std.specs.Prelude.{◌≡◌, option_map};
ghost use Rattle.bsv_tree.specs.tree.Elements as spec;
ghost use Rattle.bsv_inline.specs.SourcesAtHand.{standing};

use bsv_bits::Name;
use bsv_tree::{Built, BuiltRule, Instance, Made};

/// A rule, with its instance.
#[derive(Clone, Copy)]
pub(crate) struct Placed<'a> {
    pub path: &'a Name,
    pub built: &'a Built,
    pub rule: &'a BuiltRule,
}

/// The rule of a position in an instance of a module.
fn rule_among<'a>(path: &'a Name, built: &'a Built, position: u32) -> Option<Placed<'a>>
    ensures { option_map standing result
        ≡ spec.rule_among path.now built.now position built.now.rules }
{
    let mut rest = built.rules.as_slice();
    while let Some((rule, after)) = rest.split_first() {
        if rule.position == position {
            return Some(Placed { path, built, rule });
        }
        rest = after;
    }
    None
}

/// The rule of a position in an instance.
fn rule_here(instance: &Instance, position: u32) -> Option<Placed<'_>>
    ensures { option_map standing result
        ≡ spec.rule_here position instance.now.path instance.now.made }
{
    match &instance.made {
        Made::Primitive(_, _) => None,
        Made::Module(built) => rule_among(&instance.path, built, position),
    }
}

/// The rule of a position.
pub(crate) fn rule_at(instances: &[Instance], position: u32) -> Option<Placed<'_>>
    ensures { option_map standing result ≡ spec.rule_at instances.now position }
{
    let mut rest = instances;
    while let Some((instance, after)) = rest.split_first() {
        if let Some(found) = rule_here(instance, position) {
            return Some(found);
        }
        rest = after;
    }
    None
}
