ghost use Rattle.std.specs.Prelude.{◌≡◌};
ghost use Rattle.bsv_elab.specs.AtHand as spec;

use bsv_bits::Name;
use bsv_design::Attribute;
use bsv_fail::Fail;
use bsv_tree::Fault;

/// What is counted.
#[derive(Clone, Copy, Debug, PartialEq, Eq)]
pub enum LimitKind {
    Elements,
    Instances,
    Depth,
    Weight,
    Calls,
    Modules,
}

/// The first refusal that building meets. A module is named by its place.
#[derive(Debug, Drop)]
pub enum Refused {
    /// No module has the name and no parameters.
    NoSuchModule,
    /// What carrying out meets, in a rule, a method or a module's body.
    Carried(Fault),
    /// The module is made inside itself.
    Recursion(u32),
    /// The path stands for two.
    NameTaken(Name),
    /// More than so many.
    Limit(LimitKind, u64),
    /// The attribute names no rule.
    NoSuchRule(Attribute, Name),
}

/// Something, or the first refusal.
pub(crate) type Building<A> = Result<A, Fail<Refused>>;

/// What carrying out meets, as building meets it.
pub(crate) fn from_carry(fail: Fail<Fault>) -> Fail<Refused>
    ensures { result ≡ spec.from_carry fail }
{
    match fail {
        Fail::Memory => Fail::Memory,
        Fail::Fault(fault) => Fail::Fault(Refused::Carried(fault)),
    }
}
