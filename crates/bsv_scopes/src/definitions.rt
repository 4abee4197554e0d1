ghost use Rattle.std.specs.Prelude.{◌≡◌, ◌≢◌, not, map, IfOk, OnOk, OnErr};
ghost use Rattle.bsv_scopes.specs.Given as spec;
ghost use Rattle.bsv_scopes.specs.Given.{names_of, given_names, given_types, given_labels, with_new_name};
ghost use Rattle.bsv_scopes.specs.Scopes.{is_listed};
ghost use Rattle.bsv_scopes.specs.Seen.{entries};
ghost use Rattle.bsv_scopes.specs.declared.definitions.Space.{Space};
ghost use Rattle.bsv_scopes.specs.declared.definitions.Space.TheVariants as space;
ghost use Rattle.bsv_types.specs.Makers.{maker_name};
ghost use Rattle.bsv_types.specs.GivenFunctions.{function_name};

use crate::scope::Scope;
use bsv_bits::{Name, OutOfMemory};
use bsv_types::{GivenFunction, GivenMaker, given_functions, given_makers};
use std::alloc::{AllocError, Global};

/// The four scopes over all packages.
#[derive(Clone, Copy, Debug, PartialEq, Eq)]
pub enum Space {
    /// Of types and of interfaces.
    Types,
    Labels,
    Functions,
    /// Of modules and of what makes a primitive.
    Modules,
}

const TYPES: [&[u8]; 15] = [
    b"Bit",
    b"UInt",
    b"Int",
    b"Bool",
    b"Maybe",
    b"Integer",
    b"Empty",
    b"Reg",
    b"Wire",
    b"RWire",
    b"PulseWire",
    b"FIFO",
    b"FIFOF",
    b"Action",
    b"ActionValue",
];

const LABELS: [&[u8]; 2] = [b"True", b"False"];

/// The names of types and of interfaces that the language gives.
#[tactic(auto, using(crate::proofs::Tables::tables))]
fn types() -> &'static [&'static [u8]]
    ensures { map (λ name. name.now) result.now ≡ given_types }
{
    &TYPES
}

/// The labels that the language gives.
#[tactic(auto, using(crate::proofs::Tables::tables))]
fn labels() -> &'static [&'static [u8]]
    ensures { map (λ name. name.now) result.now ≡ given_labels }
{
    &LABELS
}

/// A scope of these names, in their order.
fn scope_of(alloc: Global, names: &[&[u8]]) -> Result<Scope<()>, OutOfMemory>
    ensures { IfOk result (λ scope. entries scope
        ≡ spec.defined_all (map (λ name. name.now) names.now)) }
{
    let mut scope = Scope::new(alloc);
    for text in names {
        scope.define(Name::new(alloc, text)?, ())?;
    }
    Ok(scope)
}

/// A scope of the names of these functions, in their order.
fn scope_of_functions(alloc: Global, functions: &[GivenFunction]) -> Result<Scope<()>, OutOfMemory>
    ensures { IfOk result (λ scope. entries scope
        ≡ spec.defined_all (map function_name functions.now)) }
{
    let mut scope = Scope::new(alloc);
    for function in functions {
        scope.define(Name::new(alloc, function.name())?, ())?;
    }
    Ok(scope)
}

/// A scope of the names of these makers, in their order.
fn scope_of_makers(alloc: Global, makers: &[GivenMaker]) -> Result<Scope<()>, OutOfMemory>
    ensures { IfOk result (λ scope. entries scope
        ≡ spec.defined_all (map maker_name makers.now)) }
{
    let mut scope = Scope::new(alloc);
    for maker in makers {
        scope.define(Name::new(alloc, maker.name())?, ())?;
    }
    Ok(scope)
}

/// The names that are defined over all packages, each in its space.
#[derive(Drop)]
pub struct Definitions {
    types: Scope<()>,
    labels: Scope<()>,
    functions: Scope<()>,
    modules: Scope<()>,
}

impl Definitions {
    /// The names that the language gives, and no other.
    #[tactic(auto, using(crate::proofs::Tables::all_given))]
    pub fn given(alloc: Global) -> Result<Definitions, OutOfMemory>
        ensures types { IfOk result (λ definitions. names_of space.Types definitions
            ≡ given_names space.Types) }
        ensures labels { IfOk result (λ definitions. names_of space.Labels definitions
            ≡ given_names space.Labels) }
        ensures functions { IfOk result (λ definitions. names_of space.Functions definitions
            ≡ given_names space.Functions) }
        ensures modules { IfOk result (λ definitions. names_of space.Modules definitions
            ≡ given_names space.Modules) }
    {
        Ok(Definitions {
            types: scope_of(alloc, types())?,
            labels: scope_of(alloc, labels())?,
            functions: scope_of_functions(alloc, given_functions())?,
            modules: scope_of_makers(alloc, given_makers())?,
        })
    }

    /// Defines the name in the space, after the names that it has, and says whether it was new there.
    #[tactic(auto, using(crate::proofs::Names::defined))]
    pub fn define(&mut self, space: Space, name: Name) -> Result<bool, AllocError>
        ensures is_new { IfOk result (λ is_new. is_new
            ≡ not (is_listed name (names_of space self.old))) }
        ensures defined { OnOk result (names_of space self.new
            ≡ with_new_name name (names_of space self.old)) }
        ensures kept { OnErr result (names_of space self.new ≡ names_of space self.old) }
        ensures others { (other : Space) → other ≢ space
            → names_of other self.new ≡ names_of other self.old }
    {
        match space {
            Space::Types => self.types.define(name, ()),
            Space::Labels => self.labels.define(name, ()),
            Space::Functions => self.functions.define(name, ()),
            Space::Modules => self.modules.define(name, ()),
        }
    }

    /// Whether the name is defined in the space.
    pub fn is_defined(&self, space: Space, name: &Name) -> bool
        ensures { result ≡ is_listed name.now (names_of space self.now) }
    {
        match space {
            Space::Types => self.types.is_defined(name),
            Space::Labels => self.labels.is_defined(name),
            Space::Functions => self.functions.is_defined(name),
            Space::Modules => self.modules.is_defined(name),
        }
    }
}
