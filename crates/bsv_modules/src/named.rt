ghost use Rattle.std.specs.Prelude.{◌≡◌, ◌++◌, ◌∷◌, [], true, not, IfOk};
ghost use Rattle.bsv_scopes.specs.Scopes.{is_listed};
ghost use Rattle.bsv_types.specs.Modules.{param_names};
ghost use Rattle.bsv_types.specs.Names.{distinct, lower_names};
ghost use Rattle.bsv_modules.specs.Programs.{field_names, header_names};
ghost use Rattle.bsv_modules.specs.Seen.{seen_names};

use bsv_bits::{Name, OutOfMemory};
use bsv_context::is_lower;
use bsv_scopes::Scope;
use bsv_types::{Field, MethodHeader, Param};
use std::alloc::Global;

/// The names that came so far, no two of them one.
#[derive(Drop)]
pub(crate) struct SeenNames {
    names: Scope<()>,
}

impl SeenNames {
    /// No names.
    pub(crate) fn new(alloc: Global) -> SeenNames
        ensures { seen_names result ≡ [] }
    {
        SeenNames {
            names: Scope::new(alloc),
        }
    }

    /// Whether the name is new, and then it came.
    #[tactic(auto, using(crate::proofs::Distinct::coming))]
    pub(crate) fn add(&mut self, alloc: Global, name: &Name) -> Result<bool, OutOfMemory>
        ensures is_new { IfOk result (λ is_new. is_new
            ≡ not (is_listed name.now (seen_names self.old))) }
        ensures came { IfOk result (λ is_new. is_new ≡ true
            → seen_names self.new ≡ seen_names self.old ++ name.now ∷ []) }
    {
        let own = Name::new(alloc, name.bytes())?;
        Ok(self.names.define(own, ())?)
    }
}

/// Whether parameters have Lower names, no two of them one.
#[tactic(auto, using(crate::proofs::Distinct::distinguishing))]
pub(crate) fn params_named(alloc: Global, params: &[Param]) -> Result<bool, OutOfMemory>
    ensures { IfOk result (λ b. b ≡ lower_names (param_names params.now)) }
{
    let mut names = SeenNames::new(alloc);
    let mut rest = params;
    while let Some((param, after)) = rest.split_first() {
        if !is_lower(param.name.bytes()) || !names.add(alloc, &param.name)? {
            return Ok(false);
        }
        rest = after;
    }
    Ok(true)
}

/// Whether fields have Lower names, no two of them one.
#[tactic(auto, using(crate::proofs::Distinct::distinguishing))]
pub(crate) fn fields_named(alloc: Global, fields: &[Field]) -> Result<bool, OutOfMemory>
    ensures { IfOk result (λ b. b ≡ lower_names (field_names fields.now)) }
{
    let mut names = SeenNames::new(alloc);
    let mut rest = fields;
    while let Some((field, after)) = rest.split_first() {
        if !is_lower(field.name.bytes()) || !names.add(alloc, &field.name)? {
            return Ok(false);
        }
        rest = after;
    }
    Ok(true)
}

/// Whether no two methods have one name.
#[tactic(auto, using(crate::proofs::Distinct::distinguishing))]
pub(crate) fn methods_named(alloc: Global, methods: &[MethodHeader]) -> Result<bool, OutOfMemory>
    ensures { IfOk result (λ b. b ≡ distinct (header_names methods.now)) }
{
    let mut names = SeenNames::new(alloc);
    let mut rest = methods;
    while let Some((method, after)) = rest.split_first() {
        if !names.add(alloc, &method.name)? {
            return Ok(false);
        }
        rest = after;
    }
    Ok(true)
}
