ghost use Rattle.std.specs.Prelude.{◌≡◌, ◌++◌, false, IfOk, map, option_map, replicate};
ghost use Rattle.std.specs.List.{list_all};
ghost use Rattle.bsv_types.specs.Kinds.{kind};
ghost use Rattle.bsv_types.specs.Methods.{methods, param_kinds};
ghost use Rattle.bsv_context.specs.Seen.{method_of, shapes, shown};
ghost use Rattle.bsv_statements.specs.SeenBodies.{GivesAt};
ghost use Rattle.bsv_modules.specs.Modules as modules;
ghost use Rattle.bsv_modules.specs.Programs as spec;
ghost use Rattle.bsv_modules.specs.Seen.{KeptAt, body_seen, function_seen, heading, kinds, module_seen, program_of, site_of};

use crate::attributes::asked;
use crate::definitions::type_at;
use crate::elements::body;
use crate::module_statements::all_direct;
use crate::named::params_named;
use crate::params::{Allowed, declare_params, params};
use crate::site::{Header, ModuleContext, State};
use bsv_ast::{
    Body as WrittenBody, Function as WrittenFunction, Module as WrittenModule,
    ModuleBranch as WrittenBranch, ModuleStmt as WrittenStmt, Param as WrittenParam, Span,
};
use bsv_bits::Name;
use bsv_context::{
    Context, FoundMethod, FunctionHeader, Variable, is_interface, is_lower, method_count,
    method_named,
};
use bsv_scopes::{Scope, Scopes};
use bsv_statements::{BodyFail, at};
use bsv_types::{
    Body, Boxed, Function, Items, Method, MethodResult, Module, ModuleStmt, Owner, Param, Rule, Ty,
};
use bsv_typing::place_number;
use std::alloc::{AllocError, Global};

/// What the functions and modules of a program may name.
#[derive(Drop)]
pub struct Program {
    pub context: Context,
    pub modules: Scope<Header>,
}

/// The parameters of a function or a module, and its result or its interface.
type Heading = (Items<Param>, Ty);

/// The rules, the methods and the statements of a module.
type Parts = (Items<Rule>, Items<Method>, Items<ModuleStmt>);

/// The types of parameters.
#[tactic(auto, using(crate::proofs::Listed::naming))]
fn param_types(alloc: Global, params: &[Param]) -> Result<Items<Ty>, AllocError>
    ensures { IfOk result (λ ts. kinds ts ≡ param_kinds params.now) }
{
    let mut found = Items::new(alloc);
    let mut rest = params;
    while let Some((param, after)) = rest.split_first() {
        let ty = param.ty.copy(alloc)?;
        found.push(ty)?;
        rest = after;
    }
    Ok(found)
}

/// Scopes with these parameters.
pub fn param_scopes(
    alloc: Global,
    span: Span,
    params: &[Param],
) -> Result<Scopes<Variable>, BodyFail>
    ensures { GivesAt shown result (spec.param_scopes span params.now) }
{
    let mut scopes = Scopes::new(alloc);
    scopes.open(alloc)?;
    declare_params(alloc, span, &mut scopes, params)?;
    Ok(scopes)
}

/// The parameters of a function.
#[tactic(auto, using(crate::proofs::Views::names), unfolding(crate::specs::Programs::value_params))]
fn value_params(
    alloc: Global,
    program: &Program,
    span: Span,
    written: &[WrittenParam],
) -> Result<Items<Param>, BodyFail>
    ensures { GivesAt (λ ps. ps) result (spec.value_params
        (program_of program.now) span written.now) }
{
    params(alloc, &program.context, span, written, Allowed::Values)
}

/// The heading of a function.
#[tactic(auto, unfolding(crate::specs::Programs::function_header))]
pub fn function_heading(
    alloc: Global,
    program: &Program,
    written: &WrittenFunction,
) -> Result<Heading, BodyFail>
    ensures { GivesAt heading result (spec.function_header (program_of program.now) written.now) }
{
    let context = &program.context;
    let span = written.span;
    let result = type_at(alloc, context, span, &written.result)?;
    let params = value_params(alloc, program, span, written.params.as_slice())?;
    if is_lower(written.name.name.bytes())
        && context.is_typed_value(&result)
        && params_named(alloc, params.as_slice())?
    {
        Ok((params, result))
    } else {
        Err(BodyFail::At(span))
    }
}

/// A function as calls see it.
#[tactic(auto, using(crate::proofs::Views::lengths), unfolding(crate::specs::Programs::function_entry, crate::specs::Seen::function_seen))]
fn function_entry(
    alloc: Global,
    program: &Program,
    written: &WrittenFunction,
) -> Result<FunctionHeader, BodyFail>
    ensures { GivesAt function_seen result (spec.function_entry
        (program_of program.now) written.now) }
{
    let (params, result) = function_heading(alloc, program, written)?;
    let number = at(written.span, place_number(program.context.functions.len()))?;
    let types = param_types(alloc, params.as_slice())?;
    Ok(FunctionHeader {
        number,
        params: types,
        result,
    })
}

/// One function more that may be called.
#[tactic(auto, using(crate::proofs::Views::views))]
pub fn announce_function(
    alloc: Global,
    program: &mut Program,
    written: &WrittenFunction,
) -> Result<(), BodyFail>
    ensures given { GivesAt (λ done. program_of program.new) result
        (spec.with_function (program_of program.old) written.now) }
    ensures kept { KeptAt result (program_of program.new ≡ program_of program.old) }
{
    let entry = function_entry(alloc, program, written)?;
    let own = Name::new(alloc, written.name.name.bytes())?;
    if program.context.functions.define(own, entry)? {
        Ok(())
    } else {
        Err(BodyFail::At(written.span))
    }
}

/// Whether the function of the name has this number.
#[tactic(auto, using(crate::proofs::Views::finds), unfolding(crate::specs::Seen::function_seen))]
fn is_function(program: &Program, name: &Name, number: u32) -> bool
    ensures { result ≡ spec.is_function (program_of program.now) name.now number }
{
    match program.context.functions.find(name) {
        Some(header) => header.number == number,
        None => false,
    }
}

/// The body of a function, in the scope of its parameters.
#[tactic(auto, using(crate::proofs::Views::bodies), unfolding(crate::specs::Programs::function_body))]
fn function_body(
    alloc: Global,
    program: &Program,
    span: Span,
    params: &[Param],
    gives: &Ty,
    written: &WrittenBody,
) -> Result<Body, BodyFail>
    ensures { GivesAt (λ b. b) result (spec.function_body
        (program_of program.now) program.now.context.callable span params.now
        (kind gives.now) written.now) }
{
    let mut scopes = param_scopes(alloc, span, params)?;
    let does = MethodResult::Value(gives.copy(alloc)?);
    body(
        alloc,
        &program.context,
        &mut scopes,
        span,
        0,
        &does,
        written,
    )
}

/// The function of this number, which calls only functions before it.
#[tactic(auto, using(crate::proofs::Listed::types_back))]
pub fn function(
    alloc: Global,
    program: &mut Program,
    number: u32,
    written: &WrittenFunction,
) -> Result<Function, BodyFail>
    ensures typed { GivesAt (λ f. f) result (spec.function_case
        (program_of program.old) number written.now) }
    ensures kept { program_of program.new ≡ program_of program.old }
{
    let span = written.span;
    let heading = Boxed::new(alloc, function_heading(alloc, program, written)?)?;
    if !is_function(program, &written.name.name, number) {
        return Err(BodyFail::At(span));
    }
    program.context.callable = number;
    let name = Name::new(alloc, written.name.name.bytes())?;
    let (params, gives) = heading.get();
    let given = params.as_slice();
    let body = function_body(alloc, program, span, given, gives, &written.body)?;
    let (params, result) = heading.into_inner();
    Ok(Function {
        name,
        params,
        result,
        body,
    })
}

/// The parameters of a module.
#[tactic(auto, using(crate::proofs::Views::names), unfolding(crate::specs::Programs::module_params))]
fn module_params(
    alloc: Global,
    program: &Program,
    span: Span,
    written: &[WrittenParam],
) -> Result<Items<Param>, BodyFail>
    ensures { GivesAt (λ ps. ps) result (spec.module_params
        (program_of program.now) span written.now) }
{
    params(
        alloc,
        &program.context,
        span,
        written,
        Allowed::ValuesAndInterfaces,
    )
}

/// The heading of a module.
#[tactic(auto, unfolding(crate::specs::Programs::module_header))]
pub fn module_heading(
    alloc: Global,
    program: &Program,
    written: &WrittenModule,
) -> Result<Heading, BodyFail>
    ensures { GivesAt heading result (spec.module_header (program_of program.now) written.now) }
{
    let context = &program.context;
    let span = written.span;
    let params = module_params(alloc, program, span, written.params.as_slice())?;
    let interface = type_at(alloc, context, span, &written.interface)?;
    if is_lower(written.name.name.bytes())
        && is_interface(&interface)
        && params_named(alloc, params.as_slice())?
    {
        Ok((params, interface))
    } else {
        Err(BodyFail::At(span))
    }
}

/// A module as its makers see it.
#[tactic(auto, using(crate::proofs::Views::lengths), unfolding(crate::specs::Programs::module_entry, crate::specs::Seen::module_seen))]
fn module_entry(
    alloc: Global,
    program: &Program,
    written: &WrittenModule,
) -> Result<Header, BodyFail>
    ensures { GivesAt module_seen result (spec.module_entry (program_of program.now) written.now) }
{
    let (params, interface) = module_heading(alloc, program, written)?;
    let number = at(written.span, place_number(program.modules.len()))?;
    let types = param_types(alloc, params.as_slice())?;
    Ok(Header {
        number,
        params: types,
        interface,
    })
}

/// One module more of which instances may be made.
#[tactic(auto, using(crate::proofs::Views::views))]
pub fn announce_module(
    alloc: Global,
    program: &mut Program,
    written: &WrittenModule,
) -> Result<(), BodyFail>
    ensures given { GivesAt (λ done. program_of program.new) result
        (spec.with_module (program_of program.old) written.now) }
    ensures kept { KeptAt result (program_of program.new ≡ program_of program.old) }
{
    let entry = module_entry(alloc, program, written)?;
    let own = Name::new(alloc, written.name.name.bytes())?;
    if program.modules.define(own, entry)? {
        Ok(())
    } else {
        Err(BodyFail::At(written.span))
    }
}

/// Whether the module of the name has this number.
#[tactic(auto, using(crate::proofs::Views::finds), unfolding(crate::specs::Seen::module_seen))]
fn is_module(program: &Program, name: &Name, number: u32) -> bool
    ensures { result ≡ spec.is_module (program_of program.now) name.now number }
{
    match program.modules.find(name) {
        Some(header) => header.number == number,
        None => false,
    }
}

/// A place for each method of the interface.
#[tactic(auto, using(crate::proofs::Marks::places))]
pub fn no_methods(
    alloc: Global,
    context: &Context,
    interface: &Ty,
) -> Result<Vec<Option<Method>>, AllocError>
    ensures { IfOk result (λ ms. ms.items ≡ spec.no_methods
        (methods (shapes context.now) (kind interface.now))) }
{
    let mut places = Vec::new(alloc);
    for _method in 0..method_count(context, interface) {
        places.push(None)?;
    }
    Ok(places)
}

/// A mark for each method, none of them set.
#[tactic(auto, using(crate::proofs::Marks::places))]
fn no_marks(alloc: Global, count: usize) -> Result<Vec<bool>, AllocError>
    ensures { IfOk result (λ marks. marks.items ≡ replicate count false) }
{
    let mut marks = Vec::new(alloc);
    for _method in 0..count {
        marks.push(false)?;
    }
    Ok(marks)
}

/// The method of this number is in the body.
#[tactic(auto, using(crate::proofs::Marks::setting))]
fn mark(marks: &mut [bool], found: Option<FoundMethod<'_>>)
    ensures { marks.new ≡ modules.marked (option_map method_of found.entry) marks.old }
{
    if let Some(method) = found {
        if method.number < marks.len() {
            marks[method.number] = true;
        }
    }
}

/// The methods of a statement, also those in it, have their marks.
#[cycle(marks)]
#[tactic(auto, using(crate::proofs::Marks::marking), unfolding(bsv_context::specs::Methods::method_named))]
fn mark_stmt(context: &Context, interface: &Ty, stmt: &WrittenStmt, marks: &mut [bool])
    ensures { marks.new ≡ modules.all_marked (methods (shapes context.now) (kind interface.now))
        (modules.stmt_names stmt.now) marks.old }
{
    match stmt {
        WrittenStmt::Method(_, method) => {
            mark(
                marks,
                method_named(context, interface, method.name.name.bytes()),
            );
        }
        WrittenStmt::Block(_, stmts) => mark_methods(context, interface, stmts.as_slice(), marks),
        WrittenStmt::If(_, branches, otherwise) => {
            mark_choice(context, interface, branches.as_slice(), otherwise, marks);
        }
        WrittenStmt::For(_, _, arm) => mark_stmt(context, interface, arm.get(), marks),
        _ => {}
    }
}

/// The methods in an `if` have their marks.
#[cycle(marks)]
#[tactic(auto, using(crate::proofs::Marks::marking))]
fn mark_choice(
    context: &Context,
    interface: &Ty,
    branches: &[WrittenBranch],
    otherwise: &Option<Boxed<WrittenStmt>>,
    marks: &mut [bool],
)
    ensures { marks.new ≡ modules.all_marked (methods (shapes context.now) (kind interface.now))
        (modules.together (map modules.branch_names branches.now) ++ modules.last_names
        (option_map modules.stmt_names otherwise.now)) marks.old }
{
    mark_branches(context, interface, branches, marks);
    mark_last(context, interface, otherwise, marks);
}

/// The methods in an arm of an `if` have their marks.
#[cycle(marks)]
fn mark_branch(context: &Context, interface: &Ty, branch: &WrittenBranch, marks: &mut [bool])
    ensures { marks.new ≡ modules.all_marked (methods (shapes context.now) (kind interface.now))
        (modules.branch_names branch.now) marks.old }
{
    mark_stmt(context, interface, &branch.arm, marks);
}

/// The methods in the arms of an `if` have their marks.
#[cycle(marks)]
#[tactic(auto, using(crate::proofs::Marks::marking))]
fn mark_branches(context: &Context, interface: &Ty, branches: &[WrittenBranch], marks: &mut [bool])
    ensures { marks.new ≡ modules.all_marked (methods (shapes context.now) (kind interface.now))
        (modules.together (map modules.branch_names branches.now)) marks.old }
{
    let mut rest = branches;
    while let Some((branch, after)) = rest.split_first() {
        mark_branch(context, interface, branch, marks);
        rest = after;
    }
}

/// The methods in the arm without a condition, if there is one, have their marks.
#[cycle(marks)]
fn mark_last(
    context: &Context,
    interface: &Ty,
    otherwise: &Option<Boxed<WrittenStmt>>,
    marks: &mut [bool],
)
    ensures { marks.new ≡ modules.all_marked (methods (shapes context.now) (kind interface.now))
        (modules.last_names (option_map modules.stmt_names otherwise.now)) marks.old }
{
    match otherwise {
        None => {}
        Some(arm) => mark_stmt(context, interface, arm.get(), marks),
    }
}

/// The methods of the statements of a module have their marks.
#[cycle(marks)]
#[tactic(auto, using(crate::proofs::Marks::marking))]
fn mark_methods(context: &Context, interface: &Ty, stmts: &[WrittenStmt], marks: &mut [bool])
    ensures { marks.new ≡ modules.all_marked (methods (shapes context.now) (kind interface.now))
        (modules.method_names stmts.now) marks.old }
{
    let mut rest = stmts;
    while let Some((stmt, after)) = rest.split_first() {
        mark_stmt(context, interface, stmt, marks);
        rest = after;
    }
}

/// Whether all marks are set.
fn are_set(marks: &[bool]) -> bool
    ensures { result ≡ list_all (λ b. b) marks.now }
{
    let mut rest = marks;
    while let Some((mark, after)) = rest.split_first() {
        if !*mark {
            return false;
        }
        rest = after;
    }
    true
}

/// Whether the body of a module defines each method of the interface.
pub fn defines_all(
    alloc: Global,
    context: &Context,
    interface: &Ty,
    stmts: &[WrittenStmt],
) -> Result<bool, AllocError>
    ensures { IfOk result (λ b. b ≡ modules.defines_all
        (methods (shapes context.now) (kind interface.now)) stmts.now) }
{
    let mut marks = no_marks(alloc, method_count(context, interface))?;
    mark_methods(context, interface, stmts, marks.as_mut_slice());
    Ok(are_set(marks.as_slice()))
}

/// The methods of a module, where none is missing.
#[tactic(auto, using(crate::proofs::Listed::gathering))]
fn all_there(
    alloc: Global,
    span: Span,
    methods: Vec<Option<Method>>,
) -> Result<Items<Method>, BodyFail>
    ensures { GivesAt (λ ms. ms) result (spec.all_there span methods.items) }
{
    let mut found = Items::new(alloc);
    let mut left = methods.into_iter();
    while let Some(place) = left.next() {
        let Some(method) = place else {
            return Err(BodyFail::At(span));
        };
        found.push(method)?;
    }
    Ok(found)
}

/// The statements of a module, in the scope of its parameters.
#[tactic(auto, unfolding(crate::specs::Programs::module_body))]
fn module_body(
    alloc: Global,
    site: &ModuleContext<'_>,
    written: &WrittenModule,
    scopes: Scopes<Variable>,
) -> Result<(State, Items<ModuleStmt>), BodyFail>
    ensures { GivesAt body_seen result (spec.module_body (site_of site.now) written.now
        (shown scopes)) }
{
    let stmts = written.body.as_slice();
    if !defines_all(alloc, site.context, site.interface, stmts)? {
        return Err(BodyFail::At(written.span));
    }
    let mut state = State {
        scopes,
        rules: Items::new(alloc),
        methods: no_methods(alloc, site.context, site.interface)?,
    };
    let typed = all_direct(alloc, site, &mut state, stmts)?;
    Ok((state, typed))
}

/// What the statements of a module come to.
#[tactic(auto, using(crate::proofs::Views::sites), unfolding(crate::specs::Programs::module_parts))]
fn module_parts(
    alloc: Global,
    program: &Program,
    interface: &Ty,
    written: &WrittenModule,
    params: &[Param],
) -> Result<Parts, BodyFail>
    ensures { GivesAt (λ parts. parts) result
        (spec.module_parts (spec.site_at (program_of program.now) program.now.context.callable
        (kind interface.now)) written.now params.now) }
{
    let scopes = param_scopes(alloc, written.span, params)?;
    let site = ModuleContext {
        context: &program.context,
        modules: &program.modules,
        interface,
    };
    let (state, typed) = module_body(alloc, &site, written, scopes)?;
    let methods = all_there(alloc, written.span, state.methods)?;
    Ok((state.rules, methods, typed))
}

/// The module of this number, which may call all functions.
#[tactic(auto, using(crate::proofs::Listed::types_back, crate::proofs::Views::lengths))]
pub fn module(
    alloc: Global,
    program: &mut Program,
    number: u32,
    written: &WrittenModule,
) -> Result<Module, BodyFail>
    ensures typed { GivesAt (λ m. m) result (spec.module_case
        (program_of program.old) number written.now) }
    ensures kept { program_of program.new ≡ program_of program.old }
{
    let span = written.span;
    let attributes = asked(alloc, span, Owner::Module, written.attributes.as_slice())?;
    let heading = Boxed::new(alloc, module_heading(alloc, program, written)?)?;
    if !is_module(program, &written.name.name, number) {
        return Err(BodyFail::At(span));
    }
    program.context.callable = at(span, place_number(program.context.functions.len()))?;
    let (params, interface) = heading.get();
    let parts = module_parts(alloc, program, interface, written, params.as_slice())?;
    let name = Name::new(alloc, written.name.name.bytes())?;
    let (params, interface) = heading.into_inner();
    Ok(Module {
        name,
        attributes,
        params,
        interface,
        rules: parts.0,
        methods: parts.1,
        body: parts.2,
    })
}
