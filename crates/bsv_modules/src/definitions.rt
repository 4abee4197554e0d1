ghost use Rattle.std.specs.Prelude.{◌≡◌, Some, IfOk};
ghost use Rattle.std.specs.List.{list_all};
ghost use Rattle.bsv_types.specs.Kinds.{kind};
ghost use Rattle.bsv_types.specs.Names.{distinct};
ghost use Rattle.bsv_statements.specs.Bodies.{at};
ghost use Rattle.bsv_context.specs.Seen.{Gives, type_names};
ghost use Rattle.bsv_statements.specs.SeenBodies.{GivesAt};
ghost use Rattle.bsv_modules.specs.Programs as spec;
ghost use Rattle.bsv_modules.specs.Seen.{KeptAt, labels_of, types_of};

use crate::named::{SeenNames, fields_named, methods_named, params_named};
use crate::params::{Allowed, params};
use bsv_ast::{
    Field as WrittenField, Ident, Interface as WrittenInterface, Item,
    MethodHeader as WrittenHeader, Span, Typedef, WrittenType,
};
use bsv_bits::{Name, OutOfMemory};
use bsv_context::{Context, Fail, Label, is_lower, is_upper, written_effect, written_type};
use bsv_scopes::Scope;
use bsv_statements::{BodyFail, at};
use bsv_types::{Enum, Field, Interface, Items, MethodHeader, Methods, Struct, Ty};
use bsv_typing::place_number;
use std::alloc::Global;

/// The name of a type stands for the type.
#[tactic(auto, using(crate::proofs::Views::views))]
fn define_type(
    alloc: Global,
    context: &mut Context,
    span: Span,
    name: &Name,
    ty: Ty,
) -> Result<(), BodyFail>
    ensures given { GivesAt (λ done. types_of context.new) result
        (at span (spec.with_type name.now (kind ty) (types_of context.old))) }
    ensures kept { KeptAt result (types_of context.new ≡ types_of context.old) }
{
    let own = Name::new(alloc, name.bytes())?;
    if context.types.define(own, ty)? {
        Ok(())
    } else {
        Err(BodyFail::At(span))
    }
}

/// Whether none of the labels is there yet.
#[tactic(auto, using(crate::proofs::Views::views))]
fn are_undefined(known: &Scope<Label>, labels: &[Ident]) -> bool
    ensures { result ≡ list_all (spec.is_undefined (labels_of known.now)) labels.now }
{
    let mut rest = labels;
    while let Some((label, after)) = rest.split_first() {
        if known.is_defined(&label.name) {
            return false;
        }
        rest = after;
    }
    true
}

/// Whether no two of the labels are one.
#[tactic(auto, using(crate::proofs::NamesOnce::distinguishing))]
fn are_distinct(alloc: Global, labels: &[Ident]) -> Result<bool, OutOfMemory>
    ensures { IfOk result (λ b. b ≡ distinct (spec.names_of labels.now)) }
{
    let mut names = SeenNames::new(alloc);
    let mut rest = labels;
    while let Some((label, after)) = rest.split_first() {
        if !names.add(alloc, &label.name)? {
            return Ok(false);
        }
        rest = after;
    }
    Ok(true)
}

/// Whether no two of the labels are one, and none is there yet.
fn are_new(alloc: Global, known: &Scope<Label>, labels: &[Ident]) -> Result<bool, OutOfMemory>
    ensures { IfOk result (λ b. b ≡ spec.are_new labels.now (labels_of known.now)) }
{
    Ok(are_undefined(known, labels) && are_distinct(alloc, labels)?)
}

/// Labels of the enum of this number.
#[tactic(auto, using(crate::proofs::Views::views))]
fn define_labels(
    alloc: Global,
    known: &mut Scope<Label>,
    of_enum: u32,
    labels: &[Ident],
) -> Result<(), Fail>
    ensures { Gives (λ done. labels_of known.new) result
        (Some (spec.with_labels of_enum 0 labels.now (labels_of known.old))) }
{
    let mut rest = labels;
    let mut place = 0usize;
    while let Some((label, after)) = rest.split_first() {
        let number = place_number(place)?;
        let own = Name::new(alloc, label.name.bytes())?;
        known.define(own, Label { of_enum, number })?;
        place += 1;
        rest = after;
    }
    Ok(())
}

/// Copies of the names of labels.
#[tactic(auto, using(crate::proofs::Listed::naming))]
fn label_names(alloc: Global, labels: &[Ident]) -> Result<Items<Name>, OutOfMemory>
    ensures { IfOk result (λ names. names ≡ spec.names_of labels.now) }
{
    let mut found = Items::new(alloc);
    let mut rest = labels;
    while let Some((label, after)) = rest.split_first() {
        let own = Name::new(alloc, label.name.bytes())?;
        found.push(own)?;
        rest = after;
    }
    Ok(found)
}

/// Whether all labels are Upper names.
fn are_labels(labels: &[Ident]) -> bool
    ensures { result ≡ list_all spec.is_label labels.now }
{
    let mut rest = labels;
    while let Some((label, after)) = rest.split_first() {
        if !is_upper(label.name.bytes()) {
            return false;
        }
        rest = after;
    }
    true
}

/// Whether an enum has a name and labels that are Upper names, and two labels or more.
fn is_enum(name: &Name, labels: &[Ident]) -> bool
    ensures { result ≡ spec.is_enum name.now labels.now }
{
    is_upper(name.bytes()) && labels.len() >= 2 && are_labels(labels)
}

/// The enum of these labels.
#[tactic(auto, using(crate::proofs::EnumWidths::widths))]
fn made_enum(alloc: Global, span: Span, name: &Name, labels: &[Ident]) -> Result<Enum, BodyFail>
    ensures { GivesAt (λ e. e) result (spec.enum_of span name.now labels.now) }
{
    if !is_enum(name, labels) {
        return Err(BodyFail::At(span));
    }
    let own = Name::new(alloc, name.bytes())?;
    let names = label_names(alloc, labels)?;
    Ok(Enum::new(own, names))
}

/// An enum.
#[tactic(auto, using(crate::proofs::Views::views))]
fn define_enum(
    alloc: Global,
    context: &mut Context,
    span: Span,
    name: &Ident,
    labels: &[Ident],
) -> Result<(), BodyFail>
    ensures given { GivesAt (λ done. types_of context.new) result
        (spec.enum_case span name.now labels.now (types_of context.old)) }
    ensures kept { KeptAt result (types_of context.new ≡ types_of context.old) }
{
    let made = made_enum(alloc, span, &name.name, labels)?;
    if !are_new(alloc, &context.labels, labels)? {
        return Err(BodyFail::At(span));
    }
    let number = at(span, place_number(context.enums.len()))?;
    define_type(alloc, context, span, &name.name, Ty::Enum(number))?;
    at(
        span,
        define_labels(alloc, &mut context.labels, number, labels),
    )?;
    context.enums.push(made)?;
    Ok(())
}

/// A field of a struct.
#[tactic(auto, using(crate::proofs::Listed::types_back))]
fn field(
    alloc: Global,
    context: &Context,
    span: Span,
    written: &WrittenField,
) -> Result<Field, BodyFail>
    ensures { GivesAt (λ f. f) result (spec.field_at (type_names context.now) span written.now) }
{
    let ty = at(span, written_type(alloc, context, &written.written))?;
    if !context.has_bits(&ty) {
        return Err(BodyFail::At(span));
    }
    let name = Name::new(alloc, written.name.name.bytes())?;
    Ok(Field { name, ty })
}

/// The fields of a struct.
#[tactic(auto, using(crate::proofs::Listed::gathering))]
fn fields(
    alloc: Global,
    context: &Context,
    span: Span,
    written: &[WrittenField],
) -> Result<Items<Field>, BodyFail>
    ensures { GivesAt (λ fs. fs) result (spec.fields_at (type_names context.now) span written.now) }
{
    let mut found = Items::new(alloc);
    let mut rest = written;
    while let Some((next, after)) = rest.split_first() {
        let typed = field(alloc, context, span, next)?;
        found.push(typed)?;
        rest = after;
    }
    Ok(found)
}

/// Whether a struct has a width in range, where that is asked for.
fn is_in_range(context: &Context, width: u32) -> bool
    ensures { result ≡ spec.width_passes context.now.strict width }
{
    !context.strict || (1 <= width && width <= 128)
}

/// Whether a struct has an Upper name and one field or more, and its fields Lower names, no two of them one.
fn is_struct(alloc: Global, name: &Name, fields: &[Field]) -> Result<bool, OutOfMemory>
    ensures { IfOk result (λ b. b ≡ spec.is_struct name.now fields.now) }
{
    Ok(is_upper(name.bytes()) && !fields.is_empty() && fields_named(alloc, fields)?)
}

/// The struct of these fields.
fn made_struct(
    alloc: Global,
    context: &Context,
    span: Span,
    name: &Name,
    fields: Items<Field>,
) -> Result<Struct, BodyFail>
    ensures { GivesAt (λ s. s) result (spec.struct_of span name.now fields (types_of context.now)) }
{
    if !is_struct(alloc, name, fields.as_slice())? {
        return Err(BodyFail::At(span));
    }
    let own = Name::new(alloc, name.bytes())?;
    match Struct::new(&context.enums, &context.structs, own, fields) {
        Some(made) if is_in_range(context, made.width) => Ok(made),
        _ => Err(BodyFail::At(span)),
    }
}

/// The struct of fields that are written.
#[tactic(auto, using(crate::proofs::Views::names), unfolding(crate::specs::Programs::struct_at))]
fn written_struct(
    alloc: Global,
    context: &Context,
    span: Span,
    name: &Name,
    written: &[WrittenField],
) -> Result<Struct, BodyFail>
    ensures { GivesAt (λ s. s) result (spec.struct_at span name.now written.now
        (types_of context.now)) }
{
    let fields = fields(alloc, context, span, written)?;
    made_struct(alloc, context, span, name, fields)
}

/// A struct.
#[tactic(auto, using(crate::proofs::Views::views))]
fn define_struct(
    alloc: Global,
    context: &mut Context,
    span: Span,
    name: &Ident,
    written: &[WrittenField],
) -> Result<(), BodyFail>
    ensures given { GivesAt (λ done. types_of context.new) result
        (spec.struct_case span name.now written.now (types_of context.old)) }
    ensures kept { KeptAt result (types_of context.new ≡ types_of context.old) }
{
    let made = written_struct(alloc, context, span, &name.name, written)?;
    let number = at(span, place_number(context.structs.len()))?;
    define_type(alloc, context, span, &name.name, Ty::Struct(number))?;
    context.structs.push(made)?;
    Ok(())
}

/// The type that is written, among those that were defined so far.
#[tactic(auto, using(crate::proofs::Views::names), unfolding(crate::specs::Programs::written_at))]
pub(crate) fn type_at(
    alloc: Global,
    context: &Context,
    span: Span,
    written: &WrittenType,
) -> Result<Ty, BodyFail>
    ensures { GivesAt kind result (spec.written_at span written.now (types_of context.now)) }
{
    at(span, written_type(alloc, context, written))
}

/// Another name of a type.
fn define_alias(
    alloc: Global,
    context: &mut Context,
    span: Span,
    written: &WrittenType,
    name: &Ident,
) -> Result<(), BodyFail>
    ensures given { GivesAt (λ done. types_of context.new) result
        (spec.alias_case span written.now name.now (types_of context.old)) }
    ensures kept { KeptAt result (types_of context.new ≡ types_of context.old) }
{
    let ty = type_at(alloc, context, span, written)?;
    define_type(alloc, context, span, &name.name, ty)
}

/// A typedef.
fn define_typedef(alloc: Global, context: &mut Context, typedef: &Typedef) -> Result<(), BodyFail>
    ensures given { GivesAt (λ done. types_of context.new) result
        (spec.typedef_case typedef.now (types_of context.old)) }
    ensures kept { KeptAt result (types_of context.new ≡ types_of context.old) }
{
    match typedef {
        Typedef::Alias(span, written, name) => define_alias(alloc, context, *span, written, name),
        Typedef::Enum(span, labels, name, _) => {
            define_enum(alloc, context, *span, name, labels.as_slice())
        }
        Typedef::Struct(span, fields, name, _) => {
            define_struct(alloc, context, *span, name, fields.as_slice())
        }
    }
}

/// A method of an interface.
#[tactic(auto, using(crate::proofs::Listed::types_back))]
fn method_header(
    alloc: Global,
    context: &Context,
    span: Span,
    written: &WrittenHeader,
) -> Result<MethodHeader, BodyFail>
    ensures { GivesAt (λ h. h) result (spec.header_at (type_names context.now) span written.now) }
{
    let params = params(
        alloc,
        context,
        span,
        written.params.as_slice(),
        Allowed::Bits,
    )?;
    let result = at(span, written_effect(alloc, context, &written.result))?;
    if !is_lower(written.name.name.bytes()) || !params_named(alloc, params.as_slice())? {
        return Err(BodyFail::At(span));
    }
    Ok(MethodHeader {
        name: Name::new(alloc, written.name.name.bytes())?,
        params,
        result,
    })
}

/// The methods of an interface.
#[tactic(auto, using(crate::proofs::Listed::gathering))]
fn method_headers(
    alloc: Global,
    context: &Context,
    span: Span,
    written: &[WrittenHeader],
) -> Result<Items<MethodHeader>, BodyFail>
    ensures { GivesAt (λ hs. hs) result (spec.headers_at
        (type_names context.now) span written.now) }
{
    let mut found = Items::new(alloc);
    let mut rest = written;
    while let Some((next, after)) = rest.split_first() {
        let typed = method_header(alloc, context, span, next)?;
        found.push(typed)?;
        rest = after;
    }
    Ok(found)
}

/// The interface of methods that are written.
#[tactic(auto, using(crate::proofs::Views::names), unfolding(crate::specs::Programs::interface_of))]
fn made_interface(
    alloc: Global,
    context: &Context,
    written: &WrittenInterface,
) -> Result<Interface, BodyFail>
    ensures { GivesAt (λ i. i) result (spec.interface_of written.now (types_of context.now)) }
{
    let span = written.span;
    let methods = method_headers(alloc, context, span, written.methods.as_slice())?;
    let text = written.name.name.bytes();
    if !is_upper(text) || !methods_named(alloc, methods.as_slice())? {
        return Err(BodyFail::At(span));
    }
    let name = Name::new(alloc, text)?;
    let methods = Methods::new(alloc, methods)?;
    Ok(Interface { name, methods })
}

/// An interface.
#[tactic(auto, using(crate::proofs::Views::views))]
fn define_interface(
    alloc: Global,
    context: &mut Context,
    written: &WrittenInterface,
) -> Result<(), BodyFail>
    ensures given { GivesAt (λ done. types_of context.new) result
        (spec.interface_case written.now (types_of context.old)) }
    ensures kept { KeptAt result (types_of context.new ≡ types_of context.old) }
{
    let span = written.span;
    let made = made_interface(alloc, context, written)?;
    let number = at(span, place_number(context.interfaces.len()))?;
    define_type(
        alloc,
        context,
        span,
        &written.name.name,
        Ty::Interface(number),
    )?;
    context.interfaces.push(made)?;
    Ok(())
}

/// The types that an item defines, each by the ones before it.
pub fn define_types(alloc: Global, context: &mut Context, item: &Item) -> Result<(), BodyFail>
    ensures given { GivesAt (λ done. types_of context.new) result
        (spec.types_after item.now (types_of context.old)) }
    ensures kept { KeptAt result (types_of context.new ≡ types_of context.old) }
{
    match item {
        Item::Typedef(_, typedef) => define_typedef(alloc, context, typedef),
        Item::Interface(_, interface) => define_interface(alloc, context, interface),
        Item::Import(_, _) | Item::Function(_, _) | Item::Module(_, _) => Ok(()),
    }
}
