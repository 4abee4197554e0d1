ghost use Rattle.std.specs.Prelude.{◌≡◌};
ghost use Rattle.bsv_ast.specs.Packages.{items_of};
ghost use Rattle.bsv_ast.specs.Spans.{typedef_span, item_span, package_span};

use crate::modules::{Body, Module, Param};
use crate::text::{Ident, Span};
use crate::types::WrittenType;
use sqlite_items::Items;

/// `"import" Upper "::" "*" ";"`
#[derive(Drop)]
pub struct Import {
    pub span: Span,
    pub package: Ident,
}

/// `type Lower ";"`
#[derive(Drop)]
pub struct Field {
    pub span: Span,
    pub written: WrittenType,
    pub name: Ident,
}

/// A definition of a type. The last list of a variant has the names of its `deriving`.
#[derive(Drop)]
pub enum Typedef {
    /// `"typedef" type Upper ";"`
    Alias(Span, WrittenType, Ident),
    /// `"typedef" "enum" "{" Upper { "," Upper } "}" Upper [ deriving ] ";"`
    Enum(Span, Items<Ident>, Ident, Items<Ident>),
    /// `"typedef" "struct" "{" { type Lower ";" } "}" Upper [ deriving ] ";"`
    Struct(Span, Items<Field>, Ident, Items<Ident>),
}

/// `"method" mtype Lower [ "(" [ params ] ")" ] ";"`
#[derive(Drop)]
pub struct MethodHeader {
    pub span: Span,
    pub result: WrittenType,
    pub name: Ident,
    pub params: Items<Param>,
}

/// `"interface" Upper ";"`, its methods, and `"endinterface" [ ":" Upper ]`
#[derive(Drop)]
pub struct Interface {
    pub span: Span,
    pub name: Ident,
    pub methods: Items<MethodHeader>,
}

/// `"function" type Lower "(" [ params ] ")"`, and its body.
#[derive(Drop)]
pub struct Function {
    pub span: Span,
    pub result: WrittenType,
    pub name: Ident,
    pub params: Items<Param>,
    pub body: Body,
}

/// What is in a package.
#[derive(Drop)]
pub enum Item {
    /// `import`
    Import(Span, Import),
    /// `typedef`
    Typedef(Span, Typedef),
    /// `interface`
    Interface(Span, Interface),
    /// `function`
    Function(Span, Function),
    /// `module`
    Module(Span, Module),
}

/// A whole file.
#[derive(Drop)]
pub enum Package {
    /// `"package" Upper ";" { item } "endpackage" [ ":" Upper ]`
    Named(Span, Ident, Items<Item>),
    /// `{ item }`
    Bare(Span, Items<Item>),
}

impl Package {
    /// What the package defines and imports.
    pub fn items(&self) -> &Items<Item>
        ensures { result.now ≡ items_of self.now }
    {
        match self {
            Package::Named(_, _, items) | Package::Bare(_, items) => items,
        }
    }
}

impl Typedef {
    /// Where the definition stands.
    pub fn span(&self) -> Span
        ensures { result ≡ typedef_span self.now }
    {
        match self {
            Typedef::Alias(span, _, _)
            | Typedef::Enum(span, _, _, _)
            | Typedef::Struct(span, _, _, _) => *span,
        }
    }
}

impl Item {
    /// Where the item stands.
    pub fn span(&self) -> Span
        ensures { result ≡ item_span self.now }
    {
        match self {
            Item::Import(span, _)
            | Item::Typedef(span, _)
            | Item::Interface(span, _)
            | Item::Function(span, _)
            | Item::Module(span, _) => *span,
        }
    }
}

impl Package {
    /// Where the package stands.
    pub fn span(&self) -> Span
        ensures { result ≡ package_span self.now }
    {
        match self {
            Package::Named(span, _, _) | Package::Bare(span, _) => *span,
        }
    }
}
