use bsv_ast::Span;

/// Where a fault stands.
#[derive(Clone, Copy, Debug, PartialEq, Eq)]
pub struct Place {
    /// The number of the package, in load order.
    pub package: u32,
    pub span: Span,
}
