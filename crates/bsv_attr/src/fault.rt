use thiserror::Error;

/// Why an asserting attribute is refused.
#[derive(Clone, Copy, Debug, PartialEq, Eq, Error)]
pub enum AttrFault {
    /// This rule has an implicit condition at this place, where its conditions are counted before its calls.
    #[error("a rule has an implicit condition")]
    NoImplicit(u32, u32),
    /// This rule is stopped by this element.
    #[error("a rule is stopped")]
    FireWhenEnabled(u32, u32),
}
