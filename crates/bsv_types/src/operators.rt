/// An operator: a label for each form of an expression that has operands and calls nothing.
#[derive(Clone, Copy, Debug, PartialEq, Eq)]
pub enum Op {
    /// `-e`
    Negate,
    /// `~e`
    Complement,
    /// `!e`
    Not,
    Mul,
    Add,
    Sub,
    Shl,
    Shr,
    Less,
    LessOrSame,
    Greater,
    GreaterOrSame,
    Same,
    Different,
    And,
    Xor,
    Or,
    /// `&&`
    Both,
    /// `||`
    Either,
    /// `e[i]`
    Index,
    /// `e[h:l]`, with h and l
    Slice(u32, u32),
    /// `{a, b, ..}`
    Concat,
    Truncate,
    ZeroExtend,
    SignExtend,
    Pack,
    Unpack,
    FromInteger,
    /// In `S { f: e, .. }` an operand, the value of the field of this number.
    Set(u32),
    /// `e.f`, with the number of the field
    Field(u32),
    /// `tagged Valid e`
    Valid,
    /// `tagged Invalid`
    Invalid,
    IsValid,
    FromMaybe,
    ValidValue,
}
