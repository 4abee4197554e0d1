ghost use Rattle.std.specs.Prelude.{◌≡◌};
ghost use Rattle.bsv_types.specs.GivenFunctions.{functions, function_name, given_function, has_open_type};

/// The functions that the language gives.
#[derive(Clone, Copy, Debug, PartialEq, Eq)]
pub enum GivenFunction {
    Truncate,
    ZeroExtend,
    SignExtend,
    Pack,
    Unpack,
    FromInteger,
    IsValid,
    FromMaybe,
    ValidValue,
}

/// Each function that the language gives, once.
const FUNCTIONS: [GivenFunction; 9] = [
    GivenFunction::Truncate,
    GivenFunction::ZeroExtend,
    GivenFunction::SignExtend,
    GivenFunction::Pack,
    GivenFunction::Unpack,
    GivenFunction::FromInteger,
    GivenFunction::IsValid,
    GivenFunction::FromMaybe,
    GivenFunction::ValidValue,
];

/// Each function that the language gives, once.
#[tactic(auto, using(crate::proofs::GivenTables::function_tables))]
pub fn given_functions() -> &'static [GivenFunction]
    ensures { result.now ≡ functions }
{
    &FUNCTIONS
}

impl GivenFunction {
    /// What a program calls it.
    pub fn name(self) -> &'static [u8]
        ensures { result.now ≡ function_name self }
    {
        match self {
            GivenFunction::Truncate => b"truncate".as_slice(),
            GivenFunction::ZeroExtend => b"zeroExtend".as_slice(),
            GivenFunction::SignExtend => b"signExtend".as_slice(),
            GivenFunction::Pack => b"pack".as_slice(),
            GivenFunction::Unpack => b"unpack".as_slice(),
            GivenFunction::FromInteger => b"fromInteger".as_slice(),
            GivenFunction::IsValid => b"isValid".as_slice(),
            GivenFunction::FromMaybe => b"fromMaybe".as_slice(),
            GivenFunction::ValidValue => b"validValue".as_slice(),
        }
    }

    /// The function of this name.
    #[tactic(auto, unfolding(crate::specs::GivenFunctions::given_function))]
    pub fn named(name: &[u8]) -> Option<GivenFunction>
        ensures { result ≡ given_function name.now }
    {
        given_functions()
            .iter()
            .copied()
            .find(|function| name == function.name())
    }

    /// Whether a call of it has no type of its own.
    pub fn has_open_type(self) -> bool
        ensures { result ≡ has_open_type self }
    {
        matches!(
            self,
            GivenFunction::Truncate
                | GivenFunction::ZeroExtend
                | GivenFunction::SignExtend
                | GivenFunction::Unpack
                | GivenFunction::FromInteger
        )
    }
}
