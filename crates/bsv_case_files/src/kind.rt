/// The kinds of refusals that a want can name, in the order in which they are looked for.
#[derive(Clone, Copy, Debug, PartialEq, Eq)]
pub enum Kind {
    Limit,
    BadByte,
    OpenComment,
    BadLiteral,
    TooLong,
    Syntax,
    TooDeep,
    TwiceDefined,
    BadAttribute,
    UnknownName,
    TypeFault,
    WidthFault,
    NoSuchModule,
    StaticFault,
    Loop,
    Recursion,
    NameTaken,
    NoSuchRule,
    InRule,
    WireCycle,
    ValueClash,
    ExecutionCycle,
    UrgencyCycle,
    MethodBehindRule,
    NoImplicit,
    FireWhenEnabled,
}

const KINDS: [Kind; 26] = [
    Kind::Limit,
    Kind::BadByte,
    Kind::OpenComment,
    Kind::BadLiteral,
    Kind::TooLong,
    Kind::Syntax,
    Kind::TooDeep,
    Kind::TwiceDefined,
    Kind::BadAttribute,
    Kind::UnknownName,
    Kind::TypeFault,
    Kind::WidthFault,
    Kind::NoSuchModule,
    Kind::StaticFault,
    Kind::Loop,
    Kind::Recursion,
    Kind::NameTaken,
    Kind::NoSuchRule,
    Kind::InRule,
    Kind::WireCycle,
    Kind::ValueClash,
    Kind::ExecutionCycle,
    Kind::UrgencyCycle,
    Kind::MethodBehindRule,
    Kind::NoImplicit,
    Kind::FireWhenEnabled,
];

impl Kind {
    /// The name of the kind, as the program tells it.
    pub fn name(self) -> &'static str {
        match self {
            Kind::Limit => "Limit",
            Kind::BadByte => "BadByte",
            Kind::OpenComment => "OpenComment",
            Kind::BadLiteral => "BadLiteral",
            Kind::TooLong => "TooLong",
            Kind::Syntax => "Syntax",
            Kind::TooDeep => "TooDeep",
            Kind::TwiceDefined => "TwiceDefined",
            Kind::BadAttribute => "BadAttribute",
            Kind::UnknownName => "UnknownName",
            Kind::TypeFault => "TypeFault",
            Kind::WidthFault => "WidthFault",
            Kind::NoSuchModule => "NoSuchModule",
            Kind::StaticFault => "StaticFault",
            Kind::Loop => "Loop",
            Kind::Recursion => "Recursion",
            Kind::NameTaken => "NameTaken",
            Kind::NoSuchRule => "NoSuchRule",
            Kind::InRule => "InRule",
            Kind::WireCycle => "WireCycle",
            Kind::ValueClash => "ValueClash",
            Kind::ExecutionCycle => "ExecutionCycle",
            Kind::UrgencyCycle => "UrgencyCycle",
            Kind::MethodBehindRule => "MethodBehindRule",
            Kind::NoImplicit => "NoImplicit",
            Kind::FireWhenEnabled => "FireWhenEnabled",
        }
    }

    /// The number of the kind.
    pub(crate) fn number(self) -> u8 {
        match self {
            Kind::Limit => 17,
            Kind::BadByte => 1,
            Kind::OpenComment => 2,
            Kind::BadLiteral => 3,
            Kind::TooLong => 4,
            Kind::Syntax => 5,
            Kind::TooDeep => 6,
            Kind::TwiceDefined => 8,
            Kind::BadAttribute => 11,
            Kind::UnknownName => 7,
            Kind::TypeFault => 9,
            Kind::WidthFault => 10,
            Kind::NoSuchModule => 12,
            Kind::StaticFault => 13,
            Kind::Loop => 14,
            Kind::Recursion => 15,
            Kind::NameTaken => 16,
            Kind::NoSuchRule => 26,
            Kind::InRule => 18,
            Kind::WireCycle => 21,
            Kind::ValueClash => 22,
            Kind::ExecutionCycle => 23,
            Kind::UrgencyCycle => 24,
            Kind::MethodBehindRule => 25,
            Kind::NoImplicit => 20,
            Kind::FireWhenEnabled => 19,
        }
    }

    /// The kind of this name.
    pub fn named(name: &str) -> Option<Kind> {
        KINDS.iter().copied().find(|kind| kind.name() == name)
    }

    /// Whether this kind is looked for after the other one.
    pub fn is_later(self, other: Kind) -> bool {
        self as u8 > other as u8
    }
}
