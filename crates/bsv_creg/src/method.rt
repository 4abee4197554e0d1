ghost use Rattle.std.specs.Prelude.{◌≡◌, ◌<◌};
ghost use Rattle.bsv_creg.specs.Ports.{port_method, port_arity, writes, port_of, port_rank, port_relation, port_sees};

use bsv_prim::Rel;

/// The methods of a register with ports, each with its port.
#[derive(Clone, Copy, Debug, PartialEq, Eq)]
pub(crate) enum Method {
    /// Gives the number.
    Read(u32),
    /// Sets the number.
    Write(u32),
}

impl Method {
    /// The method of a number.
    pub(crate) fn of(number: u32) -> Method
        ensures { result ≡ port_method number }
    {
        if number % 2 == 0 {
            Method::Read(number / 2)
        } else {
            Method::Write(number / 2)
        }
    }

    /// How many arguments the method takes.
    pub(crate) fn arity(self) -> u32
        ensures { result ≡ port_arity self }
    {
        match self {
            Method::Read(_) => 0,
            Method::Write(_) => 1,
        }
    }

    /// Whether the method is an action.
    pub(crate) fn writes(self) -> bool
        ensures { result ≡ writes self }
    {
        matches!(self, Method::Write(_))
    }

    /// Where the method stands among those of one element.
    pub(crate) fn rank(self) -> u32
        requires { port_of self < 5 }
        ensures { result ≡ port_rank self }
    {
        match self {
            Method::Read(_) => 0,
            Method::Write(port) => port + 1,
        }
    }

    /// The port of the method.
    pub(crate) fn port(self) -> u32
        ensures { result ≡ port_of self }
    {
        match self {
            Method::Read(port) | Method::Write(port) => port,
        }
    }

    /// How the method stands to another.
    pub(crate) fn relation(self, other: Method) -> Rel
        ensures { result ≡ port_relation self other }
    {
        match (self, other) {
            (Method::Read(_), Method::Read(_)) => Rel::Cf,
            (Method::Read(reader), Method::Write(writer)) => {
                if writer < reader { Rel::Sa } else { Rel::Sb }
            }
            (Method::Write(writer), Method::Read(reader)) => {
                if writer < reader { Rel::Sb } else { Rel::Sa }
            }
            (Method::Write(first), Method::Write(second)) => {
                if first == second {
                    Rel::C
                } else if first < second {
                    Rel::Sb
                } else {
                    Rel::Sa
                }
            }
        }
    }

    /// Whether calls of the method are seen by another.
    pub(crate) fn is_seen_by(self, other: Method) -> bool
        ensures { result ≡ port_sees self other }
    {
        match (self, other) {
            (Method::Write(writer), Method::Read(reader)) => writer < reader,
            _ => false,
        }
    }
}
