ghost use Rattle.std.specs.Prelude.{◌≡◌, ◌≤◌, ◌++◌, OnOk, OnErr};
ghost use Rattle.bsv_io.specs.Faults.{MayFault};
ghost use Rattle.bsv_io.specs.Writing.{appended, AppendsPrefix};
ghost use Rattle.bsv_flow.specs.Refusals.{four_text, limit_text, name_text, place_text, refusal_line, three_text, two_text};
ghost use Rattle.bsv_flow.specs.declared.refusal.CompileFault.TheVariants as fault;

use bsv_bits::{Name, OutOfMemory};
use bsv_io::{Failed, Sink, put_all};
use itoa::Buffer;
use std::alloc::{AllocError, AllocFailed};

/// Why a design is refused. Where a place is told, the fields are its file, its line and its column,
/// counted from 1 in bytes.
#[derive(Debug, Drop)]
pub enum Refusal {
    /// A byte begins no token.
    BadByte(Name, u64, u64),
    /// A comment is not closed.
    OpenComment(Name, u64, u64),
    /// A number or a text is malformed.
    BadLiteral(Name, u64, u64),
    /// A name or a number has more than 255 bytes.
    TooLong(Name, u64, u64),
    /// The tokens are no package.
    Syntax(Name, u64, u64),
    /// More than 64 brackets are open at once.
    TooDeep(Name, u64, u64),
    /// A name has no definition in scope.
    UnknownName(Name, u64, u64),
    /// A name is defined twice in one scope.
    TwiceDefined(Name, u64, u64),
    /// There is no typing, widths and fits left aside.
    TypeFault(Name, u64, u64),
    /// There is a typing, but a width is outside 1 to 128, or a literal or a range does not fit.
    WidthFault(Name, u64, u64),
    /// An attribute is malformed.
    BadAttribute(Name, u64, u64),
    /// No module has the name of the top and no parameters.
    NoSuchModule(Name),
    /// In this module something is not static that has to be, or a static value leaves its range.
    StaticFault(Name),
    /// In this module a loop begins a turn after its 4,096th.
    Loop(Name),
    /// This module is made inside itself.
    Recursion(Name),
    /// An instance, a rule or a method gets a path that is there already.
    NameTaken(Name),
    /// A count passes its limit: what is counted, and the limit.
    Limit(Name, u64),
    /// Two calls of an element break the rule of one element: the element, the part, and the methods.
    InRule(Name, Name, Name, Name),
    /// An element stops a rule that is marked to fire: the rule, and the element.
    FireWhenEnabled(Name, Name),
    /// A call of a rule that is marked to have no implicit conditions has one: the rule, and the call.
    NoImplicit(Name, Name),
    /// This element is on a cycle of what elements see of one another.
    WireCycle(Name),
    /// This value method has no place in the execution order.
    ValueClash(Name),
    /// A pair closes a cycle of the execution order: its attribute, and both elements.
    ExecutionCycle(Name, Name, Name),
    /// A pair closes a cycle of the urgency order: its attribute, and both elements.
    UrgencyCycle(Name, Name, Name),
    /// This method is after a rule in the urgency order: the method, and the first rule.
    MethodBehindRule(Name, Name),
    /// An attribute names no rule of its module: the attribute, and the name.
    NoSuchRule(Name, Name),
}

/// Why a design was not compiled.
#[derive(Debug, Drop)]
pub enum CompileFault {
    /// It is refused.
    Refused(Refusal),
    /// The file of this name could not be read.
    ReadFault(Name),
    /// There was no memory.
    OutOfMemory,
}

impl From<OutOfMemory> for CompileFault {
    ghost from_gives = { λ _ e. e ≡ fault.OutOfMemory };

    fn from(_error: OutOfMemory) -> CompileFault {
        CompileFault::OutOfMemory
    }
}

impl From<AllocError> for CompileFault {
    ghost from_gives = { λ _ e. e ≡ fault.OutOfMemory };

    fn from(_error: AllocError) -> CompileFault {
        CompileFault::OutOfMemory
    }
}

impl<T: Drop> From<AllocFailed<T>> for CompileFault {
    ghost from_gives = { λ _ e. e ≡ fault.OutOfMemory };

    fn from(_error: AllocFailed<T>) -> CompileFault {
        CompileFault::OutOfMemory
    }
}

impl Refusal {
    /// Puts the line of the refusal: `refused`, its number, its kind and its details.
    #[tactic(auto, unfolding(crate::specs::Refusals::refusal_line))]
    pub fn put<S: Sink>(&self, sink: &mut S) -> Result<(), Failed>
        ensures ok { OnOk result (S.writing sink.new
            ≡ appended (refusal_line self.now) (S.writing sink.old)) }
        ensures prefix { AppendsPrefix (refusal_line self.now) (S.writing sink.old)
            (S.writing sink.new) }
        ensures count { (S.writing sink.old).faults ≤ (S.writing sink.new).faults }
        ensures counted { OnErr result (MayFault (S.writing sink.old).faults
            (S.writing sink.new).faults) }
    {
        match self {
            Refusal::BadByte(file, line, column) => {
                put_placed(sink, b"refused 1 BadByte ", file, *line, *column)
            }
            Refusal::OpenComment(file, line, column) => {
                put_placed(sink, b"refused 2 OpenComment ", file, *line, *column)
            }
            Refusal::BadLiteral(file, line, column) => {
                put_placed(sink, b"refused 3 BadLiteral ", file, *line, *column)
            }
            Refusal::TooLong(file, line, column) => {
                put_placed(sink, b"refused 4 TooLong ", file, *line, *column)
            }
            Refusal::Syntax(file, line, column) => {
                put_placed(sink, b"refused 5 Syntax ", file, *line, *column)
            }
            Refusal::TooDeep(file, line, column) => {
                put_placed(sink, b"refused 6 TooDeep ", file, *line, *column)
            }
            Refusal::UnknownName(file, line, column) => {
                put_placed(sink, b"refused 7 UnknownName ", file, *line, *column)
            }
            Refusal::TwiceDefined(file, line, column) => {
                put_placed(sink, b"refused 8 TwiceDefined ", file, *line, *column)
            }
            Refusal::TypeFault(file, line, column) => {
                put_placed(sink, b"refused 9 TypeFault ", file, *line, *column)
            }
            Refusal::WidthFault(file, line, column) => {
                put_placed(sink, b"refused 10 WidthFault ", file, *line, *column)
            }
            Refusal::BadAttribute(file, line, column) => {
                put_placed(sink, b"refused 11 BadAttribute ", file, *line, *column)
            }
            Refusal::NoSuchModule(name) => put_named(sink, b"refused 12 NoSuchModule ", name),
            Refusal::StaticFault(name) => put_named(sink, b"refused 13 StaticFault ", name),
            Refusal::Loop(name) => put_named(sink, b"refused 14 Loop ", name),
            Refusal::Recursion(name) => put_named(sink, b"refused 15 Recursion ", name),
            Refusal::NameTaken(path) => put_named(sink, b"refused 16 NameTaken ", path),
            Refusal::Limit(kind, number) => put_limit(sink, kind, *number),
            Refusal::InRule(element, part, first, second) => {
                put_four(sink, b"refused 18 InRule ", element, part, first, second)
            }
            Refusal::FireWhenEnabled(rule, element) => {
                put_two(sink, b"refused 19 FireWhenEnabled ", rule, element)
            }
            Refusal::NoImplicit(rule, call) => put_two(sink, b"refused 20 NoImplicit ", rule, call),
            Refusal::WireCycle(element) => put_named(sink, b"refused 21 WireCycle ", element),
            Refusal::ValueClash(method) => put_named(sink, b"refused 22 ValueClash ", method),
            Refusal::ExecutionCycle(attribute, before, after) => {
                put_three(
                    sink,
                    b"refused 23 ExecutionCycle ",
                    attribute,
                    before,
                    after,
                )
            }
            Refusal::UrgencyCycle(attribute, before, after) => {
                put_three(sink, b"refused 24 UrgencyCycle ", attribute, before, after)
            }
            Refusal::MethodBehindRule(method, rule) => {
                put_two(sink, b"refused 25 MethodBehindRule ", method, rule)
            }
            Refusal::NoSuchRule(attribute, name) => {
                put_two(sink, b"refused 26 NoSuchRule ", attribute, name)
            }
        }
    }
}

/// Puts a line that ends with a place.
fn put_placed<S: Sink>(
    sink: &mut S,
    front: &[u8],
    file: &Name,
    line: u64,
    column: u64,
) -> Result<(), Failed>
    ensures ok { OnOk result (S.writing sink.new
        ≡ appended (front.now ++ place_text file.now line column) (S.writing sink.old)) }
    ensures prefix { AppendsPrefix (front.now ++ place_text file.now line column)
        (S.writing sink.old) (S.writing sink.new) }
    ensures count { (S.writing sink.old).faults ≤ (S.writing sink.new).faults }
    ensures counted { OnErr result (MayFault (S.writing sink.old).faults
        (S.writing sink.new).faults) }
{
    let mut lines = Buffer::new();
    let mut columns = Buffer::new();
    put_all(
        sink,
        &[
            front,
            file.bytes(),
            b":",
            lines.format(line).as_bytes(),
            b":",
            columns.format(column).as_bytes(),
            b"\n",
        ],
    )
}

/// Puts a line that ends with a name.
fn put_named<S: Sink>(sink: &mut S, front: &[u8], name: &Name) -> Result<(), Failed>
    ensures ok { OnOk result (S.writing sink.new
        ≡ appended (front.now ++ name_text name.now) (S.writing sink.old)) }
    ensures prefix { AppendsPrefix (front.now ++ name_text name.now) (S.writing sink.old)
        (S.writing sink.new) }
    ensures count { (S.writing sink.old).faults ≤ (S.writing sink.new).faults }
    ensures counted { OnErr result (MayFault (S.writing sink.old).faults
        (S.writing sink.new).faults) }
{
    put_all(sink, &[front, name.bytes(), b"\n"])
}

/// Puts the line of a limit that is passed.
fn put_limit<S: Sink>(sink: &mut S, kind: &Name, number: u64) -> Result<(), Failed>
    ensures ok { OnOk result (S.writing sink.new
        ≡ appended (limit_text kind.now number) (S.writing sink.old)) }
    ensures prefix { AppendsPrefix (limit_text kind.now number) (S.writing sink.old)
        (S.writing sink.new) }
    ensures count { (S.writing sink.old).faults ≤ (S.writing sink.new).faults }
    ensures counted { OnErr result (MayFault (S.writing sink.old).faults
        (S.writing sink.new).faults) }
{
    let mut digits = Buffer::new();
    let digits = digits.format(number).as_bytes();
    put_all(
        sink,
        &[b"refused 17 Limit ", kind.bytes(), b" ", digits, b"\n"],
    )
}

/// Puts a line that ends with two names.
fn put_two<S: Sink>(sink: &mut S, front: &[u8], first: &Name, second: &Name) -> Result<(), Failed>
    ensures ok { OnOk result (S.writing sink.new ≡ appended
        (front.now ++ two_text first.now second.now) (S.writing sink.old)) }
    ensures prefix { AppendsPrefix (front.now ++ two_text first.now second.now)
        (S.writing sink.old) (S.writing sink.new) }
    ensures count { (S.writing sink.old).faults ≤ (S.writing sink.new).faults }
    ensures counted { OnErr result (MayFault (S.writing sink.old).faults
        (S.writing sink.new).faults) }
{
    put_all(sink, &[front, first.bytes(), b" ", second.bytes(), b"\n"])
}

/// Puts a line that ends with three names.
fn put_three<S: Sink>(
    sink: &mut S,
    front: &[u8],
    first: &Name,
    second: &Name,
    third: &Name,
) -> Result<(), Failed>
    ensures ok { OnOk result (S.writing sink.new ≡ appended
        (front.now ++ three_text first.now second.now third.now) (S.writing sink.old)) }
    ensures prefix { AppendsPrefix (front.now ++ three_text first.now second.now third.now)
        (S.writing sink.old) (S.writing sink.new) }
    ensures count { (S.writing sink.old).faults ≤ (S.writing sink.new).faults }
    ensures counted { OnErr result (MayFault (S.writing sink.old).faults
        (S.writing sink.new).faults) }
{
    put_all(
        sink,
        &[
            front,
            first.bytes(),
            b" ",
            second.bytes(),
            b" ",
            third.bytes(),
            b"\n",
        ],
    )
}

/// Puts a line that ends with four names.
fn put_four<S: Sink>(
    sink: &mut S,
    front: &[u8],
    first: &Name,
    second: &Name,
    third: &Name,
    fourth: &Name,
) -> Result<(), Failed>
    ensures ok { OnOk result (S.writing sink.new ≡ appended
        (front.now ++ four_text first.now second.now third.now fourth.now) (S.writing sink.old)) }
    ensures prefix { AppendsPrefix
        (front.now ++ four_text first.now second.now third.now fourth.now)
        (S.writing sink.old) (S.writing sink.new) }
    ensures count { (S.writing sink.old).faults ≤ (S.writing sink.new).faults }
    ensures counted { OnErr result (MayFault (S.writing sink.old).faults
        (S.writing sink.new).faults) }
{
    put_all(
        sink,
        &[
            front,
            first.bytes(),
            b" ",
            second.bytes(),
            b" ",
            third.bytes(),
            b" ",
            fourth.bytes(),
            b"\n",
        ],
    )
}
