//! The usual causes of refusals. A line of a table has a sign for where is looked (`<` in front of the token and at it, `>`
//! from it on, `*` in the whole statement, `?` the same where nothing else was told), the words that stand there, and the
//! cause; of each sign the first line that fits is told, and a line with `-` where none is.
//! Of words `_` is any token, NAME, TYPE, NUMBER, TEXT, RESERVED and NOTHING are its class, and END is a word that begins
//! with `end`.

/// What is told of a fault of the text, by the byte.
pub(crate) const BYTES: &[u8] =
    b"/|there is no division: shift to the right for a power of two, as in `x >> 1`
%|there is no remainder: take the low bits for a power of two, as in `x[2:0]`
`|there are no macros: write the text out, or a function
$|there are no system tasks as $display: the report tells what happens in each clock
@|there is no `@`: a rule is asked in each clock
'|a number has its base after the `'`, as in `8'hff`
";

pub(crate) const BYTE: &[u8] =
    b"- no token begins with it; a byte that is no ASCII is often a quotation mark, a dash or a blank that was copied
";

pub(crate) const COMMENT: &[u8] =
    b"- the comment that begins here is not closed by `*/`; comments do not nest, and `/*/` does not close itself
";

pub(crate) const LITERAL: &[u8] =
    b"- a number is below 2^128, its size is 1 to 128 and its value fits the size, without x and z; a text is closed in its line
";

pub(crate) const LONG: &[u8] = b"- a name and a number have at most 255 bytes
";

pub(crate) const DEEP: &[u8] =
    b"- it is the 65th bracket that is open at once (`begin` and `case` count): a variable or a function for the inner part, or a bracket that is not closed
";

/// A syntax fault.
pub(crate) const SYNTAX: &[u8] =
    b"< _ _ NOTHING|the source ends too early: an `end..` word is missing, or a closing bracket
< _ _ while|there is no `while`: a rule fires again in the next clock, and a `for` is unrolled
< _ _ RESERVED|it is a keyword (those of Verilog are too), and no name
< _ ; ;|a `;` that stands alone: leave it out
< _ begin ;|a `;` that stands alone: leave it out
< _ END ;|a `;` that stands alone: leave it out
< _ NAME ;|a variable needs a first value, as in `Bit#(8) v = 0;`
< _ ) ;|a branch without a statement: write `noAction;`
< _ _ else|an `else` after two statements or a `;` too many: put the branch between `begin` and `end`
< _ ) if|it stands directly in an `if` or a `for`: put it between `begin` and `end`
< _ ) for|it stands directly in an `if` or a `for`: put it between `begin` and `end`
< _ ) case|it stands directly in an `if` or a `for`: put it between `begin` and `end`
< _ _ case|a `case` is a statement and no value: write `c ? a : b`, or assign a variable in its arms
< _ _ ,|a declaration has one name: write a second declaration
< _ ] =|a bit of a variable is not assigned: assign the whole word, as in `v = {v[7:1], 1'b1}`
< _ NAME =|brackets are missing in front of the `=`, as in `function Bool f() = True;`
< _ _ &|an operator of one operand: there are no reductions; compare with 0 or with ~0
< _ _ ^|an operator of one operand: there are no reductions; compare with 0 or with ~0
< _ _ ?|`?` alone is no value: write a number
< _ ( )|an interface is missing in the brackets: `(Empty)` where the module has none
< _ function NAME|a type is missing in front of the name
< _ NAME #|an instance is made by `Reg#(Bit#(8)) x <- mkReg(0);`
< _ NAME <-|a type is missing in front of the name, as in `Reg#(Bit#(8)) x <- mkReg(0);`
< _ _ function|a function stands at the top of a package, in front of the modules
< # ( NAME|a width is a number, and a type begins with a capital letter
< _ *) interface|attributes stand in front of modules and rules alone
< END : NAME|the name after an `end..` word is the one of what it ends
< END : TYPE|the name after an `end..` word is the one of what it ends
< _ _ END|something in front of it is not closed by its `end..` word, a `;` is missing, or it is one too many
< _ NUMBER NAME|a `;` or an operator is missing in front of it
< _ ) NAME|a `;` or an operator is missing in front of it
< _ NAME NAME|a `;` or an operator is missing in front of it
< _ NUMBER KEYWORD|a `;` or an operator is missing in front of it
< _ NUMBER TYPE|a `;` or an operator is missing in front of it
< _ ) TYPE|a `;` or an operator is missing in front of it
< _ NAME TYPE|a `;` or an operator is missing in front of it
- with this token nothing goes on: look for a form that the language lacks, or for a `;`, a bracket or an `end..` word that is missing in front of it
";

/// A name that is unknown.
pub(crate) const UNKNOWN: &[u8] =
    b"> min|this function of the library of Bluespec is not there: write it out
> max|this function of the library of Bluespec is not there: write it out
> abs|this function of the library of Bluespec is not there: write it out
> log2|this function of the library of Bluespec is not there: write it out
> countOnes|this function of the library of Bluespec is not there: write it out
> reverseBits|this function of the library of Bluespec is not there: write it out
> replicateM|this function of the library of Bluespec is not there: an array and a loop make as many instances
> Vector|there are no vectors: an array of instances is `Reg#(Bit#(8)) cells[4];`
> TYPE|no type, interface or label of this name is loaded: import the package that defines it, as `import Types::*;`, and mind its case
- no variable, instance, function or module of this name is in scope: define it in front, import the package that defines it, and mind its case
";

/// A name that is defined twice.
pub(crate) const TWICE: &[u8] =
    b"- types, labels of enums, functions and modules of all packages share one scope, and names that the language gives are taken: another name for one of the two
";

/// What has no type.
pub(crate) const TYPES: &[u8] = b"> typedef enum|an enum has two labels or more
> typedef struct|a field names a type that comes after it, one of a file that is loaded after it, or one without bits
> typedef|it names a type that comes after it, or of a file that is loaded after it: FILE is loaded before what it imports
> interface|a method names a type that comes after it, or of a file that is loaded after it
> function|it calls a function that comes after it or itself, a path has no `return` or goes on after one, a parameter is an interface, or its value has another type
> module|the type in its brackets is no interface, or a method of the interface is missing
> (*|of a module, the type in its brackets is no interface or a method of it is missing; of a rule, its condition is no Bool
> method|the interface has no such method, or gives it another type or other arguments; its condition is no Bool; or a path has no `return`
> rule|its condition is no Bool: compare a Bit#(1) with 1, and join truths by `&&`
> if|its condition is no Bool: compare a Bit#(1) with 1, and join truths by `&&`
> for|a loop counts an Integer to an Integer, and not to the value of a register
> case|its subject has no type of its own (as a truncate has none), or a label has another type
> let|what is bound has no type of its own: declare it with its type, as in `Bit#(8) v = ..`
* let NAME <-|`<-` takes what an ActionValue method gives; of a value method write `=`
* { NUMBER ,|a number in `{ }` needs a size, as `1'b0`
* , NUMBER ,|a number in `{ }` needs a size, as `1'b0`
* , NUMBER }|a number in `{ }` needs a size, as `1'b0`
* ) NAME [|an array has instances, as `Reg#(Bit#(8)) a[4];`, and no values
* NAME [ NAME|an index is an Integer: for a bit that is computed write `(x >> k)[0]`, for a place of an array a loop that compares
* ! NAME|`!` is of a Bool: compare a Bit#(1) with 0
* NAME & NAME|`&` is of words: join truths by `&&`
* NUMBER & NAME|`&` is of words: join truths by `&&`
* mkFIFO (|mkFIFO takes no argument: a depth is given to mkSizedFIFO
* <- mkFIFO ;|mkFIFO makes a FIFO, without notFull and notEmpty: mkFIFOF makes a FIFOF
* . notFull|a FIFO has no notFull and notEmpty: a FIFOF has
* . notEmpty|a FIFO has no notFull and notEmpty: a FIFOF has
* enq ( )|enq takes the item
* mkReg ( NUMBER|the start has the type of the register: False of a Bool, a label of an enum, `unpack(0)` of a struct
* TYPE { NAME|a struct is given each of its fields
* NUMBER <<|a shift on the left of a comparison has no type: put it on the right
* . NAME ;|a value method is no statement, and an ActionValue method is called by `let v <- p.m;` alone
* NAME [ NUMBER|a bit of an Int or a UInt is taken by `pack(u)[3]`, and one bit of a register is not written alone
? TYPE NAME <-|the type lacks its argument, as `Reg#(Bool)`, or the maker makes another interface or takes other arguments
? <-|the maker makes another interface, or takes other arguments
? <=|both sides of `<=` have one type: zeroExtend or truncate another width, pack and unpack between Bit, UInt, Int, Bool and labels
? =|both sides of `=` have one type, as of `<=`; and a variable of the module is not assigned in its rules
- a call has another number of arguments, a value method is a statement, or an action is in an expression
";

/// A width or a number that does not fit.
pub(crate) const WIDTHS: &[u8] = b"* # ( 0|a width is 1 or more
* [ NUMBER :|a slice goes from the higher bit to the lower one, and not beyond the value
* {|what stands side by side in `{ }` has at most 128 bits together
* NUMBER|the number does not fit: a Bit#(4) holds 0 to 15, an Int#(4) -8 to 7
- a type has more than 128 bits: split it into several registers
";

/// An attribute.
pub(crate) const ATTRIBUTES: &[u8] =
    b"> descending_urgency|its text has two names of rules or more, with commas between them, and no paths, as in \"a, b\"
> execution_order|its text has two names of rules or more, with commas between them, and no paths, as in \"a, b\"
> preempts|its text has two sides, each a name or names in brackets, as in \"a, (b, c)\"
> synthesize|it stands in front of a module, and has no text
> fire_when_enabled|it stands in front of a rule, and has no text
> no_implicit_conditions|it stands in front of a rule, and has no text
> mutually_exclusive|it is none of the language: guards that exclude each other need none; for the order of rules take descending_urgency
> conflict_free|it is none of the language: for the order of rules take execution_order or descending_urgency
- it is none of the language: there are synthesize, descending_urgency, execution_order, preempts, fire_when_enabled and no_implicit_conditions
";

/// What has to be static.
pub const STATICS: &[u8] =
    b"for (|the condition of a loop is worked out of numbers, parameters and variables that no `if` on a register assigned
NAME [ NAME|an index is worked out of numbers, parameters and variables, and is below the length
NAME [ NUMBER|a length is at most 4,096, an index is below it, and a place is made in front of its use
case (|the labels of a `case` are numbers, and read nothing
fromInteger (|the number of a fromInteger fits its type
; Integer NAME|an Integer is within 64 bits, and not read after an `if` on a register assigned it
<<|a shift is by 0 or more
>>|a shift is by 0 or more
mkSizedFIFO (|a depth is 1 or more
mkSizedFIFOF (|a depth is 1 or more
";

/// What may have too many turns.
pub const LOOPS: &[u8] =
    b"for (|a loop has at most 4,096 turns: its condition stays True, or it has to count less; mind its condition and its step
";

/// What passes a limit, by what is counted: what to do, and which places are looked at.
pub(crate) const LIMITS: &[u8] = b"source|_|a file has more bytes: several files
packages|_|more packages are imported: fewer and larger ones
elements|rule NAME|the rules of all instances and the methods of the top are more: one rule with a loop in it, in place of a loop of rules
instances|<- NAME|the registers, wires and queues of all instances are more: wider registers, fewer wires
depth|mkSizedFIFO (|a queue is to be deeper: two queues, and a rule from the one to the other
depth|mkSizedFIFOF (|
weight|for (|what is carried out weighs more: loops with fewer turns, a function that does less at each call, a register in place of what every rule works out
calls|function TYPE|calls of functions and methods stand deeper in each other: a loop in place of a chain of functions
modules|module NAME|modules stand deeper in each other: fewer levels
";
