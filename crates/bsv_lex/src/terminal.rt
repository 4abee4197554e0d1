ghost use Rattle.std.specs.Prelude.{◌≡◌, map};
ghost use Rattle.bsv_ast.specs.Names.{is_listed};
ghost use Rattle.bsv_lex.specs.Words as spec;

use crate::token::TokenKind;

/// What a token is to the grammar: a word of one of its productions.
#[derive(Clone, Copy, Debug, PartialEq, Eq)]
pub enum Terminal {
    /// A name that begins with a small letter or `_`.
    Lower,
    /// A name that begins with a capital letter.
    Upper,
    Number,
    Text,
    /// A keyword that is in no production.
    Reserved,
    /// `package`
    Package,
    /// `endpackage`
    EndPackage,
    /// `import`
    Import,
    /// `typedef`
    Typedef,
    /// `enum`
    Enum,
    /// `struct`
    Struct,
    /// `deriving`
    Deriving,
    /// `interface`
    Interface,
    /// `endinterface`
    EndInterface,
    /// `method`
    Method,
    /// `endmethod`
    EndMethod,
    /// `function`
    Function,
    /// `endfunction`
    EndFunction,
    /// `module`
    Module,
    /// `endmodule`
    EndModule,
    /// `rule`
    Rule,
    /// `endrule`
    EndRule,
    /// `let`
    Let,
    /// `return`
    Return,
    /// `if`
    If,
    /// `else`
    Else,
    /// `case`
    Case,
    /// `matches`
    Matches,
    /// `tagged`
    Tagged,
    /// `default`
    Default,
    /// `endcase`
    EndCase,
    /// `for`
    For,
    /// `begin`
    Begin,
    /// `end`
    End,
    /// `noAction`
    NoAction,
    /// `int`
    Int,
    /// `(`
    OpenParen,
    /// `)`
    CloseParen,
    /// `[`
    OpenBracket,
    /// `]`
    CloseBracket,
    /// `{`
    OpenBrace,
    /// `}`
    CloseBrace,
    /// `(*`
    OpenAttribute,
    /// `*)`
    CloseAttribute,
    /// `;`
    Semicolon,
    /// `:`
    Colon,
    /// `::`
    DoubleColon,
    /// `,`
    Comma,
    /// `.`
    Dot,
    /// `#`
    Hash,
    /// `?`
    Question,
    /// `=`
    Equal,
    /// `==`
    DoubleEqual,
    /// `!=`
    NotEqual,
    /// `<`
    Less,
    /// `<=`
    LessEqual,
    /// `<-`
    LeftArrow,
    /// `<<`
    ShiftLeft,
    /// `>`
    Greater,
    /// `>=`
    GreaterEqual,
    /// `>>`
    ShiftRight,
    /// `+`
    Plus,
    /// `-`
    Minus,
    /// `*`
    Star,
    /// `&`
    And,
    /// `&&`
    DoubleAnd,
    /// `^`
    Caret,
    /// `|`
    Or,
    /// `||`
    DoubleOr,
    /// `!`
    Not,
    /// `~`
    Tilde,
}

/// The keywords of the grammar.
const KEYWORDS: [(&[u8], Terminal); 31] = [
    (b"package", Terminal::Package),
    (b"endpackage", Terminal::EndPackage),
    (b"import", Terminal::Import),
    (b"typedef", Terminal::Typedef),
    (b"enum", Terminal::Enum),
    (b"struct", Terminal::Struct),
    (b"deriving", Terminal::Deriving),
    (b"interface", Terminal::Interface),
    (b"endinterface", Terminal::EndInterface),
    (b"method", Terminal::Method),
    (b"endmethod", Terminal::EndMethod),
    (b"function", Terminal::Function),
    (b"endfunction", Terminal::EndFunction),
    (b"module", Terminal::Module),
    (b"endmodule", Terminal::EndModule),
    (b"rule", Terminal::Rule),
    (b"endrule", Terminal::EndRule),
    (b"let", Terminal::Let),
    (b"return", Terminal::Return),
    (b"if", Terminal::If),
    (b"else", Terminal::Else),
    (b"case", Terminal::Case),
    (b"matches", Terminal::Matches),
    (b"tagged", Terminal::Tagged),
    (b"default", Terminal::Default),
    (b"endcase", Terminal::EndCase),
    (b"for", Terminal::For),
    (b"begin", Terminal::Begin),
    (b"end", Terminal::End),
    (b"noAction", Terminal::NoAction),
    (b"int", Terminal::Int),
];

/// The keywords that are in no production: of Bluespec, and the remaining ones of IEEE 1364-2005.
const RESERVED: [&[u8]; 130] = [
    b"action",
    b"endaction",
    b"actionvalue",
    b"endactionvalue",
    b"rules",
    b"endrules",
    b"seq",
    b"endseq",
    b"par",
    b"endpar",
    b"typeclass",
    b"endtypeclass",
    b"endinstance",
    b"provisos",
    b"union",
    b"export",
    b"while",
    b"when",
    b"type",
    b"always",
    b"and",
    b"assign",
    b"automatic",
    b"buf",
    b"bufif0",
    b"bufif1",
    b"casex",
    b"casez",
    b"cell",
    b"cmos",
    b"config",
    b"deassign",
    b"defparam",
    b"design",
    b"disable",
    b"edge",
    b"endconfig",
    b"endgenerate",
    b"endprimitive",
    b"endspecify",
    b"endtable",
    b"endtask",
    b"event",
    b"force",
    b"forever",
    b"fork",
    b"generate",
    b"genvar",
    b"highz0",
    b"highz1",
    b"ifnone",
    b"incdir",
    b"include",
    b"initial",
    b"inout",
    b"input",
    b"instance",
    b"integer",
    b"join",
    b"large",
    b"liblist",
    b"library",
    b"localparam",
    b"macromodule",
    b"medium",
    b"nand",
    b"negedge",
    b"nmos",
    b"nor",
    b"noshowcancelled",
    b"not",
    b"notif0",
    b"notif1",
    b"or",
    b"output",
    b"parameter",
    b"pmos",
    b"posedge",
    b"primitive",
    b"pull0",
    b"pull1",
    b"pulldown",
    b"pullup",
    b"pulsestyle_ondetect",
    b"pulsestyle_onevent",
    b"rcmos",
    b"real",
    b"realtime",
    b"reg",
    b"release",
    b"repeat",
    b"rnmos",
    b"rpmos",
    b"rtran",
    b"rtranif0",
    b"rtranif1",
    b"scalared",
    b"showcancelled",
    b"signed",
    b"small",
    b"specify",
    b"specparam",
    b"strong0",
    b"strong1",
    b"supply0",
    b"supply1",
    b"table",
    b"task",
    b"time",
    b"tran",
    b"tranif0",
    b"tranif1",
    b"tri",
    b"tri0",
    b"tri1",
    b"triand",
    b"trior",
    b"trireg",
    b"unsigned",
    b"use",
    b"uwire",
    b"vectored",
    b"wait",
    b"wand",
    b"weak0",
    b"weak1",
    b"wire",
    b"wor",
    b"xnor",
    b"xor",
];

/// The symbols.
const SYMBOLS: [(&[u8], Terminal); 35] = [
    (b"(", Terminal::OpenParen),
    (b")", Terminal::CloseParen),
    (b"[", Terminal::OpenBracket),
    (b"]", Terminal::CloseBracket),
    (b"{", Terminal::OpenBrace),
    (b"}", Terminal::CloseBrace),
    (b"(*", Terminal::OpenAttribute),
    (b"*)", Terminal::CloseAttribute),
    (b";", Terminal::Semicolon),
    (b":", Terminal::Colon),
    (b"::", Terminal::DoubleColon),
    (b",", Terminal::Comma),
    (b".", Terminal::Dot),
    (b"#", Terminal::Hash),
    (b"?", Terminal::Question),
    (b"=", Terminal::Equal),
    (b"==", Terminal::DoubleEqual),
    (b"!=", Terminal::NotEqual),
    (b"<", Terminal::Less),
    (b"<=", Terminal::LessEqual),
    (b"<-", Terminal::LeftArrow),
    (b"<<", Terminal::ShiftLeft),
    (b">", Terminal::Greater),
    (b">=", Terminal::GreaterEqual),
    (b">>", Terminal::ShiftRight),
    (b"+", Terminal::Plus),
    (b"-", Terminal::Minus),
    (b"*", Terminal::Star),
    (b"&", Terminal::And),
    (b"&&", Terminal::DoubleAnd),
    (b"^", Terminal::Caret),
    (b"|", Terminal::Or),
    (b"||", Terminal::DoubleOr),
    (b"!", Terminal::Not),
    (b"~", Terminal::Tilde),
];

/// What the table has for the word.
fn lookup(mut table: &[(&[u8], Terminal)], word: &[u8]) -> Option<Terminal>
    ensures { result ≡ spec.lookup (map (λ entry. (entry.0.now, entry.1)) table.entry.now)
        word.now }
{
    while let [entry, rest @ ..] = table {
        if entry.0 == word {
            return Some(entry.1);
        }
        table = rest;
    }
    None
}

/// Whether the word is one of the list.
fn is_listed(mut list: &[&[u8]], word: &[u8]) -> bool
    ensures { result ≡ is_listed (map (λ entry. entry.now) list.entry.now) word.now }
{
    while let [entry, rest @ ..] = list {
        if *entry == word {
            return true;
        }
        list = rest;
    }
    false
}

/// The keyword that a word is.
#[tactic(auto, using(crate::proofs::Tables::keyword_tables), unfolding(crate::specs::Words::keyword))]
pub fn keyword(word: &[u8]) -> Option<Terminal>
    ensures { result ≡ spec.keyword word.now }
{
    match lookup(&KEYWORDS, word) {
        None => {
            if is_listed(&RESERVED, word) {
                Some(Terminal::Reserved)
            } else {
                None
            }
        }
        found => found,
    }
}

/// The symbol that a text is.
#[tactic(auto, using(crate::proofs::Tables::symbol_table), unfolding(crate::specs::Words::symbol))]
pub fn symbol(text: &[u8]) -> Option<Terminal>
    ensures { result ≡ spec.symbol text.now }
{
    lookup(&SYMBOLS, text)
}

/// What a token of this kind and text is to the grammar.
pub fn terminal_of(kind: TokenKind, text: &[u8]) -> Terminal
    ensures { result ≡ spec.terminal_of kind text.now }
{
    match kind {
        TokenKind::Lower => Terminal::Lower,
        TokenKind::Upper => Terminal::Upper,
        TokenKind::Keyword => keyword(text).unwrap_or(Terminal::Reserved),
        TokenKind::Number => Terminal::Number,
        TokenKind::Text => Terminal::Text,
        TokenKind::Symbol => symbol(text).unwrap_or(Terminal::Reserved),
    }
}
