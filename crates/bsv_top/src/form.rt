ghost use Rattle.std.specs.Prelude.{◌≡◌, ◌≤◌, ℕ, List, map, string_bytes, decimal};
ghost use Rattle.std.specs.Prelude.{bytes_eq, Some, IfNone, IfSome};
ghost use Rattle.bsv_top.specs.Answers.{HasNoForm, sim_words, suite_words};
ghost use Rattle.bsv_top.specs.Forms.{planning_words, words_of};
ghost use Rattle.bsv_top.specs.Made.{made_words};
ghost use Rattle.bsv_top.specs.Products.{command_of, product_words};
ghost use Rattle.bsv_top.specs.declared.form.Product.{Product as TheProduct};

use itoa::Buffer;

/// What is put of a design that is not run.
#[derive(Clone, Copy)]
pub(crate) enum Product {
    Schedule,
    Verilog,
}

/// A command line of the form `schedule FILE TOP` or `verilog FILE TOP`.
#[derive(Clone, Copy)]
pub(crate) struct Planning<'a> {
    pub(crate) product: Product,
    pub(crate) file: &'a str,
    pub(crate) top: &'a str,
}

/// A command line of the form `sim FILE TOP TRACE`.
#[derive(Clone, Copy)]
pub(crate) struct Simulation<'a> {
    pub(crate) file: &'a str,
    pub(crate) top: &'a str,
    pub(crate) trace: &'a str,
}

/// A command line of the form `suite FILE TOP LIST`.
#[derive(Clone, Copy)]
pub(crate) struct Suite<'a> {
    pub(crate) file: &'a str,
    pub(crate) top: &'a str,
    pub(crate) list: &'a str,
}

/// What the words after the program's name ask for.
#[derive(Clone, Copy)]
pub(crate) enum Form<'a> {
    Plan(Planning<'a>),
    Sim(Simulation<'a>),
    /// The made design of this size.
    Made(u32),
    Suite(Suite<'a>),
}

/// What the first word asks for, where it asks for no run.
fn product_of(command: &str) -> Option<Product>
    ensures product { IfSome result (λ product. command.now ≡ command_of product) }
    ensures none { IfNone result ((product : TheProduct)
        → command.now ≡ command_of product → ⊥) }
{
    if command == "schedule" {
        return Some(Product::Schedule);
    }
    if command == "verilog" {
        return Some(Product::Verilog);
    }
    None
}

/// The words after the program's name as a form, where they ask for a schedule or for Verilog.
fn planning_of(words: &[String]) -> Option<Planning<'_>>
    ensures form { IfSome result (λ form. map string_bytes words.now ≡ planning_words form) }
    ensures none { IfNone result ((product : TheProduct) (file top : List ℕ)
        → map string_bytes words.now ≡ product_words product file top → ⊥) }
{
    let [command, file, top] = words else {
        return None;
    };
    let product = product_of(command.as_str())?;
    Some(Planning {
        product,
        file: file.as_str(),
        top: top.as_str(),
    })
}

/// The words after the program's name as a form, where they ask for a simulation.
fn simulation_of(words: &[String]) -> Option<Simulation<'_>>
    ensures form { IfSome result (λ form.
        map string_bytes words.now ≡ sim_words form.file.now form.top.now form.trace.now) }
    ensures none { IfNone result ((file top trace : List ℕ)
        → map string_bytes words.now ≡ sim_words file top trace → ⊥) }
{
    let [command, file, top, trace] = words else {
        return None;
    };
    if command.as_str() != "sim" {
        return None;
    }
    Some(Simulation {
        file: file.as_str(),
        top: top.as_str(),
        trace: trace.as_str(),
    })
}

/// The words after the program's name as a form, where they ask for a suite.
fn suite_of(words: &[String]) -> Option<Suite<'_>>
    ensures form { IfSome result (λ form.
        map string_bytes words.now ≡ suite_words form.file.now form.top.now form.list.now) }
    ensures none { IfNone result ((file top list : List ℕ)
        → map string_bytes words.now ≡ suite_words file top list → ⊥) }
{
    let [command, file, top, list] = words else {
        return None;
    };
    if command.as_str() != "suite" {
        return None;
    }
    Some(Suite {
        file: file.as_str(),
        top: top.as_str(),
        list: list.as_str(),
    })
}

/// Whether the text is the number in decimal, without a leading zero.
fn is_decimal(text: &str, number: u32) -> bool
    ensures { result ≡ bytes_eq text.now (decimal number) }
{
    let mut digits = Buffer::new();
    text == digits.format(number)
}

/// The size of a made design, from 1 to 400, that a text says in decimal without a leading zero.
fn size_said(text: &str) -> Option<u32>
    ensures size { IfSome result (λ size. (text.now ≡ decimal size) × (1 ≤ size) × (size ≤ 400)) }
    ensures none { IfNone result ((n : ℕ) → 1 ≤ n → n ≤ 400 → text.now ≡ decimal n → ⊥) }
{
    for size in 1..401u32 {
        if is_decimal(text, size) {
            return Some(size);
        }
    }
    None
}

/// The size that the words after the program's name ask for, where they ask for a made design.
fn size_of(words: &[String]) -> Option<u32>
    ensures size { IfSome result (λ size. (map string_bytes words.now ≡ made_words size)
        × (1 ≤ size) × (size ≤ 400)) }
    ensures none { IfNone result ((n : ℕ) → 1 ≤ n → n ≤ 400
        → map string_bytes words.now ≡ made_words n → ⊥) }
{
    let [command, size] = words else {
        return None;
    };
    if command.as_str() != "made" {
        return None;
    }
    size_said(size.as_str())
}

/// The form that the words have, where they have one.
pub(crate) fn form_of(words: &[String]) -> Option<Form<'_>>
    ensures form { IfSome result (λ form. map string_bytes words.now ≡ words_of form) }
    ensures size { (n : ℕ) → result ≡ Some (Form.Made n) → (1 ≤ n) × (n ≤ 400) }
    ensures none { IfNone result (HasNoForm (map string_bytes words.now)) }
{
    if let Some(form) = planning_of(words) {
        return Some(Form::Plan(form));
    }
    if let Some(form) = simulation_of(words) {
        return Some(Form::Sim(form));
    }
    if let Some(form) = suite_of(words) {
        return Some(Form::Suite(form));
    }
    match size_of(words) {
        Some(size) => Some(Form::Made(size)),
        None => None,
    }
}
