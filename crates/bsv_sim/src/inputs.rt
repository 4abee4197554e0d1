ghost use Rattle.std.specs.Prelude.{◌≡◌, ◌≤◌, ◌<◌, ◌+◌, ◌++◌, length, map, vec_len, vec_capacity};
ghost use Rattle.bsv_design.specs.scheme.Seen.{asking};
ghost use Rattle.bsv_sim.specs.Inputs as spec;

use bsv_bits::Word;
use bsv_design::Requests;

/// Adds these words.
fn add_words(words: &[Word], inputs: &mut Vec<Word>)
    requires { vec_len inputs.old + length words.now ≤ vec_capacity inputs.old }
    ensures words { inputs.new.items ≡ inputs.old.items ++ words.now }
    ensures capacity { vec_capacity inputs.old ≤ vec_capacity inputs.new }
{
    let mut rest = words;
    while let Some((word, after)) = rest.split_first() {
        let _ = inputs.push(*word);
        rest = after;
    }
}

/// Adds a word that is 0 for each of these, of its width.
fn add_zeros(words: &[Word], inputs: &mut Vec<Word>)
    requires { vec_len inputs.old + length words.now ≤ vec_capacity inputs.old }
    ensures words { inputs.new.items ≡ inputs.old.items ++ map spec.zero_like words.now }
    ensures capacity { vec_capacity inputs.old ≤ vec_capacity inputs.new }
{
    let mut rest = words;
    while let Some((word, after)) = rest.split_first() {
        let zero = Word::zero(word.width());
        let _ = inputs.push(zero);
        rest = after;
    }
}

/// Adds the arguments of a method, or 0 where it is not asked.
fn add_arguments(is_asked: bool, words: &[Word], inputs: &mut Vec<Word>)
    requires { vec_len inputs.old + length words.now ≤ vec_capacity inputs.old }
    ensures words { inputs.new.items ≡ inputs.old.items ++ spec.arguments is_asked words.now }
    ensures capacity { vec_capacity inputs.old ≤ vec_capacity inputs.new }
{
    if is_asked {
        add_words(words, inputs);
    } else {
        add_zeros(words, inputs);
    }
}

/// Adds the inputs of a method: its arguments, and a bit that is 1 where it is asked.
fn add_method(is_asked: bool, words: &[Word], inputs: &mut Vec<Word>)
    requires { vec_len inputs.old + length words.now < vec_capacity inputs.old }
    ensures words { inputs.new.items ≡ inputs.old.items ++ spec.of_method is_asked words.now }
    ensures capacity { vec_capacity inputs.old ≤ vec_capacity inputs.new }
{
    add_arguments(is_asked, words, inputs);
    let _ = inputs.push(Word::bit(is_asked));
}

/// The words of the inputs where this is asked.
#[tactic(auto, unfolding(crate::specs::Inputs::of_methods))]
pub fn ask(requests: &Requests, inputs: &mut Vec<Word>)
    requires { length (spec.inputs (asking requests.now)) ≤ vec_capacity inputs.old }
    ensures words { inputs.new.items ≡ spec.inputs (asking requests.now) }
    ensures capacity { vec_capacity inputs.old ≤ vec_capacity inputs.new }
{
    inputs.clear();
    let mut asked = requests.asked.as_slice();
    let mut args = requests.args.as_slice();
    while let Some((is_asked, others)) = asked.split_first() {
        let Some((words, after)) = args.split_first() else {
            return;
        };
        add_method(*is_asked, words.as_slice(), inputs);
        asked = others;
        args = after;
    }
}
