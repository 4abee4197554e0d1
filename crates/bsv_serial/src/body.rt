ghost use Rattle.std.specs.Prelude.{◌≡◌, false, IfOk, OnOk, length, ◌<◌, map, option_map, slice_get};
ghost use Rattle.std.specs.Bool.{OnTrue};
ghost use Rattle.bsv_design.specs.design.Bodies.{at, answer, node_word};
ghost use Rattle.bsv_design.specs.design.Guards.{holds_at};
ghost use Rattle.bsv_design.specs.design.Words.{or_zero};
ghost use Rattle.bsv_design.specs.scheme.Schemes.{all_hold};
ghost use Rattle.bsv_design.specs.scheme.Traces.{demand_at};
ghost use Rattle.bsv_design.specs.declared.node.Node.TheVariants as node;
ghost use Rattle.bsv_serial.specs.Bodies as spec;

use crate::looks::Looks;
use crate::words::{is_one, words_at};
use bsv_bits::{OutOfMemory, Word};
use bsv_design::{Condition, Element, Need, Node, word_at};
use sqlite_items::at;

/// What an element is computed from.
#[derive(Clone, Copy)]
pub struct Body<'a> {
    pub looks: Looks<'a>,
    pub element: &'a Element,
    /// The words of its arguments; all are 0 where there are none.
    pub given: &'a [Word],
}

impl Body<'_> {
    ghost use Rattle.bsv_serial.specs.AtHand as hand;

    /// The word of the argument of this number.
    fn argument(self, number: u32) -> Word
        requires body { hand.IsComputable self }
        requires within { number < length self.element.now.arguments }
        ensures { result ≡ or_zero (slice_get (hand.arguments self.entry) number) }
    {
        match at(self.given, number as usize) {
            Some(word) => *word,
            None => Word::zero(self.element.arguments.as_slice()[number as usize].width),
        }
    }

    /// What the call of this number gives, of a method that gives a value.
    fn result(self, number: u32, words: &[Word]) -> Result<Word, OutOfMemory>
        requires body { hand.IsComputable self }
        requires are_open { hand.AllOpen self }
        requires operands { hand.CanFollow self words.now (node.Result number) }
        ensures { IfOk result (λ word. word ≡ answer (hand.body_answers self.entry) number words.now
            (slice_get self.entry.element.now.calls number)) }
    {
        let call = &self.element.calls.as_slice()[number as usize];
        let args = words_at(self.looks.alloc, words, call.args.as_slice())?;
        self.looks.result(call.part, call.method, args.as_slice())
    }

    /// The word of a node after nodes of these words.
    fn word(self, node: Node, words: &[Word]) -> Result<Word, OutOfMemory>
        requires body { hand.IsComputable self }
        requires are_open { hand.AllOpen self }
        requires operands { hand.CanFollow self words.now node }
        ensures { IfOk result (λ word. word ≡ node_word (hand.body_answers self.entry)
            (hand.arguments self.entry) self.entry.element.now.calls words.now node) }
    {
        match node {
            Node::Constant(word) => Ok(word),
            Node::Argument(number) => Ok(self.argument(number)),
            Node::Result(number) => self.result(number, words),
            Node::Not(a) => Ok(word_at(words, a).not()),
            Node::Two(operator, a, b) => Ok(operator.evaluate(
                word_at(words, a),
                word_at(words, b),
            )),
            Node::Pick(test, a, b) => Ok(word_at(
                words,
                if is_one(word_at(words, test)) { a } else { b },
            )),
            Node::Slice(a, high, low) => Ok(word_at(words, a).slice(high, low)),
            Node::Join(a, b) => Ok(word_at(words, a).concat(word_at(words, b))),
            Node::Extend(a, width) => Ok(word_at(words, a).extend(width)),
            Node::SignExtend(a, width) => Ok(word_at(words, a).sign_extend(width)),
        }
    }

    /// The words of all nodes, in the place of those that was there.
    fn compute(self, words: &mut Vec<Word>) -> Result<(), OutOfMemory>
        requires body { hand.IsComputable self }
        requires are_open { hand.AllOpen self }
        ensures { OnOk result (words.new.items ≡ hand.body_words self.entry) }
    {
        words.clear();
        for node in self.element.nodes.as_slice() {
            let word = self.word(*node, words.as_slice())?;
            words.push(word)?;
        }
        Ok(())
    }

    /// Whether the guard holds that is needed.
    fn guard_holds(self, need: &Need) -> Result<bool, OutOfMemory>
        requires { hand.IsComputable self }
        ensures { IfOk result (λ truth. truth ≡ holds_at (hand.body_kinds self.entry)
            (hand.look self.entry.looks) (slice_get self.entry.element.now.calls need.now.call)) }
    {
        match at(self.element.calls.as_slice(), need.call as usize) {
            Some(call) => self.looks.guard(call.part, call.method),
            None => Ok(true),
        }
    }

    /// Whether the guards hold that are needed.
    #[tactic(auto, unfolding(crate::specs::Bodies::guards_hold))]
    fn guards_hold(self, needs: &[Need]) -> Result<bool, OutOfMemory>
        requires { hand.IsComputable self }
        ensures { IfOk result (λ truth. truth ≡ spec.guards_hold (hand.body_kinds self.entry)
            (hand.look self.entry.looks) self.entry.element.now.calls needs.now) }
    {
        let mut rest = needs;
        while let Some((need, after)) = rest.split_first() {
            if !self.guard_holds(need)? {
                return Ok(false);
            }
            rest = after;
        }
        Ok(true)
    }

    /// Whether every guard and every condition holds. Where they do, the words are those of all nodes.
    #[tactic(auto, unfolding(crate::specs::Bodies::holds))]
    pub fn is_ready(self, needs: &[Need], words: &mut Vec<Word>) -> Result<bool, OutOfMemory>
        requires body { hand.IsComputable self }
        requires needs { hand.AreNeedsOf self needs.now }
        ensures truth { IfOk result (λ truth. truth ≡ spec.holds (hand.body_kinds self.entry)
            (hand.look self.entry.looks) self.entry.element.now needs.now
            (hand.arguments self.entry)) }
        ensures words { IfOk result (λ truth.
            OnTrue truth (words.new.items ≡ hand.body_words self.entry)) }
    {
        if !self.guards_hold(needs)? {
            return Ok(false);
        }
        self.compute(words)?;
        Ok(conditions_hold(self.element.conditions.as_slice(), words.as_slice()))
    }
}

/// Whether the conditions hold, where these words stand.
fn conditions_hold(conditions: &[Condition], words: &[Word]) -> bool
    ensures { result ≡ all_hold false (map (demand_at words.now) conditions.now) }
{
    let mut rest = conditions;
    while let Some((condition, after)) = rest.split_first() {
        if !is_one(word_at(words, condition.truth)) {
            return false;
        }
        rest = after;
    }
    true
}

/// What the element gives.
pub fn value_of(element: &Element, words: &[Word]) -> Option<Word>
    ensures { result ≡ option_map (at words.now) element.now.result }
{
    match element.result {
        Some(node) => Some(word_at(words, node)),
        None => None,
    }
}
