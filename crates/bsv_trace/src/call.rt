ghost use Rattle.std.specs.Prelude.{◌≡◌, ◌+◌, ◌<◌, ◌≤◌};
ghost use Rattle.std.specs.Prelude.{length, map, option_map, IfSome};
ghost use Rattle.std.specs.List.{prefix_len};
ghost use Rattle.bsv_design.specs.scheme.Schemes.{outline};
ghost use Rattle.bsv_design.specs.scheme.Seen.{asking};
ghost use Rattle.bsv_trace.specs.Lines.{in_name};
ghost use Rattle.bsv_trace.specs.Reading as spec;

use crate::number::argument;
use bsv_bits::Word;
use bsv_design::{Element, Port, Requests};
use sqlite_items::Items;

/// What is after this byte, where the bytes begin with it.
fn behind(mark: u8, bytes: &[u8]) -> Option<&[u8]>
    ensures { option_map (λ rest. rest.now) result ≡ spec.behind mark bytes.now }
{
    match bytes {
        [b, rest @ ..] if *b == mark => Some(rest),
        _ => None,
    }
}

/// Reads an argument to its place among the words of a call, and gives what is after it.
fn argument_at<'a>(
    width: u32,
    bytes: &'a [u8],
    place: usize,
    words: &mut Items<Word>,
) -> Option<&'a [u8]>
    requires { place < length words.old }
    ensures read { spec.Gives result words.new (spec.argument_at width bytes.now place words.old) }
    ensures length { length words.new ≡ length words.old }
{
    match argument(width, bytes) {
        None => None,
        Some((word, rest)) => {
            words.set(place, word);
            Some(rest)
        }
    }
}

/// Reads an argument after its comma.
fn next_argument<'a>(
    width: u32,
    bytes: &'a [u8],
    place: usize,
    words: &mut Items<Word>,
) -> Option<&'a [u8]>
    requires { place < length words.old }
    ensures read { spec.Gives result words.new
        (spec.next_argument width (spec.behind 44 bytes.now) place words.old) }
    ensures length { length words.new ≡ length words.old }
{
    match behind(b',', bytes) {
        None => None,
        Some(rest) => argument_at(width, rest, place, words),
    }
}

/// Reads the arguments after the first, and the bracket that closes the call.
fn more_arguments<'a>(ports: &[Port], bytes: &'a [u8], words: &mut Items<Word>) -> Option<&'a [u8]>
    requires { length words.old ≡ length ports.now + 1 }
    ensures read { spec.Gives result words.new
        (spec.more_arguments ports.now 1 bytes.now words.old) }
    ensures length { length words.new ≡ length words.old }
{
    let mut rest = bytes;
    let mut place = 1;
    let mut left = ports;
    while let Some((port, others)) = left.split_first() {
        match next_argument(port.width, rest, place, words) {
            None => return None,
            Some(more) => rest = more,
        }
        place += 1;
        left = others;
    }
    behind(b')', rest)
}

/// Reads the arguments of a call, and the bracket that closes it.
fn arguments<'a>(ports: &[Port], bytes: &'a [u8], words: &mut Items<Word>) -> Option<&'a [u8]>
    requires { length words.old ≡ length ports.now }
    ensures read { spec.Gives result words.new (spec.arguments ports.now bytes.now words.old) }
    ensures length { length words.new ≡ length words.old }
{
    match ports.split_first() {
        None => behind(b')', bytes),
        Some((port, others)) => match argument_at(port.width, bytes, 0, words) {
            None => None,
            Some(rest) => more_arguments(others, rest, words),
        },
    }
}

/// How many bytes come before the first bracket.
fn name_len(bytes: &[u8]) -> usize
    ensures value { result ≡ prefix_len in_name bytes.now }
    ensures within { result ≤ length bytes.now }
{
    bytes.iter().take_while(|b| **b != b'(').count()
}

/// The method of this name, by its place.
fn method_named(methods: &[Element], name: &[u8]) -> Option<usize>
    ensures number { result ≡ spec.method_from 0 (map outline methods.now) name.now }
    ensures within { IfSome result (λ number. number < length methods.now) }
{
    for (number, method) in methods.iter().enumerate() {
        if method.name.bytes() == name {
            return Some(number);
        }
    }
    None
}

/// Reads the arguments of a call of this method, and asks for it, where it is not asked yet.
#[tactic(auto, unfolding(crate::specs::Reading::call_of))]
fn call_of<'a>(
    methods: &[Element],
    number: usize,
    bytes: &'a [u8],
    requests: &mut Requests,
) -> Option<&'a [u8]>
    requires within { number < length methods.now }
    requires places { spec.HasPlaces (map outline methods.now) (asking requests.old) }
    ensures read { spec.Gives result (asking requests.new)
        (spec.call_of (map outline methods.now) number bytes.now (asking requests.old)) }
    ensures places { spec.HasPlaces (map outline methods.now) (asking requests.new) }
{
    if requests.asked.as_slice()[number] {
        return None;
    }
    let ports = methods[number].arguments.as_slice();
    match arguments(ports, bytes, &mut requests.args[number]) {
        None => None,
        Some(rest) => {
            requests.asked.set(number, true);
            Some(rest)
        }
    }
}

/// Reads a call, asks for it, and gives what is after it.
#[tactic(auto, unfolding(crate::specs::Reading::call))]
fn call<'a>(methods: &[Element], bytes: &'a [u8], requests: &mut Requests) -> Option<&'a [u8]>
    requires { spec.HasPlaces (map outline methods.now) (asking requests.old) }
    ensures read { spec.Gives result (asking requests.new)
        (spec.call (map outline methods.now) bytes.now (asking requests.old)) }
    ensures places { spec.HasPlaces (map outline methods.now) (asking requests.new) }
{
    let (name, after) = bytes.split_at(name_len(bytes));
    match behind(b'(', after) {
        None => None,
        Some(rest) => match method_named(methods, name) {
            None => None,
            Some(number) => call_of(methods, number, rest, requests),
        },
    }
}

/// Reads calls with a blank between each two, and asks for them. Whether there is nothing else.
pub(crate) fn calls(methods: &[Element], bytes: &[u8], requests: &mut Requests) -> bool
    requires { spec.HasPlaces (map outline methods.now) (asking requests.old) }
    ensures read { spec.GivesAll result (asking requests.new)
        (spec.calls (length bytes.now) (map outline methods.now) bytes.now (asking requests.old)) }
    ensures places { spec.HasPlaces (map outline methods.now) (asking requests.new) }
{
    let mut rest = bytes;
    for turn in 0..bytes.len() {
        let Some(next) = call(methods, rest, requests) else {
            return false;
        };
        if next.is_empty() {
            return true;
        }
        match behind(b' ', next) {
            None => return false,
            Some(more) => rest = more,
        }
    }
    false
}
