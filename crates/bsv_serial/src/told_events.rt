ghost use Rattle.std.specs.Prelude.{◌≡◌, ◌≤◌, ◌<◌, ◌^◌, length, vec_capacity};
ghost use Rattle.bsv_design.specs.scheme.Rooms.{HasRoom};
ghost use Rattle.bsv_serial.specs.ToldEvents as spec;

use crate::fates::Fate;
use bsv_bits::Word;
use bsv_design::{Fired, Schedule};

/// What comes of the element of this position.
fn fate_at(fates: &[Fate], number: u32) -> Fate
    ensures { result ≡ spec.fate_at fates.now number }
{
    match fates.get(number as usize) {
        Some(fate) => *fate,
        None => Fate::Idle,
    }
}

/// The elements that fire, in the execution order.
#[tactic(auto, unfolding(crate::specs::ToldEvents::all_fired))]
fn tell_fired(execution: &[u32], fates: &[Fate], list: &mut Vec<u32>)
    requires { length execution.now ≤ vec_capacity list.old }
    ensures list { list.new.items ≡ spec.all_fired fates.now execution.now }
    ensures capacity { vec_capacity list.old ≤ vec_capacity list.new }
{
    list.clear();
    let mut rest = execution;
    while let Some((number, after)) = rest.split_first() {
        if let Fate::Fired(_) = fate_at(fates, *number) {
            let _ = list.push(*number);
        }
        rest = after;
    }
}

/// What they give, in the execution order.
#[tactic(auto, unfolding(crate::specs::ToldEvents::all_given))]
fn tell_results(execution: &[u32], fates: &[Fate], results: &mut Vec<(u32, Word)>)
    requires { length execution.now ≤ vec_capacity results.old }
    ensures results { results.new.items ≡ spec.all_given fates.now execution.now }
    ensures capacity { vec_capacity results.old ≤ vec_capacity results.new }
{
    results.clear();
    let mut rest = execution;
    while let Some((number, after)) = rest.split_first() {
        if let Fate::Fired(Some(word)) = fate_at(fates, *number) {
            let _ = results.push((*number, word));
        }
        rest = after;
    }
}

/// The elements that are stopped, each with the one that stops it, by urgency.
#[tactic(auto, unfolding(crate::specs::ToldEvents::all_stopped))]
fn tell_stopped(urgency: &[u32], fates: &[Fate], stopped: &mut Vec<(u32, u32)>)
    requires { length urgency.now ≤ vec_capacity stopped.old }
    ensures stopped { stopped.new.items ≡ spec.all_stopped fates.now urgency.now }
    ensures capacity { vec_capacity stopped.old ≤ vec_capacity stopped.new }
{
    stopped.clear();
    let mut rest = urgency;
    while let Some((number, after)) = rest.split_first() {
        if let Fate::Stopped(by) = fate_at(fates, *number) {
            let _ = stopped.push((*number, by));
        }
        rest = after;
    }
}

/// The methods that are blocked, by position.
#[tactic(auto, unfolding(crate::specs::ToldEvents::all_blocked))]
fn tell_blocked(fates: &[Fate], blocked: &mut Vec<u32>)
    requires few { length fates.now < 2 ^ 32 }
    requires room { length fates.now ≤ vec_capacity blocked.old }
    ensures blocked { blocked.new.items ≡ spec.all_blocked fates.now }
    ensures capacity { vec_capacity blocked.old ≤ vec_capacity blocked.new }
{
    blocked.clear();
    for number in 0..fates.len() {
        if let Fate::Blocked = fate_at(fates, number as u32) {
            let _ = blocked.push(number as u32);
        }
    }
}

/// What is told of a clock in which this comes of the elements.
pub fn tell(schedule: &Schedule, fates: &[Fate], fired: &mut Fired)
    requires few { length fates.now < 2 ^ 32 }
    requires execution { length schedule.now.execution ≤ length fates.now }
    requires urgency { length schedule.now.urgency ≤ length fates.now }
    requires room { HasRoom (length fates.now) fired.old }
    ensures list { fired.new.list.items ≡ spec.all_fired fates.now schedule.now.execution }
    ensures stopped { fired.new.stopped.items ≡ spec.all_stopped fates.now schedule.now.urgency }
    ensures blocked { fired.new.blocked.items ≡ spec.all_blocked fates.now }
    ensures results { fired.new.results.items ≡ spec.all_given fates.now schedule.now.execution }
    ensures room { HasRoom (length fates.now) fired.new }
{
    let execution = schedule.execution.as_slice();
    tell_fired(execution, fates, &mut fired.list);
    tell_stopped(schedule.urgency.as_slice(), fates, &mut fired.stopped);
    tell_blocked(fates, &mut fired.blocked);
    tell_results(execution, fates, &mut fired.results);
}
