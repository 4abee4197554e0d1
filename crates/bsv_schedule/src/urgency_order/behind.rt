ghost use Rattle.std.specs.Prelude.{◌≡◌, ℕ, ◌<◌, ◌↔◌, All, IsTrue, IfSome, IfNone};
ghost use Rattle.bsv_graph.specs.Orders.{In};
ghost use Rattle.bsv_schedule.specs.urgency_order.Orders.{NoneBehindRule, IsLeastBehindRule, IsFirstRule};
ghost use Rattle.bsv_schedule.specs.relating.Relations.{relating_of, count_of};
ghost use Rattle.bsv_schedule.specs.urgency_order.Acting.{IsActionIn, IsLeastActionIn, NoActionIn};

use crate::relating::Relations;

// Whether the number is in the list.
fn is_in(list: &[u32], number: u32) -> bool
    ensures { IsTrue result ↔ In list.now number }
{
    for item in list {
        if *item == number {
            return true;
        }
    }
    false
}

// Whether the element is an Action or ActionValue method of the list.
fn is_action_in(relations: &Relations, list: &[u32], m: u32) -> bool
    requires { m < count_of relations.now }
    ensures { IsTrue result ↔ IsActionIn (relating_of relations.now) list.now m }
{
    !relations.is_value(m as usize) && !relations.is_rule(m as usize) && is_in(list, m)
}

// The least Action or ActionValue method of the list.
fn least_action_in(relations: &Relations, list: &[u32]) -> Option<u32>
    requires { All (λ a. a < count_of relations.now) list.now }
    ensures some { IfSome result
        (λ m. IsLeastActionIn (relating_of relations.now) list.now m) }
    ensures none { IfNone result (NoActionIn (relating_of relations.now) list.now) }
{
    for m in 0..relations.count() {
        if is_action_in(relations, list, m as u32) {
            return Some(m as u32);
        }
    }
    None
}

/// The least Action or ActionValue method that comes after a rule, and the first rule.
pub(crate) fn method_behind_rule(relations: &Relations, order: &[u32]) -> Option<(u32, u32)>
    requires { All (λ a. a < count_of relations.now) order.now }
    ensures method { IfSome result
        (λ found. IsLeastBehindRule (relating_of relations.now) order.now found.0) }
    ensures rule { IfSome result
        (λ found. IsFirstRule (relating_of relations.now) order.now found.1) }
    ensures none { IfNone result (NoneBehindRule (relating_of relations.now) order.now) }
{
    for (place, element) in order.iter().enumerate() {
        if relations.is_rule(*element as usize) {
            return match least_action_in(relations, &order[place + 1..]) {
                Some(method) => Some((method, *element)),
                None => None,
            };
        }
    }
    None
}
