ghost use Rattle.std.specs.Prelude.{◌≡◌, ◌<◌, ◌^◌, [], ℕ, length, vec_len, map};
ghost use Rattle.std.specs.Prelude.{IsTrue, IfOk, OnOk};
ghost use Rattle.std.specs.List.{list_all};
ghost use Rattle.bsv_design.specs.design.Bodies.{target};
ghost use Rattle.bsv_design.specs.design.Widths.{call_named};
ghost use Rattle.bsv_schedule.specs.relating.Users as users_spec;
ghost use Rattle.bsv_schedule.specs.relating.Users.{users_at, AreUsers, AreUsesOf, IsNew, KeepsOthers};
ghost use Rattle.bsv_schedule.specs.relating.Uses.{used, Among, UseSame, IsNoted, AreUsages, CallsNamed};

use crate::relating::usage::{Usages, Use, User};
use bsv_design::{Call, Element, NamedPart};
use sqlite_items::Items;
use std::alloc::{AllocError, Global};

// So many parts, of which no method is used.
fn unused(alloc: Global, count: usize) -> Result<Vec<Items<User>>, AllocError>
    ensures count { IfOk result (λ users. vec_len users ≡ count) }
    ensures none { IfOk result (λ users. (part : ℕ) → users_at users.items part ≡ []) }
{
    let mut users = Vec::new(alloc);
    for _ in 0..count {
        users.push(Items::new(alloc))?;
    }
    Ok(users)
}

// Whether the method is noted of the element, whose uses stand last.
fn is_noted(users: &[User], element: u32, method: u32) -> bool
    ensures { IsTrue result → Among users.now (record { element = element; method = method }) }
{
    for turn in 0..users.len() {
        let user = users[users.len() - 1 - turn];
        if user.element != element {
            return false;
        }
        if user.method == method {
            return true;
        }
    }
    false
}

// The part has this user, too.
fn add(users: &mut Vec<Items<User>>, part: usize, user: User) -> Result<(), AllocError>
    requires { part < vec_len users.old }
    ensures { OnOk result (users.new.items ≡ users_spec.added users.old.items part user) }
{
    let users = &mut users[part];
    users.push(user)?;
    Ok(())
}

// The element uses the method of the part, too.
fn note(
    users: &mut Vec<Items<User>>,
    uses: &mut Items<Use>,
    element: u32,
    part: u32,
    method: u32,
) -> Result<(), AllocError>
    requires part { part < vec_len users.old }
    requires agree { AreUsesOf users.old.items element uses.old }
    ensures count { OnOk result (vec_len users.new ≡ vec_len users.old) }
    ensures noted { OnOk result (IsNoted uses.old part method uses.new) }
    ensures agree { OnOk result (AreUsesOf users.new.items element uses.new) }
    ensures others { OnOk result (KeepsOthers element users.old.items users.new.items) }
{
    if is_noted(users[part as usize].as_slice(), element, method) {
        return Ok(());
    }
    add(users, part as usize, User { element, method })?;
    uses.push(Use { part, method })?;
    Ok(())
}

// What an element of these calls uses, which is noted of the parts.
fn uses_of(
    alloc: Global,
    parts: &[NamedPart],
    users: &mut Vec<Items<User>>,
    element: u32,
    calls: &[Call],
) -> Result<Items<Use>, AllocError>
    requires named { IsTrue (list_all (call_named (map (λ p. p.kind) parts.now)) calls.now) }
    requires count { vec_len users.old ≡ length parts.now }
    requires fresh { IsNew users.old.items element }
    ensures count { OnOk result (vec_len users.new ≡ length parts.now) }
    ensures same { IfOk result (λ uses. UseSame (used uses) (map target calls.now)) }
    ensures agree { IfOk result (λ uses. AreUsesOf users.new.items element uses) }
    ensures others { OnOk result (KeepsOthers element users.old.items users.new.items) }
{
    let mut uses = Items::new(alloc);
    for call in calls {
        note(users, &mut uses, element, call.part, call.method)?;
    }
    Ok(uses)
}

/// What the elements use.
pub(crate) fn usages(
    alloc: Global,
    parts: &[NamedPart],
    elements: &[Element],
) -> Result<Usages, AllocError>
    requires named { CallsNamed (map (λ p. p.kind) parts.now) elements.now }
    requires few { length elements.now < 2 ^ 32 }
    ensures uses { IfOk result (λ found. AreUsages
        (map (λ p. p.kind) parts.now) elements.now found.by_element.items) }
    ensures users { IfOk result
        (λ found. AreUsers found.by_element.items found.by_part.items) }
{
    let mut by_part = unused(alloc, parts.len())?;
    let mut by_element = Vec::new(alloc);
    for element in elements {
        let number = by_element.len() as u32;
        let calls = element.calls.as_slice();
        by_element.push(uses_of(alloc, parts, &mut by_part, number, calls)?)?;
    }
    Ok(Usages {
        by_element,
        by_part,
    })
}
