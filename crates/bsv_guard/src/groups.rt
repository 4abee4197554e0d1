ghost use Rattle.std.specs.Prelude.{◌≡◌, ◌<◌, ◌^◌, ◌+◌, ◌*◌, ◌%◌, [], ◌∷◌, ◌++◌};
ghost use Rattle.std.specs.Prelude.{length, vec_len, IfOk, OnOk};
ghost use Rattle.bsv_guard.specs.Groups as groups;

use bsv_design::Call;
use sqlite_items::Items;
use std::alloc::{AllocError, Global};

/// In which of so many groups the calls of a method stand.
pub(crate) fn place(part: u32, method: u32, count: usize) -> usize
    requires { 0 < count }
    ensures same { result ≡ groups.place part method count }
    ensures within { result < count }
{
    (part as usize * 8 + method as usize) % count
}

/// So many groups without calls.
fn empty(alloc: Global, count: usize) -> Result<Vec<Items<u32>>, AllocError>
    ensures { IfOk result (λ found. vec_len found ≡ count) }
{
    let mut found = Vec::new(alloc);
    for _ in 0..count {
        found.push(Items::new(alloc))?;
    }
    Ok(found)
}

/// The call of this number is in the group, too.
fn add(found: &mut Vec<Items<u32>>, at: usize, number: u32) -> Result<(), AllocError>
    requires { at < vec_len found.old }
    ensures { OnOk result (found.new.items ≡ groups.added found.old.items at number) }
{
    let group = &mut found[at];
    group.push(number)?;
    Ok(())
}

/// The numbers of all calls, in groups: calls of one method of one part are in one group.
pub(crate) fn grouped(alloc: Global, calls: &[Call]) -> Result<Vec<Items<u32>>, AllocError>
    requires { length calls.now < 2 ^ 32 }
    ensures some { IfOk result (λ found. 0 < vec_len found) }
    ensures all { IfOk result (λ found. groups.AreGrouped calls.now found.items) }
{
    let count = calls.len().max(1);
    let mut found = empty(alloc, count)?;
    for (number, call) in calls.iter().enumerate() {
        add(
            &mut found,
            place(call.part, call.method, count),
            number as u32,
        )?;
    }
    Ok(found)
}

/// The group in which the calls of a method stand.
pub(crate) fn group_of(found: &[Items<u32>], part: u32, method: u32) -> &[u32]
    requires { 0 < length found.now }
    ensures { result.now ≡ groups.group_of found.now part method }
{
    found[place(part, method, found.len())].as_slice()
}
