ghost use Rattle.std.specs.Prelude.{◌≡◌, IfOk};
ghost use Rattle.bsv_body.specs.AtHand as spec;

use crate::calls::Call;
use crate::state::Laid;
use bsv_design::Branch;
use bsv_tree::MethodPlace;
use sqlite_items::Items;
use std::alloc::Global;

/// What each call has at hand: where steps stand.
#[derive(Clone, Copy)]
pub struct Flattener<'a> {
    pub alloc: Global,
    /// The node that is 1 where they are taken.
    pub taken: u32,
    /// The arms in which they stand, from the outside.
    pub branches: &'a [Branch],
}

impl<'a> Flattener<'a> {
    /// The arms in which an arm of a choice stands, itself the last.
    pub(crate) fn branches_in(self, choice: u32, arm: u32) -> Laid<Items<Branch>>
        ensures { IfOk result (λ branches. branches ≡ spec.branches_in self.entry choice arm) }
    {
        let mut branches = Items::from_slice(self.alloc, self.branches)?;
        branches.push(Branch { choice, arm })?;
        Ok(branches)
    }

    /// A call that is here.
    pub(crate) fn call(self, method: MethodPlace, action: bool, arguments: Items<u32>) -> Laid<Call>
        ensures { IfOk result (λ call. call ≡ spec.call self.entry method action arguments) }
    {
        let branches = Items::from_slice(self.alloc, self.branches)?;
        Ok(Call {
            method,
            action,
            taken: self.taken,
            branches,
            arguments,
        })
    }
}
