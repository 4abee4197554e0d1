ghost use Rattle.std.specs.Prelude.{◌≡◌};

use sqlite_items::Items;

/// A method of a part, as an element uses it.
#[derive(Clone, Copy)]
pub(crate) struct Use {
    pub part: u32,
    pub method: u32,
}

/// A method of one part, as this element uses it.
#[derive(Clone, Copy)]
pub(crate) struct User {
    pub element: u32,
    pub method: u32,
}

/// What the elements use, each method once: of each element its uses, and of each part its users.
#[derive(Drop)]
pub(crate) struct Usages {
    pub by_element: Vec<Items<Use>>,
    pub by_part: Vec<Items<User>>,
}

impl Usages {
    ghost use Rattle.bsv_schedule.specs.relating.Users.{users_at};

    /// The users of the part.
    pub fn users(&self, part: u32) -> &[User]
        ensures { result.now ≡ users_at self.now.by_part.items part }
    {
        match self.by_part.get(part as usize) {
            Some(users) => users.as_slice(),
            None => &[],
        }
    }
}
