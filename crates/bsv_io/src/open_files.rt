ghost use Rattle.std.specs.Prelude.{⊤, IfSome, OnSome, IsUtf8};

use std::io::Read;
use std::{fs, rt};

/// What opens the files of names. Only a text names a file.
pub trait OpenFiles {
    ghost use Rattle.std.specs.Prelude.{List, ℕ, Option};

    type File: Read + Drop;

    /// What a file that was just opened by this name may tell of its bytes.
    ghost opens: { List ℕ → Option (List ℕ) → Type 0 };

    /// The file of this name, at its start, where it can be opened.
    fn open(&self, name: &[u8]) -> Option<Self::File>
        ensures text { OnSome result (IsUtf8 name.now) }
        ensures file { IfSome result (λ file. opens name.now (Self.File.remaining file)) };
}

/// The files of a runtime, of which no contract says what they hold.
impl<R: rt::Files> OpenFiles for R {
    type File = R::File;

    ghost opens = { λ _ _. ⊤ };

    fn open(&self, name: &[u8]) -> Option<R::File> {
        let path = str::from_utf8(name).ok()?;
        fs::open(self, path).ok()
    }
}
