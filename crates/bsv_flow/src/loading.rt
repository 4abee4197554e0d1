ghost use Rattle.std.specs.Prelude.{◌≡◌, ◌<◌, ◌≤◌, ◌⊎◌, ℕ, List, Some, Ok, Err, IfOk};
ghost use Rattle.bsv_io.specs.Faults.{MayFault};
ghost use Rattle.bsv_io.specs.Reading.{bytes_given};
ghost use Rattle.bsv_flow.specs.Loads.{IsLoaded, Reaches, Refuses};
ghost use Rattle.bsv_flow.specs.OneAnswer.{IsSameRefusal};
ghost use Rattle.bsv_flow.specs.Sources.{read_limit};
ghost use Rattle.bsv_flow.specs.declared.loading.Loaded.{Loaded as TheLoaded};
ghost use Rattle.bsv_flow.specs.declared.refusal.CompileFault.TheVariants.{Refused, ReadFault};
ghost use Rattle.bsv_flow.specs.declared.refusal.Refusal.{Refusal as TheRefusal};

use crate::parse::package_of;
use crate::queue::{MAX_PACKAGES, with_imports};
use crate::refusal::CompileFault;
use crate::source::{Source, read_source};
use bsv_ast::{Items, Package};
use bsv_bits::Name;
use bsv_io::Files;
use std::alloc::Global;

/// What was loaded, in load order: the names of the files, their bytes, and the package that each
/// one is.
#[derive(Drop)]
pub struct Loaded {
    pub files: Items<Name>,
    pub sources: Items<Source>,
    pub packages: Items<Package>,
}

/// Loads the file of a name, and the file of each package that is imported.
///
/// The first file lies where its name says, and the file `P.bsv` of a package P beside it. A package
/// is loaded once, in the order in which the imports name it; `FIFO`, `FIFOF` and `SpecialFIFOs` have
/// no file. At most 64 packages are loaded, of at most 1,048,576 bytes each. Where a file is refused,
/// those after it are not read.
pub fn load<F: Files>(alloc: Global, files: &mut F, name: &str) -> Result<Loaded, CompileFault>
    ensures loaded { IfOk result (λ l. (contents : List ℕ → List ℕ)
        → (F.reading files.old).contents ≡ Some contents → IsLoaded name.now contents l) }
    ensures refused { (r : TheRefusal) → result ≡ Err (Refused r) → (contents : List ℕ → List ℕ)
        → (F.reading files.old).contents ≡ Some contents → Refuses name.now contents r }
    ensures read_fault { (blamed : List ℕ) → result ≡ Err (ReadFault blamed)
        → MayFault (F.reading files.old).faults (F.reading files.new).faults
        × ((F.reading files.new).blamed ≡ Some blamed) }
    ensures reached { (blamed : List ℕ) → result ≡ Err (ReadFault blamed)
        → (contents : List ℕ → List ℕ)
        → (F.reading files.old).contents ≡ Some contents → Reaches name.now contents blamed }
    // No source is read on after one byte more than it may have.
    ensures within { read_limit < bytes_given (F.reading files.new)
        → (F.reading files.new).current ≡ (F.reading files.old).current }
    ensures contents { (F.reading files.new).contents ≡ (F.reading files.old).contents }
    ensures count { (F.reading files.old).faults ≤ (F.reading files.new).faults }
    ensures kept { ((blamed : List ℕ) → result ≡ Err (ReadFault blamed) → ⊥)
        → (F.reading files.new).faults ≡ (F.reading files.old).faults }
{
    let first = name.as_bytes();
    let mut queue = Items::new(alloc);
    queue.push(Name::new(alloc, first)?)?;
    let mut sources = Items::new(alloc);
    let mut packages = Items::new(alloc);
    for turn in 0..MAX_PACKAGES {
        let Some(file) = queue.get(turn) else {
            break;
        };
        let source = read_source(alloc, files, file.bytes())?;
        let package = package_of(alloc, file.bytes(), source.bytes())?;
        queue = with_imports(alloc, first, queue, &package)?;
        sources.push(source)?;
        packages.push(package)?;
    }
    Ok(Loaded {
        files: queue,
        sources,
        packages,
    })
}

/// What the files hold decides what is loaded or refused: there is one list of what is loaded, or a
/// first refusal, and not both. Both are one, but that the place of a `Syntax` is free.
pub fn one_loading()
    ensures same { (first : List ℕ) (contents : List ℕ → List ℕ) (l m : TheLoaded)
        → IsLoaded first contents l → IsLoaded first contents m → l ≡ m }
    ensures apart { (first : List ℕ) (contents : List ℕ → List ℕ) (l : TheLoaded) (r : TheRefusal)
        → IsLoaded first contents l → Refuses first contents r → ⊥ }
    ensures some { (first : List ℕ) (contents : List ℕ → List ℕ)
        → ((l : TheLoaded) × IsLoaded first contents l)
        ⊎ ((r : TheRefusal) × Refuses first contents r) }
    ensures one_refusal { (first : List ℕ) (contents : List ℕ → List ℕ) (r other : TheRefusal)
        → Refuses first contents r → Refuses first contents other → IsSameRefusal r other }
{}
