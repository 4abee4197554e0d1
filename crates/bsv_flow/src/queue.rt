ghost use Rattle.std.specs.Prelude.{◌≡◌, ◌<◌, ◌≤◌, ℕ, List, length, codes, Ok, Err, IfOk};
ghost use Rattle.std.specs.List.{list_any};
ghost use Rattle.std.specs.Str.{bytes_eq};
ghost use Rattle.bsv_flow.specs.Loads.{most_packages};
ghost use Rattle.bsv_flow.specs.LoadOrder as spec;
ghost use Rattle.bsv_flow.specs.declared.refusal.CompileFault.TheVariants.{Refused, ReadFault};
ghost use Rattle.bsv_flow.specs.declared.refusal.Refusal.{Refusal as TheRefusal};
ghost use Rattle.bsv_flow.specs.declared.refusal.Refusal.TheVariants as refusal;

use crate::refusal::{CompileFault, Refusal};
use bsv_ast::{Item, Items, Package};
use bsv_bits::{Name, OutOfMemory};
use std::alloc::{AllocError, Global};

/// At most so many packages are loaded.
pub(crate) const MAX_PACKAGES: usize = 64;

/// A name up to and including its last `/`.
fn folder(name: &[u8]) -> &[u8]
    ensures { result.now ≡ spec.folder name.now }
{
    let mut end = 0;
    for (at, byte) in name.iter().enumerate() {
        if *byte == b'/' {
            end = at + 1;
        }
    }
    &name[..end]
}

/// The file of a package, which lies beside the first file.
fn file_of(alloc: Global, first: &[u8], name: &[u8]) -> Result<Name, OutOfMemory>
    ensures { IfOk result (λ file. file ≡ spec.file_of first.now name.now) }
{
    let mut file = Vec::from_slice(alloc, folder(first))?;
    file.extend_from_slice(name)?;
    file.extend_from_slice(b".bsv")?;
    Name::new(alloc, file.as_slice())
}

/// Whether the language gives a package of this name.
fn is_given(name: &[u8]) -> bool
    ensures { result ≡ spec.is_given name.now }
{
    name == b"FIFO".as_slice() || name == b"FIFOF".as_slice() || name == b"SpecialFIFOs".as_slice()
}

/// Whether a file is named already.
fn is_queued(queue: &Items<Name>, file: &[u8]) -> bool
    ensures { result ≡ list_any (bytes_eq file.now) queue.now }
{
    queue.as_slice().iter().any(|name| file == name.bytes())
}

/// The files, with this one after them if it is not named already.
fn with_file(mut queue: Items<Name>, file: Name) -> Result<Items<Name>, AllocError>
    ensures { IfOk result (λ x. x ≡ spec.with_file queue file) }
{
    if !is_queued(&queue, file.bytes()) {
        queue.push(file)?;
    }
    Ok(queue)
}

/// The files, with the one that an item imports.
fn with_item(
    alloc: Global,
    first: &[u8],
    queue: Items<Name>,
    item: &Item,
) -> Result<Items<Name>, OutOfMemory>
    ensures { IfOk result (λ x. x ≡ spec.with_item first.now queue item.now) }
{
    let Item::Import(_, import) = item else {
        return Ok(queue);
    };
    let name = import.package.name.bytes();
    if is_given(name) {
        return Ok(queue);
    }
    let file = file_of(alloc, first, name)?;
    Ok(with_file(queue, file)?)
}

/// The limit that imports pass which name one package too many.
fn too_many(alloc: Global) -> CompileFault
    ensures refused { (r : TheRefusal) → result ≡ Refused r
        → r ≡ refusal.Limit (codes "packages") most_packages }
    ensures own { (name : List ℕ) → result ≡ ReadFault name → ⊥ }
{
    match Name::new(alloc, b"packages") {
        Ok(kind) => CompileFault::Refused(Refusal::Limit(kind, MAX_PACKAGES as u64)),
        Err(_) => CompileFault::OutOfMemory,
    }
}

/// The files, with those that a package imports.
pub(crate) fn with_imports(
    alloc: Global,
    first: &[u8],
    queue: Items<Name>,
    whole: &Package,
) -> Result<Items<Name>, CompileFault>
    requires few { length queue ≤ most_packages }
    ensures found { IfOk result (λ x. x ≡ spec.with_imports first.now queue whole.now) }
    ensures few { IfOk result (λ x. length x ≤ most_packages) }
    ensures refused { (r : TheRefusal) → result ≡ Err (Refused r)
        → (r ≡ refusal.Limit (codes "packages") most_packages)
        × (most_packages < length (spec.with_imports first.now queue whole.now)) }
    ensures own { (name : List ℕ) → result ≡ Err (ReadFault name) → ⊥ }
{
    let mut queue = queue;
    for item in whole.items().as_slice() {
        queue = with_item(alloc, first, queue, item)?;
        if queue.len() > MAX_PACKAGES {
            return Err(too_many(alloc));
        }
    }
    Ok(queue)
}
