use bsv_bits::{Name, OutOfMemory};
use bsv_flow::{CompileFault, Loaded, Refusal, load, tree, typed};
use bsv_io::SureFiles;
use bsv_marks::{Extent, ModulePlace, blanked, bodies_of, statements_of};
use std::alloc::Global;

/// How many bodies of a module are tried at most, and how many statements of a body.
const MOST: usize = 200;

/// What was loaded, the module that is looked at, and the refusal that it was answered.
#[derive(Clone, Copy)]
pub(crate) struct Ground<'a> {
    pub loaded: &'a Loaded,
    pub file: &'a str,
    pub top: &'a str,
    pub place: ModulePlace<'a>,
    pub refusal: &'a Refusal,
}

/// What is answered where some statements are left out.
#[derive(Clone, Copy, PartialEq, Eq)]
enum Answer {
    Same,
    /// The design is built, or another refusal is met as it is built.
    Other,
    /// What is left is no program.
    Untold,
}

/// Whether both are the same refusal of the same module.
fn is_same(one: &Refusal, other: &Refusal) -> bool {
    match (one, other) {
        (Refusal::StaticFault(one), Refusal::StaticFault(other)) => one == other,
        (Refusal::Loop(one), Refusal::Loop(other)) => one == other,
        _ => false,
    }
}

/// Whether the refusal is one of building.
fn is_of_building(refusal: &Refusal) -> bool {
    matches!(
        refusal,
        Refusal::StaticFault(_)
            | Refusal::Loop(_)
            | Refusal::Recursion(_)
            | Refusal::NameTaken(_)
            | Refusal::Limit(_, _)
            | Refusal::NoSuchRule(_, _)
    )
}

/// A copy of the file of a number, or these bytes in its place.
fn copied(
    alloc: Global,
    loaded: &Loaded,
    number: usize,
    name: &Name,
    changed: Option<&[u8]>,
) -> Result<(Name, Vec<u8>), OutOfMemory> {
    let bytes = match (changed, loaded.sources.get(number)) {
        (Some(bytes), _) => bytes,
        (None, Some(source)) => source.bytes(),
        (None, None) => b"",
    };
    let name = Name::new(alloc, name.bytes())?;
    Ok((name, Vec::from_slice(alloc, bytes)?))
}

/// The files that were loaded, with other bytes in one of them.
fn files_with(alloc: Global, ground: Ground, bytes: &[u8]) -> Result<SureFiles, OutOfMemory> {
    let mut files = Vec::new(alloc);
    for (number, name) in ground.loaded.files.as_slice().iter().enumerate() {
        let changed = if number == ground.place.number {
            Some(bytes)
        } else {
            None
        };
        files.push(copied(alloc, ground.loaded, number, name, changed)?)?;
    }
    Ok(SureFiles::new(files))
}

/// Builds the design of some files.
fn build(alloc: Global, files: &mut SureFiles, file: &str, top: &str) -> Result<(), CompileFault> {
    let loaded = load(alloc, files, file)?;
    let program = typed(alloc, &loaded)?;
    let _built = tree(alloc, program, top)?;
    Ok(())
}

/// What is answered without these statements.
fn answer_without(
    alloc: Global,
    ground: Ground,
    extents: &[Extent],
) -> Result<Answer, OutOfMemory> {
    let bytes = blanked(alloc, ground.place.text, extents)?;
    let mut files = files_with(alloc, ground, bytes.as_slice())?;
    match build(alloc, &mut files, ground.file, ground.top) {
        Ok(()) => Ok(Answer::Other),
        Err(CompileFault::Refused(refusal)) => Ok(if is_same(&refusal, ground.refusal) {
            Answer::Same
        } else if is_of_building(&refusal) {
            Answer::Other
        } else {
            Answer::Untold
        }),
        Err(CompileFault::ReadFault(_)) => Ok(Answer::Untold),
        Err(CompileFault::OutOfMemory) => Err(OutOfMemory),
    }
}

/// The body without which the refusal is gone, the last ones left out first; those after it are left out from then on.
fn body_of(
    alloc: Global,
    ground: Ground,
    bodies: &[Extent],
    left_out: &mut Vec<Extent>,
) -> Result<Option<Extent>, OutOfMemory> {
    for body in bodies.iter().rev() {
        left_out.push(*body)?;
        match answer_without(alloc, ground, left_out.as_slice())? {
            Answer::Same => {}
            Answer::Other => {
                left_out.pop();
                return Ok(Some(*body));
            }
            Answer::Untold => {
                left_out.pop();
            }
        }
    }
    Ok(None)
}

/// The statement of a body without which, and without all after it, the refusal is gone.
fn statement_of(
    alloc: Global,
    ground: Ground,
    body: Extent,
    statements: &[Extent],
    left_out: &mut Vec<Extent>,
) -> Result<Option<Extent>, OutOfMemory> {
    for statement in statements.iter().rev() {
        left_out.push(Extent {
            from: statement.from,
            to: body.to,
        })?;
        let answer = answer_without(alloc, ground, left_out.as_slice())?;
        left_out.pop();
        if answer == Answer::Other {
            return Ok(Some(*statement));
        }
    }
    Ok(None)
}

/// The statement in which the cause of the refusal is, or else the body, where either can be told: what is left out is
/// built again.
pub(crate) fn narrowed(alloc: Global, ground: Ground) -> Result<Option<Extent>, OutOfMemory> {
    let bodies = bodies_of(alloc, ground.place)?;
    let mut left_out = Vec::new(alloc);
    if bodies.len() > MOST {
        return Ok(None);
    }
    let Some(body) = body_of(alloc, ground, bodies.as_slice(), &mut left_out)? else {
        return Ok(None);
    };
    let statements = statements_of(alloc, ground.place.text, body)?;
    if statements.len() > MOST {
        return Ok(Some(body));
    }
    match statement_of(alloc, ground, body, statements.as_slice(), &mut left_out)? {
        Some(statement) => Ok(Some(statement)),
        None => Ok(Some(body)),
    }
}
