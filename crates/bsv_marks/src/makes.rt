use crate::lines::line_of;
use crate::text::{Source, Text};
use bsv_bits::OutOfMemory;
use bsv_io::Sink;
use bsv_page::Page;
use std::alloc::{AllocError, Global};

/// An instance that is made in the text of a module: its source, the names of the module, of the instance and of the
/// maker, and the place of the instance's name.
#[derive(Clone, Copy)]
pub struct Make<'a> {
    pub text: Text<'a>,
    pub parent: &'a [u8],
    pub name: &'a [u8],
    pub maker: &'a [u8],
    pub at: usize,
}

/// A make on the way from the top, and the number of the one after it.
#[derive(Clone, Copy)]
struct Step<'a> {
    make: Make<'a>,
    next: Option<usize>,
}

/// The place of the name in front of an arrow, and of the brackets between them.
fn named_before(text: Text, arrow: usize) -> usize {
    let mut depth = 0i64;
    for back in 1..arrow {
        let at = arrow.wrapping_sub(back);
        match text.word(at) {
            b"]" => depth = depth.wrapping_add(1),
            b"[" => depth = depth.wrapping_sub(1),
            _ => {
                if depth == 0 {
                    return at;
                }
            }
        }
    }
    arrow
}

/// Adds what is made in one source: what a name without a call comes after an arrow.
fn add_makes<'a>(text: Text<'a>, makes: &mut Vec<Make<'a>>) -> Result<(), AllocError> {
    let mut parent: &[u8] = b"";
    for arrow in 0..text.tokens.len() {
        let maker = arrow.wrapping_add(1);
        if text.is(arrow, b"module") {
            parent = text.word(maker);
        }
        let is_call = matches!(text.word(arrow.wrapping_add(2)), b"." | b"[");
        if text.is(arrow, b"<-") && !is_call {
            let at = named_before(text, arrow);
            makes.push(Make {
                text,
                parent,
                name: text.word(at),
                maker: text.word(maker),
                at,
            })?;
        }
    }
    Ok(())
}

/// All that is made in the sources, in the order of the text.
pub fn makes_of<'a>(
    alloc: Global,
    sources: &'a [Source<'_>],
) -> Result<Vec<Make<'a>>, OutOfMemory> {
    let mut makes = Vec::new(alloc);
    for source in sources {
        add_makes(source.text(), &mut makes)?;
    }
    Ok(makes)
}

/// Whether the way has a make in the text of the module already.
fn has_parent(steps: &[Step], parent: &[u8]) -> bool {
    for step in steps {
        if step.make.parent == parent {
            return true;
        }
    }
    false
}

/// Adds what makes the module, from other modules than before.
fn add_makers<'a>(
    makes: &[Make<'a>],
    module: &[u8],
    next: Option<usize>,
    steps: &mut Vec<Step<'a>>,
) -> Result<(), AllocError> {
    for make in makes {
        if make.maker == module && !has_parent(steps.as_slice(), make.parent) {
            steps.push(Step { make: *make, next })?;
        }
    }
    Ok(())
}

/// Goes from a module back to what makes it, until the top is met. The answer is the first step from the top.
fn searched<'a>(
    makes: &[Make<'a>],
    top: &[u8],
    module: &[u8],
    steps: &mut Vec<Step<'a>>,
) -> Result<Option<usize>, AllocError> {
    add_makers(makes, module, None, steps)?;
    for turn in 0..makes.len() {
        let Some(step) = steps.get(turn).copied() else {
            return Ok(None);
        };
        if step.make.parent == top {
            return Ok(Some(turn));
        }
        add_makers(makes, step.make.parent, Some(turn), steps)?;
    }
    Ok(None)
}

/// The steps from one on, each as `mkTop makes mkLeaf as leaf (Top.bsv, line 3)`.
fn put_steps<O: Sink + Drop>(page: &mut Page<O>, steps: &[Step], first: Option<usize>) {
    let mut at = first;
    for _ in 0..steps.len() {
        let Some(number) = at else {
            return;
        };
        let Some(step) = steps.get(number) else {
            return;
        };
        let make = step.make;
        let (line, _) = line_of(make.text.bytes, make.text.start(make.at));
        page.texts(&[
            b"  ",
            make.parent,
            b" makes ",
            make.maker,
            b" as ",
            make.name,
        ]);
        page.texts(&[b" (", make.text.file, b", line "]);
        page.number(line);
        page.text(b")\n");
        at = step.next;
    }
}

/// Puts the modules from one to another that is made in it, with the line where each is made.
pub fn put_chain<O: Sink + Drop>(
    alloc: Global,
    page: &mut Page<O>,
    makes: &[Make],
    from: &[u8],
    to: &[u8],
) -> Result<(), OutOfMemory> {
    let mut steps = Vec::new(alloc);
    let first = searched(makes, from, to, &mut steps)?;
    page.texts(&[b"From ", from, b" to ", to, b":\n"]);
    put_steps(page, steps.as_slice(), first);
    Ok(())
}
