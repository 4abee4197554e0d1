use crate::narrowed::{Ground, narrowed};
use bsv_bits::OutOfMemory;
use bsv_flow::{CompileFault, Loaded, Refusal, load};
use bsv_io::{Files, Sink};
use bsv_marks::{
    Extent, LOOPS, Make, STATICS, Source, makes_of, module_in, put_chain, put_limit, put_marked,
    put_name_taken, put_no_module, put_no_rule, put_reads, put_suspects,
};
use bsv_page::Page;
use std::alloc::Global;

/// The sources that were loaded, with their tokens.
fn sources_of(alloc: Global, loaded: &Loaded) -> Result<Vec<Source<'_>>, OutOfMemory> {
    let mut sources = Vec::new(alloc);
    for (name, source) in loaded
        .files
        .as_slice()
        .iter()
        .zip(loaded.sources.as_slice())
    {
        sources.push(Source::new(alloc, name.bytes(), source.bytes())?)?;
    }
    Ok(sources)
}

/// What is at hand: what was loaded, with its tokens, and what makes what.
#[derive(Clone, Copy)]
struct Hand<'a> {
    loaded: &'a Loaded,
    sources: &'a [Source<'a>],
    makes: &'a [Make<'a>],
    file: &'a str,
    top: &'a str,
}

/// Tells what some tokens may have to do with the refusal.
fn put_extent<O: Sink + Drop>(page: &mut Page<O>, ground: Ground, extent: Extent) {
    let table = match ground.refusal {
        Refusal::Loop(_) => LOOPS,
        _ => STATICS,
    };
    put_suspects(page, ground.place.text, extent, table);
}

/// Tells where in a module the cause is.
fn put_statement<O: Sink + Drop>(
    alloc: Global,
    page: &mut Page<O>,
    makes: &[Make],
    ground: Ground,
) -> Result<(), OutOfMemory> {
    let place = ground.place;
    if let Some(extent) = narrowed(alloc, ground)? {
        page.text(b"The cause is in what begins here:\n");
        put_marked(page, place.text, place.text.start(extent.from));
        put_extent(page, ground, extent);
        return Ok(());
    }
    let is_static = matches!(ground.refusal, Refusal::StaticFault(_));
    if !is_static || !put_reads(page, place, makes) {
        page.text(
            b"The cause is in the body of the module, in a condition, or in a method that gives a value:\n",
        );
        put_extent(page, ground, place.extent);
    }
    Ok(())
}

/// Puts the way from the top to a module.
fn put_way<O: Sink + Drop>(
    alloc: Global,
    page: &mut Page<O>,
    hand: Hand,
    module: &[u8],
) -> Result<(), OutOfMemory> {
    if hand.top.as_bytes() == module {
        page.texts(&[module, b" is the top.\n"]);
        return Ok(());
    }
    put_chain(alloc, page, hand.makes, hand.top.as_bytes(), module)
}

/// Tells of a module in whose text something is refused.
fn put_in_module<O: Sink + Drop>(
    alloc: Global,
    page: &mut Page<O>,
    hand: Hand,
    module: &[u8],
    refusal: &Refusal,
) -> Result<(), OutOfMemory> {
    put_way(alloc, page, hand, module)?;
    let Some(place) = module_in(hand.sources, module) else {
        return Ok(());
    };
    let ground = Ground {
        loaded: hand.loaded,
        file: hand.file,
        top: hand.top,
        place,
        refusal,
    };
    put_statement(alloc, page, hand.makes, ground)
}

/// Tells of a module that is made inside itself.
fn put_ring<O: Sink + Drop>(
    alloc: Global,
    page: &mut Page<O>,
    hand: Hand,
    module: &[u8],
) -> Result<(), OutOfMemory> {
    put_way(alloc, page, hand, module)?;
    put_chain(alloc, page, hand.makes, module, module)?;
    page.text(
        b"- a loop over an array makes as many instances; an `if` that ends it does not help\n",
    );
    Ok(())
}

/// Tells of a refusal of building.
fn put_refused<O: Sink + Drop>(
    alloc: Global,
    page: &mut Page<O>,
    hand: Hand,
    refusal: &Refusal,
) -> Result<(), OutOfMemory> {
    match refusal {
        Refusal::StaticFault(name) | Refusal::Loop(name) => {
            return put_in_module(alloc, page, hand, name.bytes(), refusal);
        }
        Refusal::Recursion(name) => return put_ring(alloc, page, hand, name.bytes()),
        Refusal::NoSuchModule(_) => put_no_module(page, hand.sources, hand.top.as_bytes()),
        Refusal::NameTaken(path) => put_name_taken(page, hand.sources, path.bytes()),
        Refusal::Limit(kind, _) => put_limit(page, hand.sources, kind.bytes()),
        Refusal::NoSuchRule(word, name) => {
            put_no_rule(page, hand.sources, word.bytes(), name.bytes())
        }
        _ => {}
    }
    Ok(())
}

/// Tells of a refusal of building, where this was loaded.
fn put_loaded<O: Sink + Drop>(
    alloc: Global,
    loaded: &Loaded,
    names: (&str, &str),
    refusal: &Refusal,
    page: &mut Page<O>,
) -> Result<(), OutOfMemory> {
    let sources = sources_of(alloc, loaded)?;
    let makes = makes_of(alloc, sources.as_slice())?;
    let hand = Hand {
        loaded,
        sources: sources.as_slice(),
        makes: makes.as_slice(),
        file: names.0,
        top: names.1,
    };
    put_refused(alloc, page, hand, refusal)
}

/// Tells the cause of a limit of loading, of which there is no program.
fn put_unloaded<O: Sink + Drop>(refusal: &Refusal, page: &mut Page<O>) {
    if let Refusal::Limit(kind, _) = refusal {
        put_limit(page, &[], kind.bytes());
    }
}

/// Tells the cause of a refusal of 12 to 17 and 26.
pub(crate) fn put_module_cause<F: Files, O: Sink + Drop>(
    alloc: Global,
    files: &mut F,
    names: (&str, &str),
    refusal: &Refusal,
    page: &mut Page<O>,
) -> Result<(), CompileFault> {
    match load(alloc, files, names.0) {
        Ok(loaded) => Ok(put_loaded(alloc, &loaded, names, refusal, page)?),
        Err(CompileFault::Refused(_)) => {
            put_unloaded(refusal, page);
            Ok(())
        }
        Err(fault) => Err(fault),
    }
}
