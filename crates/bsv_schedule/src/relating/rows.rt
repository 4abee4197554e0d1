ghost use Rattle.std.specs.Prelude.{◌≡◌, ◌<◌, ◌≤◌, ◌^◌, ℕ, All, IsTrue, IfOk, OnOk, length, map};
ghost use Rattle.std.specs.List.{flat_map};
ghost use Rattle.bsv_design.specs.parts.Kinds.{kind_table};
ghost use Rattle.bsv_design.specs.scheme.Schemes.{design_scheme};
ghost use Rattle.bsv_design.specs.scheme.Seen.{design_data};
ghost use Rattle.bsv_schedule.specs.relating.Related as spec;
ghost use Rattle.bsv_schedule.specs.relating.Related.{names_method};
ghost use Rattle.bsv_schedule.specs.relating.Blocks as blocks;
ghost use Rattle.bsv_schedule.specs.relating.Blocks.{AreRowsBetween, AreRowsOfBlock};
ghost use Rattle.bsv_schedule.specs.relating.Rows.{mark, marks_in, AreMarksOf, AreNotedOf, AreRows, Gains};
ghost use Rattle.bsv_schedule.specs.relating.Users.{AreUsers, IsUserOf, MeetsUser};
ghost use Rattle.bsv_schedule.specs.relating.Uses.{AllNamed};

use crate::relating::related::{Relation, related_by};
use crate::relating::usage::{Usages, Use, User};
use crate::relating::uses::usages;
use bsv_design::{Design, Kind, NamedPart};
use bsv_io::{Gate, NoGate, all_made};
use bsv_prim::Primitive;
use std::alloc::{AllocError, Global};
use std::thread::{Threads, map_indices};

/// Of each element in turn, whether the element of this row clashes with it, and whether it feeds it.
#[derive(Drop)]
pub(crate) struct Row {
    pub clashes: Vec<bool>,
    pub feeds: Vec<bool>,
}

impl Row {
    /// The marks in a relation.
    pub fn marks(&self, relation: Relation) -> &[bool]
        ensures { result.now ≡ marks_in relation self.now }
    {
        match relation {
            Relation::Clashes => self.clashes.as_slice(),
            Relation::Feeds => self.feeds.as_slice(),
        }
    }
}

// Of each method of a kind in turn, whether a call of the first and one of it stand in the relation.
fn related_methods(
    alloc: Global,
    relation: Relation,
    kind: &Kind,
    first: u32,
) -> Result<Vec<bool>, AllocError>
    requires first { first < (kind_table kind.now).methods }
    ensures count { IfOk result (λ noted. length noted.items ≡ (kind_table kind.now).methods) }
    ensures each { IfOk result (λ noted. (m : ℕ) → m < (kind_table kind.now).methods
        → mark noted.items m ≡ spec.related_by relation kind.now first m) }
{
    let mut noted = Vec::new(alloc);
    for method in 0..kind.methods() {
        noted.push(related_by(relation, kind, first, method))?;
    }
    Ok(noted)
}

// Of each method of the used part in turn, whether the use and a call of it stand in the relation.
fn noted_of(
    alloc: Global,
    relation: Relation,
    parts: &[NamedPart],
    own: Use,
) -> Result<Vec<bool>, AllocError>
    requires own { IsTrue (names_method (map (λ p. p.kind) parts.now) own.part own.method) }
    ensures { IfOk result (λ noted.
        AreNotedOf relation (map (λ p. p.kind) parts.now) own noted.items) }
{
    match parts.get(own.part as usize) {
        Some(named) => related_methods(alloc, relation, &named.kind, own.method),
        None => Ok(Vec::new(alloc)),
    }
}

// The element is marked where it meets.
fn mark_if(marks: &mut [bool], meets: bool, element: usize)
    requires { element < length marks.old }
    ensures { Gains marks.old marks.new (λ b. IsTrue meets × (b ≡ element)) }
{
    if meets {
        marks[element] = true;
    }
}

// Those users of a part are marked whose methods are noted of a use of it.
fn mark_users(
    marks: &mut [bool],
    relation: Relation,
    parts: &[NamedPart],
    own: Use,
    noted: &[bool],
    users: &[User],
)
    requires noted { AreNotedOf relation (map (λ p. p.kind) parts.now) own noted.now }
    requires users { All
        (IsUserOf (length marks.old) (map (λ p. p.kind) parts.now) own.part) users.now }
    ensures { Gains marks.old marks.new
        (MeetsUser relation (map (λ p. p.kind) parts.now) own users.now) }
{
    for user in users {
        mark_if(marks, noted[user.method as usize], user.element as usize);
    }
}

// Those users of a part are marked that a use of it meets.
fn mark_use(
    alloc: Global,
    marks: &mut [bool],
    relation: Relation,
    parts: &[NamedPart],
    own: Use,
    users: &[User],
) -> Result<(), AllocError>
    requires own { IsTrue (names_method (map (λ p. p.kind) parts.now) own.part own.method) }
    requires users { All
        (IsUserOf (length marks.old) (map (λ p. p.kind) parts.now) own.part) users.now }
    ensures gains { OnOk result (Gains marks.old marks.new
        (MeetsUser relation (map (λ p. p.kind) parts.now) own users.now)) }
    ensures count { length marks.new ≡ length marks.old }
{
    let noted = noted_of(alloc, relation, parts, own)?;
    mark_users(marks, relation, parts, own, noted.as_slice(), users);
    Ok(())
}

// Of each element in turn, whether this one stands to it in the relation.
fn marks_of(
    alloc: Global,
    relation: Relation,
    parts: &[NamedPart],
    usages: &Usages,
    a: usize,
) -> Result<Vec<bool>, AllocError>
    requires row { a < length usages.now.by_element.items }
    requires named { AllNamed (map (λ p. p.kind) parts.now) usages.now.by_element.items }
    requires users { AreUsers usages.now.by_element.items usages.now.by_part.items }
    ensures { IfOk result (λ marks. AreMarksOf
        relation (map (λ p. p.kind) parts.now) usages.now.by_element.items a marks.items) }
{
    let mut marks = vec![in alloc; false; usages.by_element.len()]?;
    for own in usages.by_element[a].as_slice() {
        mark_use(
            alloc,
            &mut marks,
            relation,
            parts,
            *own,
            usages.users(own.part),
        )?;
    }
    Ok(marks)
}

// The row of an element. Who makes it passes the gate first.
fn row_of<G: Gate>(
    alloc: Global,
    parts: &[NamedPart],
    usages: &Usages,
    gate: &G,
    a: usize,
) -> Result<Row, AllocError>
    requires row { a < length usages.now.by_element.items }
    requires named { AllNamed (map (λ p. p.kind) parts.now) usages.now.by_element.items }
    requires users { AreUsers usages.now.by_element.items usages.now.by_part.items }
    ensures { IfOk result (λ row. (w : Relation) → AreMarksOf
        w (map (λ p. p.kind) parts.now) usages.now.by_element.items a (marks_in w row)) }
{
    gate.pass(a as u64);
    let clashes = marks_of(alloc, Relation::Clashes, parts, usages, a)?;
    let feeds = marks_of(alloc, Relation::Feeds, parts, usages, a)?;
    Ok(Row { clashes, feeds })
}

// The rows of the elements from one on, up to another. A worker passes the gate before it makes a row.
fn rows_between<G: Gate>(
    alloc: Global,
    parts: &[NamedPart],
    usages: &Usages,
    gate: &G,
    from: usize,
    to: usize,
) -> Result<Vec<Row>, AllocError>
    requires order { from ≤ to }
    requires within { to ≤ length usages.now.by_element.items }
    requires named { AllNamed (map (λ p. p.kind) parts.now) usages.now.by_element.items }
    requires users { AreUsers usages.now.by_element.items usages.now.by_part.items }
    ensures { IfOk result (λ rows. AreRowsBetween
        (map (λ p. p.kind) parts.now) usages.now.by_element.items from to rows.items) }
{
    let mut rows = Vec::new(alloc);
    for a in from..to {
        rows.push(row_of(alloc, parts, usages, gate, a)?)?;
    }
    Ok(rows)
}

// How many blocks so many elements are cut into.
fn block_count(count: usize) -> usize
    ensures { result ≡ blocks.block_count count }
{
    count.min(16)
}

// The first element of a block, or the count after the last block.
fn block_start(count: usize, block: usize) -> usize
    requires few { count < 2 ^ 32 }
    requires some { 0 < count }
    requires block { block ≤ blocks.block_count count }
    ensures { result ≡ blocks.block_start count block }
{
    block * count / block_count(count)
}

// The rows of a block.
fn rows_of_block<G: Gate>(
    alloc: Global,
    parts: &[NamedPart],
    usages: &Usages,
    gate: &G,
    block: usize,
) -> Result<Vec<Row>, AllocError>
    requires few { length usages.now.by_element.items < 2 ^ 32 }
    requires block { block < blocks.block_count (length usages.now.by_element.items) }
    requires named { AllNamed (map (λ p. p.kind) parts.now) usages.now.by_element.items }
    requires users { AreUsers usages.now.by_element.items usages.now.by_part.items }
    ensures { IfOk result (λ rows. AreRowsOfBlock
        (map (λ p. p.kind) parts.now) usages.now.by_element.items block rows.items) }
{
    let count = usages.by_element.len();
    let from = block_start(count, block);
    let to = block_start(count, block + 1);
    rows_between(alloc, parts, usages, gate, from, to)
}

// The rows of all blocks, one block after the other.
fn joined(alloc: Global, mut blocks: Vec<Vec<Row>>) -> Result<Vec<Row>, AllocError>
    ensures { IfOk result (λ rows. rows.items
        ≡ flat_map (λ block. block.items) blocks.items) }
{
    let mut rows = Vec::new(alloc);
    while !blocks.is_empty() {
        let mut block = blocks.remove(0);
        rows.append(&mut block)?;
    }
    Ok(rows)
}

/// The rows of a design's elements, one after the other.
pub(crate) fn rows(alloc: Global, design: &Design) -> Result<Vec<Row>, AllocError>
    ensures { IfOk result (λ rows. AreRows
        (design_scheme (design_data design.now)) (length design.now.elements) rows.items) }
{
    let parts = design.parts.as_slice();
    let elements = design.elements.as_slice();
    let usages = usages(alloc, parts, elements)?;
    rows_between(alloc, parts, &usages, &NoGate, 0, usages.by_element.len())
}

/// The rows of a design's elements, in blocks by a worker each, which passes the gate with the element's position before it
/// makes a row.
pub(crate) fn rows_in_parallel<R: Threads + Sync, G: Gate + Sync>(
    rt: &R,
    alloc: Global,
    design: &Design,
    gate: &G,
) -> Result<Vec<Row>, AllocError>
    ensures { IfOk result (λ rows. AreRows
        (design_scheme (design_data design.now)) (length design.now.elements) rows.items) }
{
    let parts = design.parts.as_slice();
    let elements = design.elements.as_slice();
    let usages = usages(alloc, parts, elements)?;
    let count = block_count(usages.by_element.len());
    let made = map_indices(
        rt,
        alloc,
        count,
        &|block| rows_of_block(alloc, parts, &usages, gate, block),
    )?;
    joined(alloc, all_made(alloc, made)?)
}
