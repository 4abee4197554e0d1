ghost use Rattle.std.specs.Prelude.{◌≡◌, IfOk, length};
ghost use Rattle.bsv_types.specs.Named.{HasPlaces, place_of};

use crate::definitions::MethodHeader;
use bsv_bits::OutOfMemory;
use indexmap::IndexMap;
use sqlite_items::Items;
use std::alloc::Global;
use std::marker::Model;

/// The first place of each name.
fn first_places(
    alloc: Global,
    headers: &[MethodHeader],
) -> Result<IndexMap<Vec<u8>, usize>, OutOfMemory>
    ensures { IfOk result (λ places. HasPlaces places.entries (λ key. key.items) headers.now) }
{
    let mut places = IndexMap::new(alloc);
    let mut rest = headers;
    // Of methods of one name the first comes last, and its place stays.
    while let Some((last, front)) = rest.split_last() {
        let name = Vec::from_slice(alloc, last.name.bytes())?;
        places.insert(name, front.len())?;
        rest = front;
    }
    Ok(places)
}

/// The methods of an interface in their order, looked up by their names.
#[derive(Drop)]
pub struct Methods {
    headers: Items<MethodHeader>,
    /// The first place of each name.
    places: IndexMap<Vec<u8>, usize>,
}

impl Model for Methods {
    ghost use Rattle.std.specs.Prelude.{List};
    ghost use Rattle.std.specs.Coded.{codes};
    ghost use Rattle.bsv_types.specs.contracts.types.Ty as ty;
    ghost use Rattle.bsv_types.specs.declared.definitions.MethodHeader.{MethodHeader};
    ghost use Rattle.bsv_types.specs.Named.{HasPlaces};

    ghost Value = { List MethodHeader };

    ghost coded = { Prim.hlevel (codes, ty.the_row.coded) };

    ghost view = { λ m. m.headers };

    ghost invariant = { λ m. HasPlaces m.places.entries (λ key. key.items) m.headers };
}

impl Methods {
    /// These methods.
    pub fn new(alloc: Global, headers: Items<MethodHeader>) -> Result<Methods, OutOfMemory>
        ensures { IfOk result (λ methods. methods ≡ headers) }
    {
        let places = first_places(alloc, headers.as_slice())?;
        Ok(Methods { headers, places })
    }

    /// The methods in their order.
    pub fn as_slice(&self) -> &[MethodHeader]
        ensures { result.now ≡ self.now }
    {
        self.headers.as_slice()
    }

    /// How many methods there are.
    pub fn len(&self) -> usize
        ensures { result ≡ length self.now }
    {
        self.headers.len()
    }

    /// The place of the first method of the name.
    pub fn place(&self, name: &[u8]) -> Option<usize>
        ensures { result ≡ place_of name.now self.now }
    {
        self.places.get(name).copied()
    }
}
