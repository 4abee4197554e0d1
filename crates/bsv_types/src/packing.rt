//! How values pack.

ghost use Rattle.std.specs.Prelude.{◌≡◌, ◌*◌, ◌+◌, ◌/◌, ◌%◌, ◌^◌, ◌<◌, drop, slice_get, None, Some, ℕ, List};
ghost use Rattle.bsv_types.specs.Packing.{Bits, AllFit, bits_together, packed, packed_maybe};

/// A law of packing: the bits of a field are above those of the fields after it, and are the number
/// of the field.
pub fn fields_are_read_back()
    ensures { (xs : List Bits) (k : ℕ) (x : Bits) → AllFit xs → slice_get xs k ≡ Some x
        → packed xs / 2 ^ bits_together (drop (k + 1) xs) % 2 ^ x.width ≡ x.number }
{}

/// A law of packing: a struct is below 2 to its width.
pub fn packed_fits()
    ensures { (xs : List Bits) → AllFit xs → packed xs < 2 ^ bits_together xs }
{}

/// A law of packing: the tag of a Maybe is its bit on top, which is 1 where it is Valid.
pub fn tag_is_on_top()
    ensures valid { (width payload : ℕ) → payload < 2 ^ width
        → packed_maybe width (Some payload) ≡ 2 ^ width + payload }
    ensures invalid { (width : ℕ) → packed_maybe width None ≡ 0 }
{}
