// Internal: stores the head of an array of a unit list at a place of lent memory.
ghost use Rattle.std.specs.Prelude.{◌≡◌, [], ◌∷◌, ◌++◌, ◌+◌, ◌≤◌, length};
ghost use Rattle.std.proofs.lemmas.List.Edits.{sets};
ghost use Rattle.boxes.specs.Bytes.{to_be};

use boxes::place;

// Stores what comes before an array's units: the number of bytes after the length, which has `width` bytes, the complete byte, the type.
pub fn put_array_head(
    out: &mut [u8],
    at: usize,
    width: usize,
    rest: usize,
    complete: u8,
    unit_type: u8,
)
    requires { (width ≤ 4) × (at + width + 2 ≤ length out.old) }
    ensures { out.new ≡ sets out.old at (to_be width rest ++ (complete ∷ unit_type ∷ [])) }
{
    place::put_number(out, at, width, rest);
    place::put(out, at + width, complete);
    place::put(out, at + width + 1, unit_type);
}
