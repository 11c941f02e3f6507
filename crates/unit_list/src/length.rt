// Internal: the length before an array or a unit, of two or four bytes.
ghost use Rattle.std.specs.Prelude.{◌≡◌, ◌+◌, ◌≤◌, ◌<◌, ◌^◌, length};
ghost use Rattle.boxes.specs.Bytes.{be};
ghost use Rattle.unit_list.specs.inner.Walk.{TwoOrFour};

use boxes::place;

// The number of the two bytes from a place on.
fn two(s: &[u8], at: usize) -> usize
    requires { at + 2 ≤ length s.now }
    ensures { (result ≡ be s.now at 2) × (result < 2 ^ 16) }
{
    usize::from(s[at]) * 256 + usize::from(s[at + 1])
}

// The length of an array, from place `at` up to place `from`. It is computed without a test of the width: there are few arrays, and the test in
// `of_unit` alone is enough for the compiler to make a loop over the units for each width.
pub fn of_array(s: &[u8], at: usize, from: usize, width: usize) -> usize
    requires { TwoOrFour width × (from ≡ at + width) × (from ≤ length s.now) }
    ensures { (result ≡ be s.now at width) × (result < 2 ^ 32) }
{
    let high = two(s, at);
    let low = two(s, from - 2);
    high * ((width - 2) * 32768) + low
}

// The length of a unit, from place `at` up to place `from`.
pub fn of_unit(s: &[u8], at: usize, from: usize, width: usize) -> usize
    requires { TwoOrFour width × (from ≡ at + width) × (from ≤ length s.now) }
    ensures { (result ≡ be s.now at width) × (result < 2 ^ 32) }
{
    if width == 4 {
        return place::number(s, at, 4);
    }
    two(s, from - 2)
}
