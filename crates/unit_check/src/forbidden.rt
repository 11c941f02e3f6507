// Internal: searches for what may not occur in a unit: 00 00 00, 00 00 01, 00 00 02, and 00 00 03 before a byte above 03; tests its last byte.
ghost use Rattle.std.specs.Prelude.{◌≡◌, ◌+◌, ◌<◌, length, drop};
ghost use Rattle.start_code.specs.StartCode.{bytes_before};
ghost use Rattle.unit_check.specs.UnitCheck.{ends_in_zero, above_three, starts_forbidden};

// The first place where they are; the length where there is none. The third byte of a place is looked at first: above 03, none of them begins at
// this place or the next two; unless it is 00, none begins at the next two.
pub fn first_place(u: &[u8]) -> usize
    ensures { result ≡ bytes_before starts_forbidden u.now }
{
    let mut i: usize = 0;
    // No `for`: the byte looked at says how far to step.
    let found = loop {
        if u.len() - i < 3 {
            break u.len();
        }
        let third = u[i + 2];
        if 3 < third {
            i += 3;
        } else if third == 0 {
            if at_place(u, i) {
                break i;
            }
            i += 1;
        } else {
            if at_place(u, i) {
                break i;
            }
            i += 3;
        }
    };
    found
}

// Whether they are at this place, which has two more bytes after it.
fn at_place(u: &[u8], i: usize) -> bool
    requires { i + 2 < length u.now }
    ensures { result ≡ starts_forbidden (drop i u.now) }
{
    if u[i] != 0 {
        return false;
    }
    if u[i + 1] != 0 {
        return false;
    }
    let third = u[i + 2];
    if third < 3 {
        return true;
    }
    if third != 3 {
        return false;
    }
    above_three(u, i + 3)
}

// Whether there is a byte at this place, and it is above 03.
fn above_three(u: &[u8], i: usize) -> bool
    ensures { result ≡ above_three (drop i u.now) }
{
    if u.len() <= i {
        return false;
    }
    3 < u[i]
}

// Whether the last byte is 00.
pub fn ends_in_zero(u: &[u8]) -> bool
    ensures { result ≡ ends_in_zero u.now }
{
    if u.len() == 0 {
        return false;
    }
    let last = u[u.len() - 1];
    last == 0
}
