// Internal: the search for a start code alone. The walk over a stream has a search of its own inside it (`annex_b::walk::unit_from`).
ghost use Rattle.std.specs.Prelude.{◌≡◌, ◌≤◌, length};
ghost use Rattle.start_code.specs.StartCode.{start_code_from};

// The place of the first 00 00 01 at or after a place; the length where there is none. The third byte of a place is looked at first: unless it is
// 00, none begins at the next two places, and most are above 03, so that none begins here.
pub fn start_code(s: &[u8], from: usize) -> usize
    requires { from ≤ length s.now }
    ensures { (result ≡ start_code_from s.now from) × (result ≤ length s.now) }
{
    let mut i = from;
    // No `for`: the byte looked at says how far to step.
    let found = loop {
        if s.len() - i < 3 {
            break s.len();
        }
        let third = s[i + 2];
        if 3 < third {
            i += 3;
        } else if third == 0 {
            i += 1;
        } else {
            if s[i] == 0 && s[i + 1] == 0 && third == 1 {
                break i;
            }
            i += 3;
        }
    };
    found
}
