// Internal: the walk over a stream from start code to start code.
ghost use Rattle.std.specs.Prelude.{◌≡◌, [], ◌∷◌, ◌+◌, ◌-◌, ◌^◌, ◌≤◌, ◌<◌, length, take, drop};
ghost use Rattle.parse.specs.Outcome.{accept};
ghost use Rattle.parse.specs.Answers.{answer_of};
ghost use Rattle.annex_b.specs.Stream.{trim, non_empty, stream_units_from};
ghost use Rattle.annex_b.specs.Answers.{first_next};

use boxes::Span;
use error::Refusal;
use split::NextUnit;

// The first unit whose start code is at or after a place, and the place to continue from. The inner loop scans for the next 00 00 01 and yields its
// place by `break`; where none follows, it leaves the walk. The third byte of a place is looked at first: unless it is 00, none begins at the next
// two places, and most are above 03, so that none begins here.
pub fn unit_from(s: &[u8], from: usize) -> Result<Option<NextUnit>, Refusal>
    requires { from ≤ length s.now }
    ensures { answer_of result ≡ accept (first_next (stream_units_from s.now from)) }
{
    let mut i = from;
    // after the last start code; before the first, the end, from which on there are no bytes
    let mut start = s.len();
    // No `for`: the byte looked at says how far to step.
    let len = 'walk: loop {
        let code = loop {
            if s.len() - i < 3 {
                break 'walk trimmed(s, start, s.len());
            }
            let third = s[i + 2];
            if 3 < third {
                i += 3;
            } else if third == 0 {
                i += 1;
            } else {
                if s[i] == 0 && s[i + 1] == 0 && third == 1 {
                    break i;
                }
                i += 3;
            }
        };
        let len = trimmed(s, start, code);
        if 0 < len {
            break 'walk len;
        }
        start = code + 3;
        i = start;
    };
    unit_at(start, len)
}

// The unit that begins at a place, and the place after it; the end where it has no bytes.
fn unit_at(start: usize, len: usize) -> Result<Option<NextUnit>, Refusal>
    requires { start + len < 2 ^ 63 }
    ensures { answer_of result ≡ accept (first_next (non_empty (record { start = start; len = len } ∷ []))) }
{
    if len == 0 {
        return Ok(None);
    }
    let after = start + len;
    Ok(Some(NextUnit {
        unit: Span { start, len },
        next: after,
    }))
}

// How many of the bytes between two places are left when trailing zeros are cut off; none where the first place is not before the second.
pub fn trimmed(s: &[u8], from: usize, to: usize) -> usize
    requires { to ≤ length s.now }
    ensures { (result ≡ length (trim (take (to - from) (drop from s.now)))) × (result ≤ to - from) }
{
    for i in (from..to).rev() {
        if s[i] != 0 {
            return i + 1 - from;
        }
    }
    0
}
