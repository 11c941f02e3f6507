// Internal: writes as much of a payload's RBSP as an output has room for, and measures the RBSP.
ghost use Rattle.std.specs.Prelude.{◌≡◌, ◌<◌, ◌^◌, length};
ghost use Rattle.rbsp.specs.Rbsp.{drops, next_zeros, rbsp};
ghost use Rattle.rbsp.specs.inner.Front.{Front};

// Whether a byte is left out: a 03 after two or more zeros.
fn is_dropped(zeros: usize, b: u8) -> bool
    ensures { result ≡ drops zeros b }
{
    if zeros < 2 {
        return false;
    }
    b == 3
}

// How many zeros come directly before the byte after `b`.
fn next_zeros(zeros: usize, b: u8) -> usize
    requires { zeros < 2 ^ 63 }
    ensures { result ≡ next_zeros zeros b }
{
    if b == 0 { zeros + 1 } else { 0 }
}

// The length of the RBSP, without writing it.
pub fn rbsp_len(payload: &[u8]) -> usize
    ensures { result ≡ length (rbsp payload.now) }
{
    let mut zeros: usize = 0;
    let mut n: usize = 0;
    for &b in payload {
        if !is_dropped(zeros, b) {
            n += 1;
        }
        zeros = next_zeros(zeros, b);
    }
    n
}

// Writes as much of the RBSP as there is room for to the front of `out`, and returns how many bytes that is.
pub fn fill_rbsp(payload: &[u8], out: &mut [u8]) -> usize
    ensures { Front (rbsp payload.now) out.old out.new result }
{
    let mut zeros: usize = 0;
    let mut n: usize = 0;
    for &b in payload {
        if !is_dropped(zeros, b) {
            if n == out.len() {
                return n;
            }
            out[n] = b;
            n += 1;
        }
        zeros = next_zeros(zeros, b);
    }
    n
}
