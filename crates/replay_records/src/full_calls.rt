// Internal: the calls of `ptl`, `full`, `full_read`, `full_write` and `sample_format`.
use error::Refusal;
use full::VvcConfig;
use ptl::VvcPtlRecord;
use record_arrays::ParsedRecord;
use replay_text::shown;
use sample_format::SampleFormat;

// `full_read::parse` and `full_read::parse_strict`: the bytes consumed, the length of the list and the head; on a refusal a head of zeros.
fn put_read(out: &mut [u8], at: usize, r: Result<ParsedRecord<VvcConfig>, Refusal>) -> usize {
    match r {
        Ok(read) => {
            let next = shown::pair(out, at, read.consumed, read.list_length);
            replay_heads::put_full_head(out, next, read.head)
        }
        Err(e) => {
            let next = shown::refused(out, at, e);
            replay_heads::put_full_head(out, next, full::plain_head(0))
        }
    }
}

// `sample_format`
fn format(out: &mut [u8], at: usize, r: Result<SampleFormat, Refusal>) -> usize {
    match r {
        Ok(format) => {
            let chroma = usize::from(format.chroma_format_idc);
            shown::pair(out, at, chroma, usize::from(format.bit_depth))
        }
        Err(e) => shown::refused(out, at, e),
    }
}

// `VvcConfig::bit_depth`
fn depth(out: &mut [u8], at: usize, r: Result<u8, Refusal>) -> usize {
    match r {
        Ok(n) => shown::number(out, at, usize::from(n)),
        Err(e) => shown::refused(out, at, e),
    }
}

// `VvcPtlRecord::num_sublayers` and `VvcPtlRecord::num_bytes_constraint_info`
fn ptl_number(op: u8, p: VvcPtlRecord, out: &mut [u8], at: usize) -> usize {
    if op == 48 {
        return shown::number(out, at, usize::from(VvcPtlRecord::num_sublayers(p)));
    }
    shown::number(out, at, VvcPtlRecord::num_bytes_constraint_info(p))
}

// The calls by their numbers, which are those of the format of a case (crates/replay/README.md).
pub fn answer(
    op: u8,
    fill: u8,
    numbers: &[u8],
    s: &[u8],
    lent: &mut [u8],
    out: &mut [u8],
    at: usize,
) -> usize {
    let head = replay_heads::full_head(numbers, 0, fill);
    match op {
        2 => depth(out, at, VvcConfig::bit_depth(head)),
        32 => put_read(out, at, full_read::parse(s, lent)),
        33 => shown::counted(out, at, full_write::serialize(head, s, lent)),
        34 => format(out, at, sample_format::sample_format(head, s)),
        46 => shown::part(out, at, VvcConfig::sps(s)),
        47 => shown::place(out, at, VvcConfig::sps_at(s)),
        50 => put_read(out, at, full_read::parse_strict(s, lent)),
        53 => shown::counted(out, at, full_write::record_len(head, s)),
        _ => ptl_number(op, head.native_ptl, out, at),
    }
}
