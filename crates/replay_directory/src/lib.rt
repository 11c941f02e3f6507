// The calls on a directory of units that `replay` makes. A directory and its totals come from the bytes of the case, and after
// filling they are shown as text.
#![tactic(auto)]

use boxes::{Span, place};
use directory::{Asked, Entry, TYPES};
use error::Refusal;
use replay_text::{fields, shown, text};

// How many entries the directory of a case has.
const ENTRIES: usize = 8;

// What filling returned, and the directory after it.
#[derive(Clone, Copy)]
struct Filled {
    counted: Result<usize, Refusal>,
    after: [Entry; ENTRIES],
}

// Where the unit lies that is asked for, and how many units of a type there are.
#[derive(Clone, Copy)]
struct Answers {
    place: Result<Option<Span>, Refusal>,
    count: Result<usize, Refusal>,
}

// Fills a directory.
fn fill(list: &[u8], before: [Entry; ENTRIES], totals: &mut [usize; TYPES]) -> Filled {
    let mut after = before;
    let counted = directory_fill::fill(list, &mut after, totals);
    Filled { counted, after }
}

// Asks a directory where a unit lies, and how many units of type `t` there are.
fn ask(
    list: &[u8],
    dir: [Entry; ENTRIES],
    totals: &[usize; TYPES],
    asked: Asked,
    t: u8,
) -> Answers {
    let place = directory_ask::nal_unit_at(list, &dir, totals, asked);
    let count = directory_ask::nal_count_of_type(list, &dir, totals, t);
    Answers { place, count }
}

// Asks a directory for a unit.
fn unit<'a>(
    list: &'a [u8],
    dir: [Entry; ENTRIES],
    totals: &[usize; TYPES],
    asked: Asked,
) -> &'a [u8] {
    directory_ask::nal_unit(list, &dir, totals, asked)
}

// The entry at a place: type, offset, length.
fn entry_at(s: &[u8], at: usize) -> Entry {
    Entry {
        unit_type: place::byte(s, at),
        offset: fields::place(s, text::plus(at, 1)),
        len: fields::place(s, text::plus(at, 9)),
    }
}

// A directory from its bytes, 17 for each entry; entries that are missing are zeros.
fn entries_of(s: &[u8]) -> [Entry; ENTRIES] {
    let mut dir = [entry_at(s, 0); ENTRIES];
    for i in 1..ENTRIES {
        dir[i] = entry_at(s, 17 * i);
    }
    dir
}

// Sets the total of a type to a number; there is none above type 63.
fn set_total(totals: &mut [usize; TYPES], t: usize, n: usize) {
    if t < TYPES {
        totals[t] = n;
    }
}

// Sets a total by nine bytes: type, total.
fn set_by(s: &[u8], totals: &mut [usize; TYPES]) {
    let t = usize::from(place::byte(s, 0));
    set_total(totals, t, fields::place(s, 1));
}

// The totals from the numbers of a case, which name some of them from byte 10 on; the others are 0.
fn totals_of(numbers: &[u8]) -> [usize; TYPES] {
    let mut totals = [0usize; TYPES];
    for total in numbers.get(10..).unwrap_or(b"").chunks(9) {
        set_by(total, &mut totals);
    }
    totals
}

// What is asked for: the first of a type, or number k.
fn question(numbers: &[u8]) -> Asked {
    if fields::flag(numbers, 0) {
        return Asked::Number(fields::place(numbers, 2));
    }
    Asked::FirstOfType(place::byte(numbers, 1))
}

// Puts an entry: type, offset, length.
fn put_entry(out: &mut [u8], at: usize, e: Entry) -> usize {
    // `as`: u64 has no From of a usize; nothing is lost.
    let numbers = [u64::from(e.unit_type), e.offset as u64, e.len as u64];
    text::put_numbers(out, at, &numbers)
}

// Puts all entries of a directory.
fn put_entries(out: &mut [u8], at: usize, dir: [Entry; ENTRIES]) -> usize {
    let mut end = at;
    for e in dir {
        end = put_entry(out, end, e);
    }
    end
}

// Puts a type and its total; nothing if the total is 0.
fn put_total(out: &mut [u8], at: usize, t: usize, n: usize) -> usize {
    if n == 0 {
        return at;
    }
    // `as`: u64 has no From of a usize; nothing is lost.
    text::put_numbers(out, at, &[t as u64, n as u64])
}

// Puts every total that is not 0, each after its type.
fn put_totals(out: &mut [u8], at: usize, totals: &[usize; TYPES]) -> usize {
    let mut end = at;
    for t in 0..TYPES {
        end = put_total(out, end, t, totals[t]);
    }
    end
}

// `fill`: the answer, the directory and the totals after the call.
fn put_filled(numbers: &[u8], list: &[u8], dir: &[u8], out: &mut [u8], at: usize) -> usize {
    let mut totals = totals_of(numbers);
    let r = fill(list, entries_of(dir), &mut totals);
    let counted = r.counted;
    let after = r.after;
    let answer_end = shown::counted(out, at, counted);
    let entries_end = put_entries(out, answer_end, after);
    put_totals(out, entries_end, &totals)
}

// `nal_count_of_type` and `nal_unit_at`
fn put_asked(op: u8, numbers: &[u8], list: &[u8], dir: &[u8], out: &mut [u8], at: usize) -> usize {
    let totals = totals_of(numbers);
    let t = place::byte(numbers, 1);
    let r = ask(list, entries_of(dir), &totals, question(numbers), t);
    let count = r.count;
    let place = r.place;
    match op {
        56 => shown::counted(out, at, count),
        _ => shown::place(out, at, place),
    }
}

// `nal_unit`
fn put_unit(numbers: &[u8], list: &[u8], dir: &[u8], out: &mut [u8], at: usize) -> usize {
    let totals = totals_of(numbers);
    shown::part(
        out,
        at,
        unit(list, entries_of(dir), &totals, question(numbers)),
    )
}

// The calls by their numbers, which are those of the format of a case (crates/replay/README.md).
pub fn answer(op: u8, numbers: &[u8], list: &[u8], dir: &[u8], out: &mut [u8], at: usize) -> usize {
    match op {
        55 => put_filled(numbers, list, dir, out, at),
        58 => put_unit(numbers, list, dir, out, at),
        _ => put_asked(op, numbers, list, dir, out, at),
    }
}
