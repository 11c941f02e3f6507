// Internal: what a question means: the entries in use, the one that is asked for, where its unit lies.
ghost use Rattle.std.specs.Prelude.{◌≡◌, ◌≤◌, length, get_or, take};
ghost use Rattle.parse.specs.Answers.{answer_of};
ghost use Rattle.boxes.specs.Places.{nth, PlaceFits};
ghost use Rattle.directory.specs.Directory.{entries_of_type, asked_for, in_use, part_of_list};

use boxes::Span;
use directory::{Asked, Entry, TYPES};
use error::{LARGEST_INPUT, Refusal};

// How many entries are in use: as many as the totals add up to. Refusals: 23; 1 if they outnumber the directory, which has `room` entries.
pub fn in_use(list: &[u8], totals: &[usize; TYPES], room: usize) -> Result<usize, Refusal>
    ensures { answer_of result ≡ in_use list.now totals.now room }
{
    if LARGEST_INPUT < list.len() {
        return Err(Refusal::InputTooLong);
    }
    let mut left = room;
    for &total in totals {
        if left < total {
            return Err(Refusal::Truncated);
        }
        left -= total;
    }
    Ok(room - left)
}

// The total of a type, 0 for a type that has none.
pub fn total(totals: &[usize; TYPES], t: u8) -> usize
    ensures { result ≡ get_or totals.now t 0 }
{
    totals.get(usize::from(t)).copied().unwrap_or(0)
}

// The first entry of a type.
fn first_of_type(dir: &[Entry], t: u8) -> Option<Entry>
    ensures { result ≡ nth (entries_of_type t dir.now) 0 }
{
    for &e in dir {
        if e.unit_type == t {
            return Some(e);
        }
    }
    None
}

// The entry that is asked for, among the n in use.
pub fn search(dir: &[Entry], n: usize, asked: Asked) -> Option<Entry>
    requires { n ≤ length dir.now }
    ensures { result ≡ asked_for asked (take n dir.now) }
{
    let used = &dir[..n];
    match asked {
        Asked::FirstOfType(t) => first_of_type(used, t),
        Asked::Number(k) => used.get(k).copied(),
    }
}

// Where the unit lies whose entry was found, none where none was. Refusal: 1 if the part passes the list's end.
pub fn unit_place(list: &[u8], found: Option<Entry>) -> Result<Option<Span>, Refusal>
    ensures { (answer_of result ≡ part_of_list list.now found) × PlaceFits list.now result }
{
    let Some(e) = found else {
        return Ok(None);
    };
    if list.len() < e.offset {
        return Err(Refusal::Truncated);
    }
    if list.len() - e.offset < e.len {
        return Err(Refusal::Truncated);
    }
    Ok(Some(Span {
        start: e.offset,
        len: e.len,
    }))
}
