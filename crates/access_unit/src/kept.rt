// Internal: the target, and which units of an item are kept (SCOPE 3.12).
ghost use Rattle.std.specs.Prelude.{◌≡◌, true, ◌+◌, ◌≤◌, ◌^◌, length, Some};
ghost use Rattle.boxes.specs.Parts.{held};
ghost use Rattle.nal.specs.Kinds.{is_record_of};
ghost use Rattle.access_unit.specs.AccessUnit.{target_of, agrees, is_opi, keeps, leading_kind};

use boxes::{Span, place};
use full::VvcConfig;
use nal::{NAL_OPI, UnitKind, header};

// The target: the caller's; if there is none, the head's operating point where its PTL flag is set; else none.
pub fn target_of(head: VvcConfig, tols: Option<u16>) -> Option<u16>
    ensures { result ≡ target_of head tols }
{
    match tols {
        Some(t) => Some(t),
        None if head.ptl_present_flag => Some(head.ols_idx),
        None => None,
    }
}

// Whether an operating point is that of the target; yes without a target.
fn agrees_with(target: Option<u16>, idx: u32) -> bool
    ensures { result ≡ agrees target (Some idx) }
{
    match target {
        Some(t) => u32::from(t) == idx,
        None => true,
    }
}

// Whether an OPI unit of the item is kept: it is dropped if there is a target and its operating point reads and differs.
pub fn opi_kept(unit: &[u8], target: Option<u16>) -> bool
    requires { (is_opi unit.now ≡ true) × (length unit.now ≤ 2 ^ 30) }
    ensures { result ≡ keeps target unit.now }
{
    let Some(idx) = opi::opi_ols_idx(unit).unwrap_or(None) else {
        return true;
    };
    agrees_with(target, idx)
}

// Whether a kind is that of OPI units.
pub fn is_opi(kind: UnitKind) -> bool
    ensures { result ≡ is_record_of 12 kind }
{
    kind == UnitKind::Record(NAL_OPI)
}

// Whether a unit of the kind may lead: AUD and OPI.
pub fn may_lead(kind: UnitKind) -> bool
    ensures { result ≡ leading_kind kind }
{
    match kind {
        UnitKind::Record(t) => t == NAL_OPI,
        UnitKind::Aud => true,
        UnitKind::PictureData(_) => false,
        UnitKind::Other => false,
    }
}

// Whether the unit at span a of the item is kept: all but OPI units with an operating point other than the target's.
pub fn kept_at(item: &[u8], a: Span, target: Option<u16>) -> bool
    requires { (a.start + a.len ≤ length item.now) × (length item.now ≤ 2 ^ 30) }
    ensures { result ≡ keeps target (held item.now a) }
{
    let unit = place::part(item, a);
    let kind = header::kind_of(unit);
    if is_opi(kind) {
        return opi_kept(unit, target);
    }
    true
}
