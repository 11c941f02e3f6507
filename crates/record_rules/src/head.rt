// Internal: the reserved bits of a head, by place.
ghost use Rattle.std.specs.Prelude.{◌≡◌, ◌≤◌};
ghost use Rattle.full.specs.Rules.{flags_reserved, ptl_reserved, head_reserved};
ghost use Rattle.record_rules.specs.inner.Rules.{SmallHead};

use boxes::place;
use full::VvcConfig;

// Whether the bits of the level-flag byte that hold no flag are 0. Up to one sublayer there is no such byte.
fn flags_reserved(sublayers: u8, flags: u8) -> bool
    requires { sublayers ≤ 7 }
    ensures { result ≡ flags_reserved sublayers flags }
{
    sublayers < 2 || flags % (1u8 << (9 - sublayers)) == 0
}

// Whether the reserved bits under the PTL flag are the standard's.
fn ptl_reserved(record: &[u8], head: VvcConfig) -> bool
    requires { SmallHead head }
    ensures { result ≡ ptl_reserved «record».now head }
{
    let flags = 7 + head.native_ptl.num_bytes_constraint_info;
    place::byte(record, 3) % 32 == 31
        && place::byte(record, 4) / 64 == 0
        && flags_reserved(head.num_sublayers, place::byte(record, flags))
}

// Whether the reserved bits of a record's head are the standard's.
#[tactic(auto, unfolding(full::specs::Rules::head_reserved))]
pub fn head_reserved(record: &[u8], head: VvcConfig) -> bool
    requires { SmallHead head }
    ensures { result ≡ head_reserved «record».now head }
{
    place::byte(record, 0) / 8 == 31 && (!head.ptl_present_flag || ptl_reserved(record, head))
}
