// Expand: the head and unit list of the full record that a compact record expands to (SCOPE 3.8).
#![tactic(auto)]

pub mod head;
pub mod parameter_sets;

ghost use Rattle.std.specs.Prelude.{◌≡◌};
ghost use Rattle.parse.specs.Answers.{answer_of};
ghost use Rattle.parse.specs.Outcome.{lent_output};
ghost use Rattle.grouping.specs.inner.TypedUnits.{units_of};
ghost use Rattle.expand.specs.Expand.{expand_units, to_full};
ghost use Rattle.expand.specs.inner.ParameterSets.{with_units};

use compact::CompactVvcConfig;
use error::Refusal;
use full::VvcConfig;
use grouping::groups;
use grouping::units::TypedUnits;

// What the caller knows of the picture.
#[derive(Clone, Copy, Debug, PartialEq, Eq)]
pub struct Picture {
    pub chroma_format_idc: u8,
    pub bit_depth: u8,
    pub width: u32,
    pub height: u32,
}

// What expansion gives: the head, and the length of the unit list in the output.
#[derive(Clone, Copy, Debug, PartialEq, Eq)]
pub struct Expanded {
    pub head: VvcConfig,
    pub list_length: usize,
}

// The head, with the list of the units written to the output. Refusal: 20.
fn put_expanded(head: VvcConfig, units: TypedUnits<'_>, out: &mut [u8]) -> Result<Expanded, Refusal>
    ensures { (answer_of result, out.new) ≡ lent_output (with_units head (units_of units.entry)) out.old }
{
    let list_length = 1 + groups::groups_len(units);
    if out.len() < list_length {
        return Err(Refusal::BufferTooShort);
    }
    groups::put_list(units, out);
    Ok(Expanded { head, list_length })
}

// Expands the units. Refusals: with the flag set 16 and the VPS's; 17, the SPS's, 18, the VPS's, 20.
fn expand_units(
    config: CompactVvcConfig,
    units: TypedUnits<'_>,
    picture: Picture,
    out: &mut [u8],
) -> Result<Expanded, Refusal>
    ensures { (answer_of result, out.new)
        ≡ lent_output (expand_units config picture (units_of units.entry)) out.old }
{
    let ptl = parameter_sets::sets_ptl(config.multi_layer_flag, units)?;
    let head = head::expanded_head(config, picture, ptl);
    put_expanded(head, units, out)
}

// Expands a compact record with the units of a list (the original's `CompactVvcConfig::to_full`); the units go to the output grouped by type.
// Refusals: 23, 21; with the flag set 16 and the VPS's; 17, the SPS's, 18, the VPS's, 20.
pub fn to_full(
    config: CompactVvcConfig,
    list: &[u8],
    picture: Picture,
    out: &mut [u8],
) -> Result<Expanded, Refusal>
    ensures { (answer_of result, out.new) ≡ lent_output (to_full config picture list.now) out.old }
{
    let units = TypedUnits::start(list)?;
    expand_units(config, units, picture, out)
}
