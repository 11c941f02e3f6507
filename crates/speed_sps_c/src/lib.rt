// For speed/run alone: SPS reading as a call for C, the function of the library `speed_sps` under its clause.
#![tactic(auto)]

ghost use Rattle.std.specs.Prelude.{◌≡◌};
ghost use Rattle.sps.specs.Sps.{parse_sps_rbsp};
ghost use Rattle.speed_sps.specs.Numbers.{numbers_of};

use speed_sps::SpsNumbers;

// Reads the head of an SPS from its RBSP. Refusals: those of `SpsHead::parse_rbsp`.
#[unsafe(no_mangle)]
pub extern "C" fn speed_sps(rbsp: &[u8]) -> SpsNumbers
    ensures { result ≡ numbers_of (parse_sps_rbsp rbsp.now) }
{
    speed_sps::speed_sps(rbsp)
}
