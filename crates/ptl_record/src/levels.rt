// Internal: counts the sublayers that may have a level.
ghost use Rattle.std.specs.Prelude.{◌≡◌, ◌-◌, ◌≤◌};

// How many sublayers may have a level: all but the highest.
pub fn level_count(sublayers: u8) -> usize
    requires { sublayers ≤ 7 }
    ensures { (result ≡ sublayers - 1) × (result ≤ 6) }
{
    usize::from(sublayers.saturating_sub(1))
}
