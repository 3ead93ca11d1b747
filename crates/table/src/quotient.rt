// A division, rounded up.
ghost use Rattle.std.specs.Prelude.{◌≡◌};
ghost use Rattle.table.specs.Wire.{ceil_div};

// A quotient, rounded up; 0 for a divisor of 0.
pub fn ceil_div(n: u64, d: u64) -> u64
    ensures { result ≡ ceil_div n d }
{
    if d == 0 { 0 } else { n.div_ceil(d) }
}
