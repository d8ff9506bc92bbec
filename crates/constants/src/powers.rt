// The powers of ten that a binary64 number holds exactly.
ghost use Rattle.std.specs.Prelude.{◌≡◌, ◌≤◌};
ghost use Rattle.constants.specs.Powers.{power};

const POWERS: [f64; 23] = [
    1e0, 1e1, 1e2, 1e3, 1e4, 1e5, 1e6, 1e7, 1e8, 1e9, 1e10, 1e11, 1e12, 1e13, 1e14, 1e15, 1e16,
    1e17, 1e18, 1e19, 1e20, 1e21, 1e22,
];

// Ten to the power k.
pub fn power_of_ten(k: usize) -> f64
    requires { k ≤ 22 }
    ensures { result ≡ power k }
{
    POWERS[k]
}
