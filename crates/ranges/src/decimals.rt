// Decimal numbers and their order: a coefficient divided by 10 to the power of an exponent.
ghost use Rattle.std.specs.Prelude.{◌≡◌, pos, ◌*ℤ◌, ◌≤◌, ◌^◌};
ghost use Rattle.std.specs.Int.Signed.{le_z};
ghost use Rattle.form.specs.Limits.{most_exponent};

// 10 to the power 0 to 18.
const POWERS: [u64; 19] = [
    1,
    10,
    100,
    1000,
    10000,
    100000,
    1000000,
    10000000,
    100000000,
    1000000000,
    10000000000,
    100000000000,
    1000000000000,
    10000000000000,
    100000000000000,
    1000000000000000,
    10000000000000000,
    100000000000000000,
    1000000000000000000,
];

// A number, a / 10^p.
#[derive(Clone, Copy)]
pub(crate) struct Decimal {
    pub(crate) coefficient: i64,
    pub(crate) exponent: u8,
    ghost exponent_bound: { exponent ≤ most_exponent },
}

impl Decimal {
    // Its coefficient times 10 to the power k, which 128 bits hold.
    fn scaled(self, k: u8) -> i128
        requires { k ≤ most_exponent }
        ensures { result ≡ self.coefficient *ℤ pos (10 ^ k) }
    {
        i128::from(self.coefficient) * i128::from(POWERS[usize::from(k)])
    }

    // Whether it is at most the other: a / 10^p at most b / 10^q where a * 10^q is at most b * 10^p.
    pub(crate) fn at_most(self, other: Decimal) -> bool
        ensures { result ≡ le_z (self.coefficient *ℤ pos (10 ^ other.exponent)) (other.coefficient *ℤ pos (10 ^ self.exponent)) }
    {
        self.scaled(other.exponent) <= other.scaled(self.exponent)
    }
}
