// Rounding of an exact amount: a whole number n of hundred-thousandths of a cent.
ghost use Rattle.std.specs.Prelude.{◌≡◌, ◌≤◌};
ghost use Rattle.fares.specs.Rounding.{upwards, downwards, nearest, rounded};

const UNIT: u64 = 100000;

// An exact amount, and the factor in cents of which it is rounded to a multiple.
#[derive(Clone, Copy)]
pub struct Exact {
    pub n: u64,
    pub factor: u64,
    ghost in_range: { n ≤ 1000000000000000 },
    ghost three_digits: { factor ≤ 999 },
}

impl Exact {
    // The least multiple of the factor that is not below it.
    fn up(self) -> u64
        ensures { result ≡ upwards self.n self.factor }
    {
        if self.factor == 0 {
            return 0;
        }
        let step = self.factor * UNIT;
        (self.n + (step - 1)) / step * self.factor
    }

    // The greatest multiple of the factor that is not above it.
    fn down(self) -> u64
        ensures { result ≡ downwards self.n self.factor }
    {
        if self.factor == 0 {
            return 0;
        }
        let step = self.factor * UNIT;
        self.n / step * self.factor
    }

    // The nearest multiple of the factor, halves up.
    fn near(self) -> u64
        ensures { result ≡ nearest self.n self.factor }
    {
        if self.factor == 0 {
            return 0;
        }
        let step = self.factor * UNIT;
        (2 * self.n + step) / (2 * step) * self.factor
    }

    // As a record's rounding says, which is a byte.
    pub fn rounded(self, mode: u8) -> u64
        ensures { result ≡ rounded mode self.n self.factor }
    {
        match mode {
            b'+' => self.up(),
            b'-' => self.down(),
            b'0' => self.near(),
            b'N' => Exact {
                n: self.n,
                factor: 1,
            }
            .near(),
            _ => 0,
        }
    }
}
