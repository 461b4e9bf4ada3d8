ghost use Rattle.std.specs.Prelude.{◌≤ℤ◌};
ghost use Rattle.mongo_sasl.specs.Years.{earliest, latest};

/// A moment of the years 0 to 9998, in milliseconds since 1970, UTC.
#[derive(Clone, Copy, Debug, PartialEq, Eq)]
pub struct Moment {
    ms: i64,
    pub ghost least: { earliest ≤ℤ ms },
    pub ghost most: { ms ≤ℤ latest },
}

// The first millisecond of the year 0.
const EARLIEST: i64 = -62_167_219_200_000;

// The last millisecond of the year 9998.
const LATEST: i64 = 253_370_764_799_999;

impl Moment {
    ghost use Rattle.std.specs.Prelude.{◌≡◌};
    ghost use Rattle.mongo_sasl.specs.Moment.{IsMoment, milliseconds_of};

    /// The moment of so many milliseconds since 1970, UTC. None exactly before the year 0 and after the year 9998.
    pub fn new(ms: i64) -> Option<Moment>
        ensures { IsMoment ms result }
    {
        if (EARLIEST..=LATEST).contains(&ms) {
            Some(Moment { ms })
        } else {
            None
        }
    }

    /// The milliseconds since 1970, UTC.
    pub fn ms(&self) -> i64
        ensures { result ≡ milliseconds_of self.now }
    {
        self.ms
    }
}
