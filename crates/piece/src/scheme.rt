// Settings in range, which jobs are cut with.
ghost use Rattle.std.specs.Prelude.{◌≤◌};

use crate::Settings;
use crate::fault::CutFault;
use crate::kind::Rows;

// A kind of rows, how many pieces bring a job back, and how many there are: each in its range.
#[derive(Clone, Copy, Debug, PartialEq)]
pub struct Scheme {
    pub rows: Rows,
    pub m: u8,
    pub n: u8,
    ghost some: { 1 ≤ m },
    ghost needed: { m ≤ 16 },
    ghost enough: { m ≤ n },
    ghost made: { n ≤ 32 },
}

impl Scheme {
    ghost use Rattle.std.specs.Prelude.{◌≡◌};
    ghost use Rattle.piece.specs.Pieces.{Lawful};
    ghost use Rattle.piece.specs.Schemes.{as_settings};

    // The scheme of settings that are known to be in range.
    pub fn of(settings: Settings) -> Scheme
        requires { Lawful settings }
        ensures { as_settings result ≡ settings }
    {
        Scheme::try_from(settings).unwrap()
    }
}

impl TryFrom<Settings> for Scheme {
    ghost use Rattle.piece.specs.Schemes.{OfSettings};

    type Error = CutFault;

    ghost try_from_gives = { OfSettings };

    fn try_from(settings: Settings) -> Result<Scheme, CutFault> {
        let Settings { rows, m, n } = settings;
        match settings.kind() {
            Ok(rows) if 1 <= m && m <= 16 && m <= n && n <= 32 => Ok(Scheme { rows, m, n }),
            _ => Err(CutFault::Settings { rows, m, n }),
        }
    }
}

impl From<Scheme> for Settings {
    ghost use Rattle.std.specs.Prelude.{◌≡◌};
    ghost use Rattle.piece.specs.Schemes.{as_settings};

    ghost from_gives = { λ scheme settings. settings ≡ as_settings scheme };

    fn from(scheme: Scheme) -> Settings {
        Settings {
            rows: scheme.rows.into(),
            m: scheme.m,
            n: scheme.n,
        }
    }
}
