// The realisations.
ghost use Rattle.std.specs.Prelude.{◌≡◌};
ghost use Rattle.dsv_names.specs.Realisations.{is_delta};

use crate::Named;

/// A realisation of a controller: one of the three direct forms, or its delta form.
#[derive(Clone, Copy, Debug, PartialEq, Eq)]
pub enum Realisation {
    /// Direct form I.
    Dfi,
    /// Direct form II.
    Dfii,
    /// Transposed direct form II.
    Tdfii,
    /// Delta direct form I.
    Ddfi,
    /// Delta direct form II.
    Ddfii,
    /// Transposed delta direct form II.
    Tddfii,
}

impl Named for Realisation {
    ghost use Rattle.dsv_names.specs.Realisations.{realisation_name, realisations};

    ghost name_of = { realisation_name };

    ghost all_values = { realisations };

    fn name(self) -> &'static str {
        match self {
            Realisation::Dfi => "DFI",
            Realisation::Dfii => "DFII",
            Realisation::Tdfii => "TDFII",
            Realisation::Ddfi => "DDFI",
            Realisation::Ddfii => "DDFII",
            Realisation::Tddfii => "TDDFII",
        }
    }

    fn all() -> &'static [Realisation] {
        &[
            Realisation::Dfi,
            Realisation::Dfii,
            Realisation::Tdfii,
            Realisation::Ddfi,
            Realisation::Ddfii,
            Realisation::Tddfii,
        ]
    }
}

impl Realisation {
    /// Whether it is a delta form.
    pub fn is_delta(self) -> bool
        ensures { result ≡ is_delta self }
    {
        match self {
            Realisation::Dfi | Realisation::Dfii | Realisation::Tdfii => false,
            Realisation::Ddfi | Realisation::Ddfii | Realisation::Tddfii => true,
        }
    }
}
