//! What holds of ends, overlap and first wrong moments, and of meetings and partings on paths.
#![tactic(auto)]

ghost use Rattle.geometry_laws.specs.Certificates.{CertificatesRight, CertificatesUsual, CertificatesOne, SidesTold, AllFlipOnce};
ghost use Rattle.geometry_laws.specs.Quick.{QuickRight};
ghost use Rattle.geometry_laws.specs.Turns.{AllTurnsTold, TouchesTold};

/// The first wrong moment of a bit is computed right over all fractions, in least terms, and is the only answer.
pub fn certificates_stand() -> u8
    ensures right { CertificatesRight }
    ensures usual { CertificatesUsual }
    ensures one { CertificatesOne }
{
    0
}

/// On fixed lines a true bit goes wrong at side 1 and a false one at side 0, and a bit flips at most once at a moment.
pub fn flips_stand() -> u8
    ensures sides { SidesTold }
    ensures once { AllFlipOnce }
{
    0
}

/// On any two paths the touches, the meetings and the partings are told by the overlap on the legs.
pub fn turns_stand() -> u8
    ensures touches { TouchesTold }
    ensures turns { AllTurnsTold }
{
    0
}

/// One quotient is enough: by which of two boxes gains on the other.
pub fn quick_stands() -> u8
    ensures { QuickRight }
{
    0
}
