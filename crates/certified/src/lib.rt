//! At a quiet clock every certificate fails when the paths say: of the machine, and of what the certificate question tells.
#![tactic(auto)]

ghost use Rattle.certified.specs.Histories.{CertificatesFromRest};
ghost use Rattle.certified.specs.Rest.{CertificatesRest};

/// Over all fractions: a pair's certificate fails when the two first do not overlap as they do now, a leg's at the path's next break;
/// and so the certificate question tells it, where the machine is at rest.
pub fn certificates_stand() -> u8
    ensures rest { CertificatesRest }
    ensures told { CertificatesFromRest }
{
    0
}
