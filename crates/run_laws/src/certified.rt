//! What holds of certificates. The function does nothing: its contract is the law, and the check
//! proves it.
ghost use Rattle.run_laws.specs.Certified.{CertificateIsOne};

/// A program has one certificate, if it has any.
pub fn certificate_is_one()
    ensures { CertificateIsOne }
{}
