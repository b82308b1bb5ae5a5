//! A law of certificates' texts. The function does nothing: its contract is the law.
ghost use Rattle.solution_page.specs.CertificateSize.{CertificatesFit};

/// The text of a certificate that is accepted has at most 545 bytes for each of its entries, 9 for each of its units,
/// and 1,000,000 for its other lines.
pub fn certificates_fit()
    ensures { CertificatesFit }
{}
