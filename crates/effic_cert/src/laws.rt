//! What is true of all texts of certificates of products, for the crates above to cite.
ghost use Rattle.effic_cert.specs.Laws.{NoProductTextBeginsAnother};

/// No text of a certificate, of either version, begins that of another: two certificates within their ranges whose
/// texts are equal are equal, and so are the versions.
pub fn no_product_text_begins_another()
    ensures { NoProductTextBeginsAnother }
{}
