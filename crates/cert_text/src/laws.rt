//! What is true of all texts of certificates, for the crates above to cite.
//!
//! The function does nothing: its contract is the law. So a reader knows where a certificate ends without what follows
//! it.
ghost use Rattle.cert_text.specs.Laws.{NoTextBeginsAnother};

/// No text of a certificate, of any version, begins that of another: two certificates within their ranges whose
/// texts are equal are equal.
pub fn no_text_begins_another()
    ensures { NoTextBeginsAnother }
{}
