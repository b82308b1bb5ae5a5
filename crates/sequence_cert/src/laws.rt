//! What is true of all texts of certificates of sequences, for the crates above to cite.
ghost use Rattle.sequence_cert.specs.Laws.{NoSequenceTextBeginsAnother};

/// No text of a certificate begins that of another: two certificates within their ranges whose texts are equal are
/// equal.
pub fn no_sequence_text_begins_another()
    ensures { NoSequenceTextBeginsAnother }
{}
