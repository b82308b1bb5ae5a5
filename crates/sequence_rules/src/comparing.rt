//! Lists of numbers that are compared.
ghost use Rattle.std.specs.Prelude.{◌≡◌, ◌≤◌, ◌↔◌, IsTrue};
ghost use Rattle.std.specs.List.{AllZip};

/// Whether two lists of numbers are equal.
pub fn is_same(some: &[u64], other: &[u64]) -> bool
    ensures { IsTrue result ↔ some.now ≡ other.now }
{
    some == other
}

/// Whether no start is later than another list has it, at as many stations.
pub fn is_no_later(starts: &[u64], other: &[u64]) -> bool
    ensures { IsTrue result ↔ AllZip (λ a b. a ≤ b) starts.now other.now }
{
    if starts.len() != other.len() {
        return false;
    }
    for k in 0..starts.len() {
        if starts[k] > other[k] {
            return false;
        }
    }
    true
}
