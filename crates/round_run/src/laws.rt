//! The budget law, for the crates above to cite. A call of it costs nothing.
ghost use Rattle.budget_law.specs.Budget.{UnitsAreFew};

/// At a cycle that no task exceeds, the units of a derived and fresh list and of a valid trail are fewer than
/// (n + 1) x 3^n on a straight line of n tasks, and fewer than (n + 1) x 4^n on a U-line.
pub fn units_are_few()
    ensures { UnitsAreFew }
{
    budget_law::laws::units_are_few()
}
