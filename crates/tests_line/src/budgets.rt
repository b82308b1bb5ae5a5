//! The law is called once.
use budget_law::laws::units_are_few;

#[test]
fn the_law_is_called() {
    units_are_few();
}
