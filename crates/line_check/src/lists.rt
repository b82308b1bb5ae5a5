//! The check of a list of entries in their order.
//!
//! The steps that are left go from entry to entry. So the units of a list are the sum of those of its entries. The
//! check ends where an entry needs a load more than are left.
ghost use Rattle.line_instance.specs.Line.{tasks};
ghost use Rattle.line_rules.specs.Ranges.{AreEntries};
ghost use Rattle.line_check.specs.Lists.{AreFound};

use crate::entries::check_entry;
use crate::types::{Checked, ListFound};
use line_instance::Instance;
use line_rules::{Entries, LineKind};

/// Checks entries in order, each after those before it, up to the first that doesn't follow. At most `steps` loads are
/// walked. Takes no memory.
pub fn check_entries(inst: &Instance, kind: LineKind, entries: &Entries, steps: u64) -> ListFound
    requires range { AreEntries (tasks inst.now) entries.now }
    ensures { AreFound kind inst.now entries.now steps result }
{
    let mut units: u64 = 0;
    for k in 0..entries.len() {
        match check_entry(inst, kind, entries, k, entries.at(k), steps - units) {
            Checked::Right { units: more } => units += more,
            Checked::Fails { why, .. } => {
                return ListFound::Refused {
                    entry: k as u64,
                    why,
                };
            }
            Checked::StepsEnded => return ListFound::StepsEnded,
        }
    }
    ListFound::Right { units }
}
