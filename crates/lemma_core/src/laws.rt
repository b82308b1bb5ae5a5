//! What is true of all runs of a book, for the crates above to cite.
ghost use Rattle.line_rules.specs.Laws.{EveryEntryHolds};
ghost use Rattle.lemma_core.specs.Laws.{LastAnswerIsLast, HistoryReplays, HistoryIsExact, RunsKeep, HistoryGoesOn};
ghost use Rattle.lemma_core.specs.Laws.{DesksGoOn, OwnEventsGoOn, AloneSeesItsOwn, EntriesGoOn};

/// In a derived list every entry holds: its set has no balance in its number of stations at its cycle.
pub fn every_entry_holds()
    ensures { EveryEntryHolds }
{
    line_rules::laws::every_entry_holds()
}

/// The search through the entries finds the last one that answers, and none exactly where none does.
pub fn last_answer_is_last()
    ensures { LastAnswerIsLast }
{}

/// A history replays to the entries and to the stations of the best balance.
pub fn history_replays()
    ensures { HistoryReplays }
{}

/// Each item of a history is exact at its turn: what is added is new, what is known is known, and what is better is
/// better.
pub fn history_is_exact()
    ensures { HistoryIsExact }
{}

/// Entries stay derived and fresh, and the best balance stays right.
pub fn runs_keep()
    ensures { RunsKeep }
{}

/// A history that goes on only adds entries, its fewest stations only fall, and what was exact stays so.
pub fn history_goes_on()
    ensures { HistoryGoesOn }
{}

/// What the calls of a desk keep is kept by all of them together, and what follows from what was seen follows still.
pub fn desks_go_on()
    ensures { DesksGoOn }
{}

/// What a desk did goes on by what each call adds, also over two stretches.
pub fn own_events_go_on()
    ensures { OwnEventsGoOn }
{}

/// Where a desk is alone, it sees what it does itself and nothing else.
pub fn alone_sees_its_own()
    ensures { AloneSeesItsOwn }
{}

/// The entries seen go on with those that were added, and an item goes on naming the same entry.
pub fn entries_go_on()
    ensures { EntriesGoOn }
{}
