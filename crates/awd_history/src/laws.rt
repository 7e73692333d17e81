// The laws of histories, carried by a contract so that they must be proved.
ghost use Rattle.awd_history.specs.Laws.{HistoryLaws};

// Returns nothing; that it is proved is what counts.
pub fn history_laws()
    ensures { HistoryLaws }
{}
