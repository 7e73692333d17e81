// The laws of changes, carried by a contract so that they must be proved.
ghost use Rattle.awd_changes.specs.Laws.{ChangeLaws};

// Returns nothing; that it is proved is what counts.
pub fn change_laws()
    ensures { ChangeLaws }
{}
