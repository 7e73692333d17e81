// The laws of edits, carried by a contract so that they must be proved.
ghost use Rattle.awd_edits.specs.Laws.{OverlayLaws};

// Returns nothing; that it is proved is what counts.
pub fn overlay_laws()
    ensures { OverlayLaws }
{}
