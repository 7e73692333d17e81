// The laws of contents, carried by a contract so that they must be proved.
ghost use Rattle.awd_contents.specs.Laws.{ContentsLaws};

// Returns nothing; that it is proved is what counts.
pub fn contents_laws()
    ensures { ContentsLaws }
{}
