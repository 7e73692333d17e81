// The laws that every shape keeps, carried by a contract so that they must be proved.
ghost use Rattle.awd_format.specs.Laws.{ShapeLaws};

// Returns nothing; that it is proved is what counts.
pub fn shape_laws()
    ensures { ShapeLaws }
{}
