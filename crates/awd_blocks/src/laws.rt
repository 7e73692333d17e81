// The laws of blocks and of lists of them, carried by a contract so that they must be proved.
ghost use Rattle.awd_blocks.specs.Laws.{BlockLaws};

// Returns nothing; that it is proved is what counts.
pub fn block_laws()
    ensures { BlockLaws }
{}
