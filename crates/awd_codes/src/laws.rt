// What the numbers tell, carried by a contract so that it must be proved.
ghost use Rattle.awd_codes.specs.Laws.{CodeLaws};

use awd_fault::number_laws;

// Returns nothing; that it is proved is what counts.
pub fn code_laws()
    ensures { CodeLaws }
{
    // that numbers tell faults apart
    number_laws();
}
