// The definitions, tried on worked examples. A test runs the code; this shows that the definitions which the code
// is proved against give what the format's rules say, as one theorem.
#![tactic(auto)]

ghost use Rattle.awd_examples.specs.Examples.{Examples};

// Returns nothing; that it is proved is what counts.
pub fn worked_examples()
    ensures { Examples }
{}
