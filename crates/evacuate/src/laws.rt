//! Laws of the definitions. Each function has an empty body: its contract is the law.

ghost use Rattle.evacuate.specs.Examples.{EvacuationsOfSmall, TalesOfSmall, WordsOfFrame20};

/// Which words say that a page is busy or pinned, worked out by hand.
pub fn words_of_a_frame()
    ensures { WordsOfFrame20 }
{}

/// What is done in a block of a small machine, answer by answer, worked out by hand.
pub fn evacuations_of_a_small_machine()
    ensures { EvacuationsOfSmall }
{}

/// What a tale has been asked and told, and what is no tale, worked out by hand.
pub fn tales_of_a_small_machine()
    ensures { TalesOfSmall }
{}
