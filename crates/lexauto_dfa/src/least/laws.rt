//! The law of least automata, and worked examples.
ghost use Rattle.lexauto_dfa.specs.Least.{OneAutomaton};
ghost use Rattle.lexauto_dfa.specs.LeastExamples.{LeastOfA, NotLeast, NotNumbered};

/// Least automata with canonical numbers that accept alike after every word from every start are the same.
pub fn one_automaton()
    ensures { OneAutomaton }
{}

/// Worked examples: the least automaton of the rule `a`, one with states too many, and one with its states numbered
/// anew.
pub fn examples_of_least()
    ensures least { LeastOfA }
    ensures many { NotLeast }
    ensures numbers { NotNumbered }
{}
