//! The law that automata are machines.
ghost use Rattle.lexauto_dfa.specs.Laws.{AutomataAreMachines};

/// An automaton that accepts rules of a sound specification keeps to the laws of machines, with the specification's
/// actions.
pub fn automata_are_machines()
    ensures { AutomataAreMachines }
{}
