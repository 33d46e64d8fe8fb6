//! The plain slow program in the specification language answers the run.

ghost use Rattle.lex_semantics.specs.Spec.{Spec};
ghost use Rattle.lex_semantics.specs.Rules.{rules_of};
ghost use Rattle.lex_semantics.specs.Machine.{Machine, rules_of_machine};
ghost use Rattle.lex_semantics.specs.MachineLaws.{MachineLaws};
ghost use Rattle.lex_semantics.specs.Plain.{run_of};
ghost use Rattle.lex_semantics.specs.PlainMachine.{machine_run};
ghost use Rattle.lex_semantics.specs.ScanLaws.{AnswersTheRun, RowsAreTold};

/// What the plain program answers is the run, of a specification and of a machine.
pub fn plain_run()
    ensures specification { (S : Spec) → AnswersTheRun (rules_of S) (run_of S) }
    ensures machine { (M : Machine) → MachineLaws M → AnswersTheRun (rules_of_machine M) (machine_run M) }
{}

/// The rows that the plain program tells of a machine say how far the turns ask, and where the text starts.
pub fn plain_demand()
    ensures { (M : Machine) → MachineLaws M → RowsAreTold M }
{}
