//! Examples of command lines.
ghost use Rattle.std.specs.Prelude.{[], ◌∷◌, Some, None, true, false, codes};
ghost use Rattle.lex_command.specs.CommandExamples.{AsksForA, Making, Nothing, ScanningBy};

/// What some command lines ask for.
pub fn command_lines()
    ensures no_words { AsksForA [] (Making [] None false false) }
    ensures bundled { AsksForA (codes "-bv" ∷ []) (Making [] None true true) }
    ensures apart { AsksForA (codes "-b" ∷ codes "-v" ∷ []) (Making [] None true true) }
    ensures no_stats { AsksForA (codes "-n" ∷ codes "-v" ∷ []) (Making [] None false false) }
    ensures names { AsksForA (codes "a" ∷ codes "-ot" ∷ codes "b" ∷ [])
        (Making (codes "a" ∷ codes "b" ∷ []) (Some (codes "t")) false false) }
    ensures behind_separator { AsksForA (codes "--" ∷ codes "-b" ∷ []) (Making (codes "-b" ∷ []) None false false) }
    ensures scan { AsksForA (codes "--scan-spec" ∷ codes "f" ∷ codes "-i" ∷ []) (ScanningBy (codes "f") true) }
    ensures table_with_fold { AsksForA (codes "--scan-table" ∷ codes "f" ∷ codes "-i" ∷ []) Nothing }
    ensures scan_that_makes { AsksForA (codes "--scan-spec" ∷ codes "f" ∷ codes "-b" ∷ []) Nothing }
    ensures value_behind_equals { AsksForA (codes "-o=t" ∷ []) Nothing }
    ensures unknown_flag { AsksForA (codes "-q" ∷ []) Nothing }
    ensures scan_by_input { AsksForA (codes "--scan-spec" ∷ codes "-" ∷ []) Nothing }
    ensures scan_with_separator { AsksForA (codes "--scan-table" ∷ codes "f" ∷ codes "--" ∷ []) Nothing }
{}
