//! Worked examples.

ghost use Rattle.std.specs.Prelude.{ℕ, Bool, true, false, List, [], ◌∷◌, ◌++◌, codes, replicate};
ghost use Rattle.lex_semantics.specs.Spec.{Head, Trail};
ghost use Rattle.lex_semantics.specs.Sound.{IsSound};
ghost use Rattle.lex_semantics.specs.Reports.{Useless, BackWord};
ghost use Rattle.lex_semantics.specs.SameRules.{SameRules};
ghost use Rattle.lex_semantics.specs.MachineLaws.{MachineLaws, StaysBelow, Rejects};
ghost use Rattle.lex_semantics.specs.Examples as E;
ghost use Rattle.lex_semantics.specs.MachineExamples as M;

/// Which match is taken.
pub fn examples_of_matching()
    ensures nothing_echoes { E.Writes E.nothing (codes "abc" ++ 10 ∷ []) (codes "abc" ++ 10 ∷ []) 0 }
    ensures nothing_of_nothing { E.Writes E.nothing [] [] 0 }
    ensures keys_written { E.Writes E.keys (codes "if 42 x") (codes "K N x") 0 }
    ensures keyword_first { E.Writes E.keyword_or_word (codes "if iff") (codes "K I") 0 }
    ensures backs_up { E.Writes E.abc (codes "abab") (codes "abab") 0 }
    ensures interval_on_item { E.Writes E.two_bs (codes "abbabab") (codes "Xabab") 0 }
    ensures context_counts { E.Writes E.longer_by_context (codes "abc") (codes "1bc") 0 }
    ensures folded_before_negated { E.Writes E.not_a (codes "bAb") (codes "NAN") 0 }
    ensures ordinary_dollar { E.Writes E.dollar_inside (codes "a$bA") (codes "XY") 0 }
{}

/// What actions do: yymore, yyless and REJECT.
pub fn examples_of_actions()
    ensures more_appends { E.Writes E.mega (codes "mega-kludge") (codes "mega-mega-kludge") 0 }
    ensures less_returns { E.Writes E.foobar (codes "foobar") (codes "foobarbar") 0 }
    ensures reject_goes_on { E.Writes E.all_fronts (codes "abcd") (codes "abcdabcaba") 0 }
    ensures less_counts_the_kept { E.Writes E.less_of_more (codes "aab") (codes "aabab") 0 }
    ensures default_echoes_all { E.Writes E.only_more (codes "ab") (codes "ab") 0 }
    ensures kept_is_dropped { E.Writes E.only_more (codes "a") [] 0 }
    ensures later_rule_as_long { E.Writes E.rejected (codes "ab") (codes "abW") 0 }
    ensures one_by_one { E.Writes E.one_by_one (codes "aaaaa") [] 0 }
    ensures reject_keeps_more { E.Writes E.rejects_after_more (codes "xab") (codes "xab") 0 }
    ensures echo_after_less { E.Writes (E.echoes_after_less 1) (codes "ab") (codes "ab") 0 }
    ensures less_of_a_shorter_text { E.Writes E.brackets_after_less (codes "ab") (codes "[ab]") 0 }
{}

/// Trailing context, line starts and start conditions.
pub fn examples_of_places()
    ensures lines_trimmed { E.Writes E.trim_lines (codes "a  " ++ 10 ∷ codes "b  ") (codes "a" ++ 10 ∷ codes "b  ") 0 }
    ensures context_returned { E.Writes E.before_cd (codes "abcdab") (codes "[ab]cdab") 0 }
    ensures line_starts { E.Writes E.first_a (codes "aa" ++ 10 ∷ codes "a") (codes "Aa" ++ 10 ∷ codes "A") 0 }
    ensures open_comment { E.Writes E.comments (codes "a/*b*/c/*d") (codes "acopen") 3 }
    ensures line_of_the_match { E.Writes E.line_after_more (codes "xa") (codes "xa") 0 }
    ensures reject_keeps_begin { E.Writes E.rejects_after_begin (codes "ab") (codes "AC") 0 }
    ensures exclusive { E.Writes (E.switched true) (codes "abcb") (codes "bB") 0 }
    ensures inclusive { E.Writes (E.switched false) (codes "abcb") (codes "BB") 0 }
{}

/// The stack of conditions: what a push puts there and a pop takes, when they are at fault, and that REJECT keeps it.
pub fn examples_of_stacks()
    ensures nested { E.Writes E.parentheses (codes "(a())b") (codes "<a<>>b") 0 }
    ensures pushes_the_next { E.Writes E.pushes_after_begin (codes "abc") (codes "C") 0 }
    ensures empty { E.Faults E.pops_nothing (codes "xa") (codes "xA") }
    ensures full { E.Writes E.only_pushes (replicate 255 97) [] 0 }
    ensures over_full { E.Faults E.only_pushes (replicate 256 97) [] }
    ensures kept_by_reject { E.Writes E.rejects_after_push (codes "ab") (codes "Ab") 0 }
{}

/// How scans end.
pub fn examples_of_ends()
    ensures exits { E.Writes E.exit_after_ab (codes "abXYZ") [] 7 }
    ensures exits_after_more { E.Writes E.exit_after_bs (codes "abXYZ") [] 7 }
    ensures end_rule { E.Writes E.says_end (codes "x") (codes "xend" ++ 10 ∷ []) 0 }
    ensures end_rule_alone { E.Writes E.says_end [] (codes "end" ++ 10 ∷ []) 0 }
{}

/// How many bytes are taken, and where the held ones begin, after each turn of some machines.
pub fn examples_of_demand()
    ensures taken_by_exit { M.HasTurnRows M.exit_after_ab (codes "abXYZ") ((2, 2) ∷ []) }
    ensures taken_after_more { M.HasTurnRows M.exit_after_bs (codes "abXYZ") ((3, 2) ∷ []) }
    ensures taken_by_keys { M.HasTurnRows M.keys (codes "if 42 x") ((2, 2) ∷ (3, 3) ∷ (5, 5) ∷ (6, 6)
        ∷ (7, 7) ∷ (7, 7) ∷ []) }
    ensures held_after_backing_up { M.HasTurnRows M.abc (codes "abab") ((3, 1) ∷ (3, 2) ∷ (4, 3) ∷ (4, 4) ∷ (4, 4) ∷ []) }
    ensures held_context { M.HasTurnRows M.before_cd (codes "abcdab") ((4, 2) ∷ (4, 3) ∷ (4, 4) ∷ (6, 5)
        ∷ (6, 6) ∷ (6, 6) ∷ []) }
    ensures held_one_by_one { M.HasTurnRows M.one_by_one (codes "aaaaa") ((5, 1) ∷ (5, 2) ∷ (5, 3) ∷ (5, 4)
        ∷ (5, 5) ∷ (5, 5) ∷ []) }
{}

/// Which specifications are sound: the cut is that of the head, if that has a fixed length, and an end prints at most
/// 4,096 bytes.
pub fn examples_of_soundness()
    ensures head_cuts { IsSound (E.cut_by (Head 2)) }
    ensures trail_does_not { IsSound (E.cut_by (Trail 2)) → ⊥ }
    ensures shorter_cut { IsSound (E.cut_by (Head 1)) → ⊥ }
    ensures trail_cuts { IsSound E.trim_lines }
    ensures longest_end { IsSound (E.ends_with_bytes 4096) }
    ensures longer_end { IsSound (E.ends_with_bytes 4097) → ⊥ }
{}

/// Which rules are useless, and which texts are back words.
pub fn examples_of_reports()
    ensures later_rule { Useless (E.many_or_two false) 1 }
    ensures first_rule { Useless (E.many_or_two false) 0 → ⊥ }
    ensures no_rule { Useless (E.many_or_two false) 2 → ⊥ }
    ensures later_with_reject { Useless (E.many_or_two true) 1 → ⊥ }
    ensures never_fits { Useless E.nothing_or_a 0 }
    ensures longer_fits { (line_start : Bool) → BackWord E.abc 0 line_start (codes "ab") }
    ensures one_byte { (line_start : Bool) → BackWord E.abc 0 line_start (codes "a") → ⊥ }
    ensures whole_word { (line_start : Bool) → BackWord E.abc 0 line_start (codes "abc") → ⊥ }
    ensures dead_word { (line_start : Bool) → BackWord E.abc 0 line_start (codes "ad") → ⊥ }
    ensures fits_itself { (line_start : Bool) → BackWord E.all_fronts 0 line_start (codes "ab") → ⊥ }
    ensures no_condition { (line_start : Bool) → BackWord E.abc 1 line_start (codes "ab") → ⊥ }
{}

/// How many states machines have, whether their rules have REJECT, and that an action of a machine may print twice.
pub fn examples_of_machines()
    ensures five_states { StaysBelow M.abc 5 }
    ensures no_fewer { StaysBelow M.abc 4 → ⊥ }
    ensures some_state { StaysBelow M.nothing 0 → ⊥ }
    ensures no_reject { Rejects M.abc false }
    ensures not_some { Rejects M.abc true → ⊥ }
    ensures some_reject { Rejects M.many_or_two true }
    ensures not_none { Rejects M.many_or_two false → ⊥ }
    ensures prints_twice { MachineLaws M.prints_twice }
{}

/// Which specifications have the same rules.
pub fn examples_of_same_rules()
    ensures written_in_two_ways { SameRules (E.echoing E.many) (E.echoing E.one_and_any) }
    ensures other_words { SameRules (E.echoing E.many) (E.echoing (E.string (codes "aa"))) → ⊥ }
    ensures other_statements { SameRules (E.echoing E.many) (E.of_rules (E.rule E.many [] ∷ [])) → ⊥ }
    ensures other_count { SameRules (E.echoing E.many) E.nothing → ⊥ }
    ensures other_end { SameRules (E.ends_with_bytes 1) (E.ends_with_bytes 2) → ⊥ }
    ensures other_text { SameRules (E.cut_by (Head 2)) (E.of_rules (E.rule (E.string (codes "abcd")) [] ∷ [])) → ⊥ }
{}
