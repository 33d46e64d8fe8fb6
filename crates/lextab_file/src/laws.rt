//! That tables and their files are one to one, and how bytes are refused.
ghost use Rattle.std.specs.Prelude.{◌≡◌, ◌↔◌, ◌<◌, ℕ, List, ◌++◌, length, None, Some, false};
ghost use Rattle.lex_semantics.specs.Text.{IsText};
ghost use Rattle.lextab_packed.specs.Table.{Table};
ghost use Rattle.lextab_packed.specs.Checks.{IsTable};
ghost use Rattle.lextab_file.specs.File.{file_of, IsFileOf};
ghost use Rattle.lextab_file.specs.Refusals.{is_truncated, read_refusal};
ghost use Rattle.lextab_file.specs.declared.error.TableError.{TableError};
ghost use Rattle.lextab_file.specs.declared.error.TableError.TheVariants.{TrailingBytes, Truncated};
ghost use Rattle.lextab_file.specs.FileExamples.{KeywordFile, StackFile};
ghost use Rattle.lextab_file.specs.FileExamples.{RefusedHeaders, RefusedRules, RefusedStates, RefusedTags, RefusedEnds};

/// Bytes that begin with a table's file begin with no other table's file, and with it in one way: a file is one
/// table's, and no file is a proper prefix of another.
pub fn one_table()
    ensures { (t u : Table) (x y : List ℕ) → IsTable t → IsTable u
        → file_of t ++ x ≡ file_of u ++ y → (t ≡ u) × (x ≡ y) }
{}

/// How bytes are refused: just where they are no table's file, and as cut short where they are the front of one. Any
/// other fault of bytes is told whatever follows them.
pub fn laws_of_refusals()
    ensures file { (bytes : List ℕ) → IsText bytes → (read_refusal bytes ≡ None) ↔ ((t : Table) × IsFileOf t bytes) }
    ensures trailing { (bytes : List ℕ) → IsText bytes → (read_refusal bytes ≡ Some TrailingBytes)
        ↔ ((t : Table) × (rest : List ℕ) × IsTable t × (bytes ≡ file_of t ++ rest) × (0 < length rest)) }
    ensures front { (t : Table) (front rest : List ℕ) → IsTable t → file_of t ≡ front ++ rest → 0 < length rest
        → read_refusal front ≡ Some Truncated }
    ensures first { (bytes rest : List ℕ) (e : TableError) → read_refusal bytes ≡ Some e → is_truncated e ≡ false
        → read_refusal (bytes ++ rest) ≡ Some e }
{}

/// Worked examples of table files: that of two rules, byte for byte, and that of a rule that uses the stack of
/// conditions.
pub fn examples_of_files()
    ensures keywords { KeywordFile }
    ensures stack { StackFile }
{}

/// Worked examples of bytes that are refused: changes of the file of two rules, each with its fault and its offset.
pub fn examples_of_refusals()
    ensures headers { RefusedHeaders }
    ensures rules { RefusedRules }
    ensures states { RefusedStates }
    ensures tags { RefusedTags }
    ensures ends { RefusedEnds }
{}
