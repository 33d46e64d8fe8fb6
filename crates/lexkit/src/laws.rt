//! The laws of canonical files, and of making and scanning together.
ghost use Rattle.std.specs.Prelude.{◌≡◌, ℕ, List};
ghost use Rattle.lex_semantics.specs.Spec.{Spec};
ghost use Rattle.lex_semantics.specs.SameRules.{SameRules};
ghost use Rattle.lexkit.specs.Canonical.{IsCanonical};
ghost use Rattle.lexkit.specs.CanonicalExamples.{CanonicalOfTwo};
ghost use Rattle.lexkit.specs.FileScans.{FileScans};
ghost use Rattle.lexkit.specs.HeadlineExamples.{HeadlineOfKey};
ghost use Rattle.lexkit.specs.TextTokens.{TextTokens};

use lex_semantics::same_rules_answers;
use lexscan::table_tokens;
use lexspec::one_specification;
use lextab::{examples_of_packings, one_packing, one_table, packing_of_same_moves};

/// Specifications with the same rules, however their patterns are written, have the same canonical file, and each has
/// at most one.
pub fn one_file()
    ensures { (S T : Spec) (f g : List ℕ) → SameRules S T → IsCanonical S f → IsCanonical T g → f ≡ g }
{
    same_rules_answers();
    one_packing();
    packing_of_same_moves();
}

/// A worked example of a canonical file: that of the rule `aa`, whose table is that of the example of a packing.
pub fn example_of_canonical_files()
    ensures { CanonicalOfTwo }
{
    examples_of_packings();
    packing_of_same_moves();
}

/// A worked example of the headline: what it says of one input, and where a write fails.
pub fn example_of_the_headline()
    ensures { HeadlineOfKey }
{
    one_specification();
}

/// A scan by the file of the tables that are made of a specification is a scan by the specification.
pub fn file_scans()
    ensures { FileScans }
{
    one_table();
}

/// The tokens by the tables that are made of a text are those of the specification that the text spells, and the lines
/// of its rules are told.
pub fn text_tokens()
    ensures { TextTokens }
{
    table_tokens();
}
