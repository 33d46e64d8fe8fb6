//! What is told of a specification; worked examples.
ghost use Rattle.lexlook_check.specs.Checks.{NothingToldJustOf};
ghost use Rattle.lexlook_check.specs.ConditionExamples.{ConditionExamples};
ghost use Rattle.lexlook_check.specs.DifferenceExamples.{DifferenceExamples};
ghost use Rattle.lexlook_check.specs.LeavingExamples.{LeavingExamples};
ghost use Rattle.lexlook_check.specs.NoticeExamples.{NoticeExamples};
ghost use Rattle.lexlook_check.specs.WarnedRules.{FlexRules, WarnedRules};
ghost use Rattle.lexlook_check.specs.WordExamples.{WordExamples};

use lexspec::one_specification;

/// Nothing is found just of a text that spells a specification within the limits, in which nothing is copied that is not to
/// be.
pub fn nothing_told()
    ensures { NothingToldJustOf }
{
    one_specification();
}

/// Texts without a rule, worked by hand.
pub fn examples_of_leaving()
    ensures { LeavingExamples }
{}

/// What is warned of in pieces of patterns, worked by hand.
pub fn examples_of_notices()
    ensures { NoticeExamples }
{}

/// Rules that walk each line, and those that flex takes otherwise, worked by hand.
pub fn examples_of_warned_rules()
    ensures { WarnedRules }
{}

/// Trailing context behind a rule with a bar, and rules at the end that do not end a scan of flex, worked by hand.
pub fn examples_of_flex_rules()
    ensures { FlexRules }
{}

/// What flex takes otherwise by what a whole specification says, worked by hand.
pub fn examples_of_differences()
    ensures { DifferenceExamples }
{}

/// Conditions that no action enters, or leaves, worked by hand.
pub fn examples_of_conditions()
    ensures { ConditionExamples }
{}

/// What is said of words that have no meaning, and where names are defined or declared, worked by hand.
pub fn examples_of_words()
    ensures { WordExamples }
{}
