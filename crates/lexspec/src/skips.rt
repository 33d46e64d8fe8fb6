//! What is skipped between rules: blank lines, code, blocks. (flex, Format of the Input File.)
ghost use Rattle.std.specs.Prelude.{◌≡◌, ℕ, ◌<◌, List, true, false, length, codes, IfOk, IfErr, IfSome, IfNone, OnErr};
ghost use Rattle.lex_semantics.specs.Reading.{begins};
ghost use Rattle.lexspec.specs.ItemRuns.{Item, IsLine};
ghost use Rattle.lexspec.specs.Items.{starts_rule};
ghost use Rattle.lexspec.specs.SkipViews.{item_of};
ghost use Rattle.lexre_bytes.specs.declared.refusals.SpecErrorKind.TheVariants.{Unclosed};

use lexspec_lines::{SpecErrorKind, is_all_blank, skip_block, split_line, starts_blank};

/// What is skipped.
#[derive(Clone, Copy)]
pub(crate) enum Skip {
    /// A line of blanks or nothing.
    Blank,
    /// A line of code.
    Code,
    /// A block `%{ .. %}`.
    Block,
}

/// What is skipped at the front of a text, and what follows it; None where a rule begins. A block that is left open is
/// `Unclosed`.
pub(crate) fn skip_at(text: &[u8]) -> Result<Option<(Skip, &[u8])>, SpecErrorKind>
    requires some { 0 < length text.now }
    requires no_end { begins (codes "%%") text.now ≡ false }
    ensures found { IfOk result (λ o. IfSome o (λ x. IsLine text.now (item_of x.0) x.1.now)) }
    ensures rule { IfOk result (λ o. IfNone o (starts_rule text.now ≡ true)) }
    ensures shorter { IfOk result (λ o. IfSome o (λ x. length x.1.now < length text.now)) }
    ensures none { OnErr result ((i : Item) (rest : List ℕ) → IsLine text.now i rest → ⊥) }
    ensures fault { IfErr result (λ e. e ≡ Unclosed) }
{
    let (line, after) = split_line(text);
    if is_all_blank(line) {
        return Ok(Some((Skip::Blank, after)));
    }
    if starts_blank(line) {
        return Ok(Some((Skip::Code, after)));
    }
    if !text.starts_with(b"%{") {
        return Ok(None);
    }
    match skip_block(after) {
        Some(rest) => Ok(Some((Skip::Block, rest))),
        None => Err(SpecErrorKind::Unclosed),
    }
}
