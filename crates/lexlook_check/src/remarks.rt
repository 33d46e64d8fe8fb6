//! What is said of what stands at the place of a fault, where that is known from flex or from elsewhere.
ghost use Rattle.std.specs.Prelude.{◌≡◌};
ghost use Rattle.lexlook_check.specs.Remarks.{fault_remark, interval_remark, is_of_file, line_remark, name_remark, operand_remark, pattern_remark, quote_remark, remark, remark_told, statement_remark};

use crate::findings::What;
use crate::returns::has_lone_return;
use lexre_bytes::split_name;
use lexspec::{PatternErrorKind, SpecErrorKind};

/// What is said of a carriage return that ends no line.
const CARRIAGE: &str = "a carriage return without a newline behind it ends no line; ";

/// What is said of rules in braces.
const LIST: &str =
    "rules in braces behind a condition list are not read, and each rule begins with its list; ";

/// What is said of a class less another or more.
const CLASS: &str =
    "no class is taken from another or added to one, and a class has all its bytes itself; ";

/// What is said of a group with flags.
const FLAGS: &str =
    "a group with flags is not read, and a letter of both cases is a class, as `[Aa]`, or by -i; ";

/// What is said of a comment among rules.
const COMMENT: &str = "a comment among rules stands behind a blank; ";

/// What is said of a block as an action.
const BLOCK: &str = "a block is no action, and braces alone hold several statements; ";

/// What is said of a format.
const FORMAT: &str = "a format has `%s` once, for yytext, and `%%` for a `%`; ";

/// What is said of a character constant.
const CONSTANT: &str = "no character constant is read, and what is written stands in a string; ";

/// What is said of return.
const RETURN: &str = "what a parser is to read is written, as by puts(\"NAME\"); ";

/// What is said of bytes that are read or put back.
const UNPUT: &str = "bytes are read and given back by rules and yyless alone; ";

/// What is said of a byte order mark.
const MARK: &str = "a byte order mark stands before the first line, and is no part of it; ";

/// What is said of a table file.
const TABLE: &str = "this begins as a table file, which `lex --scan-table` reads; ";

/// What is said of an interval at this text, where `around` begins with the byte before it.
fn interval_remark(around: &[u8], rest: &[u8]) -> &'static str
    ensures { result.now ≡ interval_remark around.now rest.now }
{
    if around.starts_with(b">{") {
        LIST
    } else if rest.starts_with(b"{-}") || rest.starts_with(b"{+}") {
        CLASS
    } else {
        ""
    }
}

/// What is said of something to repeat or to choose that is not there.
fn operand_remark(around: &[u8], rest: &[u8]) -> &'static str
    ensures { result.now ≡ operand_remark around.now rest.now }
{
    if around.starts_with(b"(?") {
        FLAGS
    } else if rest.starts_with(b"/*") {
        COMMENT
    } else if around == b">".as_slice() {
        LIST
    } else {
        ""
    }
}

/// What is said of a pattern.
fn pattern_remark(kind: PatternErrorKind, around: &[u8], rest: &[u8]) -> &'static str
    ensures { result.now ≡ pattern_remark kind around.now rest.now }
{
    match kind {
        PatternErrorKind::BadInterval => interval_remark(around, rest),
        PatternErrorKind::MissingOperand => operand_remark(around, rest),
        _ => "",
    }
}

/// What is said of a name that statements of flex have.
fn name_remark(name: &[u8]) -> &'static str
    ensures { result.now ≡ name_remark name.now }
{
    if name == b"return".as_slice() {
        RETURN
    } else if name == b"unput".as_slice() || name == b"input".as_slice() {
        UNPUT
    } else {
        ""
    }
}

/// What is said of what is no statement.
fn statement_remark(around: &[u8], rest: &[u8]) -> &'static str
    ensures { result.now ≡ statement_remark around.now rest.now }
{
    if rest.starts_with(b"%{") {
        BLOCK
    } else if rest.starts_with(b"%") {
        FORMAT
    } else if around.starts_with(b"'") {
        CONSTANT
    } else {
        name_remark(split_name(rest).0)
    }
}

/// What is said of a string without its end.
fn quote_remark(around: &[u8]) -> &'static str
    ensures { result.now ≡ quote_remark around.now }
{
    if around.starts_with(b"'") {
        CONSTANT
    } else {
        ""
    }
}

/// What is said of a line of the definitions section.
fn line_remark(rest: &[u8]) -> &'static str
    ensures { result.now ≡ line_remark rest.now }
{
    if rest.starts_with(&[239, 187, 191]) {
        MARK
    } else {
        ""
    }
}

/// What is said of what stands at the place of a fault.
fn remark(kind: SpecErrorKind, around: &[u8], rest: &[u8]) -> &'static str
    ensures { result.now ≡ remark kind around.now rest.now }
{
    match kind {
        SpecErrorKind::Pattern(error) => pattern_remark(error.kind, around, rest),
        SpecErrorKind::UnknownStatement => statement_remark(around, rest),
        SpecErrorKind::Unclosed => quote_remark(around),
        SpecErrorKind::BadDefinitionLine => line_remark(rest),
        _ => "",
    }
}

/// Whether a text that is refused so may be no specification at all.
fn is_of_file(kind: SpecErrorKind) -> bool
    ensures { result ≡ is_of_file kind }
{
    match kind {
        SpecErrorKind::NoRulesSection | SpecErrorKind::BadDefinitionLine => true,
        _ => false,
    }
}

/// What is said of a fault of a text, at this place of a line.
fn fault_remark(whole: &[u8], kind: SpecErrorKind, at: usize, line: &[u8]) -> &'static str
    ensures { result.now ≡ fault_remark whole.now kind at line.now }
{
    if is_of_file(kind) && whole.starts_with(b"LEXTAB") {
        return TABLE;
    }
    if has_lone_return(line) || (is_of_file(kind) && has_lone_return(whole)) {
        return CARRIAGE;
    }
    let around = line.get(at.saturating_sub(1)..).unwrap_or(b"");
    let rest = line.get(at..).unwrap_or(b"");
    remark(kind, around, rest)
}

/// What is said of a fault of a text, at this place of a line, or at its beginning.
pub(crate) fn remark_told(whole: &[u8], what: What, at: Option<usize>, line: &[u8]) -> &'static str
    ensures { result.now ≡ remark_told whole.now what at line.now }
{
    match what {
        What::Fault(kind) => fault_remark(whole, kind, at.unwrap_or(0), line),
        _ => "",
    }
}
