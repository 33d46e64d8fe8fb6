//! What is wrong with a text, and what is warned of.
ghost use Rattle.std.specs.Prelude.{◌≡◌, ◌≤◌, ◌==◌, Some, List, ℕ, IfOk, length, map};
ghost use Rattle.lex_semantics.specs.Limits.{max_file_bytes, max_positions, max_states};
ghost use Rattle.lexkit.specs.Headline.{reading};
ghost use Rattle.lexspec.specs.Views.{spec_of};
ghost use Rattle.lexlook_check.specs.Checks.{AreNoticesOf, IsChecked, IsNoted, has_useless, is_well};
ghost use Rattle.lexlook_check.specs.Finding.{AreFaultsOf, ReadsSpec, max_faults};

use crate::copies::{asked_copies, copied_of, warned_bytes};
use crate::finding::{Found, find_faults};
use crate::findings::Finding;
use crate::notices::{Notice, notices_of};
use crate::reader::LexReader;
use crate::takings::{Taking, takings_in};
use crate::weights::{Weights, weights_in};
use lexauto::BuildError;
use lexauto_reports::Warning;
use lexkit::{GenError, Made, Options, generate_tables, read_text};
use lexspec::{ReadOptions, Spec, SpecError, one_specification};
use std::alloc::{AllocError, Global};

/// What is wrong with a text, and what is warned of.
#[derive(Drop)]
pub struct Checked {
    /// Its faults: the first, that of the text without its rule, and so on.
    pub faults: Vec<SpecError>,
    /// The limit that the automaton of what is left passes.
    pub limit: Option<BuildError>,
    /// How many positions there are, where it passes one.
    pub weights: Option<Weights>,
    /// The warnings of what is left, where there is neither a hundredth fault nor a limit.
    pub warnings: Vec<Warning>,
    /// By which rules the texts of those are taken that cannot be matched, where one is warned of.
    pub takings: Vec<Taking>,
    /// What is warned of beside them there, in definitions first, then in rules and then of conditions: the first 100.
    pub notices: Vec<Notice>,
    /// Where none is to be copied and there is no fault, each condition in which the default rule copies a byte.
    pub copies: Vec<Finding>,
}

impl Checked {
    /// Whether no fault was found, no limit, and no byte that is copied where none is to be.
    pub fn is_well(&self) -> bool
        ensures { result ≡ is_well self.now }
    {
        self.faults.is_empty() && self.limit.is_none() && self.copies.is_empty()
    }
}

/// What is warned of in a text, and where the default rule copies in it, where it is not to.
#[derive(Drop)]
struct Noted {
    /// What is warned of.
    notices: Vec<Notice>,
    /// Where the default rule copies.
    copies: Vec<Finding>,
}

/// What is warned of in a text, which spells this specification, and where the default rule copies, where it is not to.
fn noted_of(
    alloc: Global,
    own: usize,
    strict: bool,
    faultless: bool,
    whole: &[u8],
    spec: &Spec,
    copied: &[Option<u8>],
    text: &[u8],
) -> Result<Noted, AllocError>
    requires { length text.now ≤ max_file_bytes }
    ensures { IfOk result (λ n. IsNoted own strict faultless whole.now (spec_of spec.now) copied.now text.now
        n.notices.items n.copies.items) }
{
    let warned = warned_bytes(strict, copied);
    let notices = notices_of(alloc, own, faultless, whole, spec, warned, text)?;
    let copies = asked_copies(alloc, strict, faultless, spec, copied, text)?;
    Ok(Noted { notices, copies })
}

/// What is warned of in the text that is left of another, beside what lex warns of, and where the default rule copies, where
/// it is not to.
fn left_notices(
    alloc: Global,
    left: &[u8],
    options: Options,
    own: usize,
    strict: bool,
    faultless: bool,
    text: &[u8],
) -> Result<Noted, AllocError>
    requires few_positions { options.limits.positions ≤ max_positions }
    requires few_states { options.limits.states ≤ max_states }
    ensures { IfOk result (λ n. AreNoticesOf options own strict faultless text.now left.now
        n.notices.items n.copies.items) }
{
    one_specification();
    let copied = copied_of(alloc, faultless, left, options)?;
    match read_text(alloc, left, options) {
        Err(_) => Err(AllocError),
        Ok(spec) => noted_of(
            alloc,
            own,
            strict,
            faultless,
            text,
            &spec,
            copied.as_slice(),
            left,
        ),
    }
}

/// Whether there are no faults.
fn are_none(faults: &[SpecError]) -> bool
    ensures { result ≡ (length faults.now == 0) }
{
    faults.is_empty()
}

/// Whether a rule that cannot be matched is warned of.
fn has_useless(warnings: &[Warning]) -> bool
    ensures { result ≡ has_useless warnings.now }
{
    warnings.iter().any(|warning| !warning.code)
}

/// What is found of the text that is left where these faults are left out.
fn check_left(
    alloc: Global,
    faults: Vec<SpecError>,
    left: &[u8],
    options: Options,
    own: usize,
    strict: bool,
    text: &[u8],
) -> Result<Checked, AllocError>
    requires few_positions { options.limits.positions ≤ max_positions }
    requires few_states { options.limits.states ≤ max_states }
    requires faults { AreFaultsOf (ReadsSpec (reading options)) max_faults text.now faults.items (Some left.now) }
    ensures { IfOk result (IsChecked options own strict text.now) }
{
    let faultless = are_none(faults.as_slice());
    match generate_tables(alloc, left, options) {
        Ok(Made { warnings, .. }) => {
            let takings = takings_in(alloc, has_useless(warnings.as_slice()), left, options)?;
            let Noted { notices, copies } = left_notices(
                alloc, left, options, own, strict, faultless, text,
            )?;
            Ok(Checked {
                faults,
                limit: None,
                weights: None,
                warnings,
                takings,
                notices,
                copies,
            })
        }
        Err(GenError::Build(BuildError::OutOfMemory)) => Err(AllocError),
        Err(GenError::Build(limit)) => {
            let weights = weights_in(alloc, left, options, limit)?;
            Ok(Checked {
                faults,
                limit: Some(limit),
                weights: Some(weights),
                warnings: Vec::new(alloc),
                takings: Vec::new(alloc),
                notices: Vec::new(alloc),
                copies: Vec::new(alloc),
            })
        }
        Err(GenError::Spec(_)) | Err(GenError::OutOfMemory) => Err(AllocError),
    }
}

/// Every fault of a text, up to 100: that which `read_spec` tells, then that of the text in which the rule or the
/// definition of the one before is empty, and so on. Then, where what is left is a specification, the limit that its
/// automaton passes, or its warnings. Definitions before the line `own`, from 1, are there for others, and no one is warned
/// of them where nothing uses them. Where `strict`, each condition is told in which a match may be made and the default rule
/// copies a byte. (flex, Scanner Options: -s.)
pub fn check(
    alloc: Global,
    own: usize,
    strict: bool,
    text: &[u8],
    options: Options,
) -> Result<Checked, AllocError>
    requires few_positions { options.limits.positions ≤ max_positions }
    requires few_states { options.limits.states ≤ max_states }
    ensures { IfOk result (IsChecked options own strict text.now) }
{
    let reader = LexReader {
        options: ReadOptions {
            fold: options.fold,
            posix: options.posix,
        },
    };
    let Found { faults, left } = find_faults(alloc, &reader, text)?;
    match left {
        Some(left) => check_left(alloc, faults, left.as_slice(), options, own, strict, text),
        None => Ok(Checked {
            faults,
            limit: None,
            weights: None,
            warnings: Vec::new(alloc),
            takings: Vec::new(alloc),
            notices: Vec::new(alloc),
            copies: Vec::new(alloc),
        }),
    }
}
