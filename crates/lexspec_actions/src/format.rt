//! Formats of `printf`.
ghost use Rattle.std.specs.Prelude.{◌≡◌, ◌∷◌, [], List, ℕ, None, false, OnOk, IfErr};
ghost use Rattle.lexspec_actions.specs.ActionSteps.{parts_of};
ghost use Rattle.lexspec_actions.specs.Formats.{read_on};
ghost use Rattle.lexspec_actions.specs.Views.{parts_view, format_view};
ghost use Rattle.lexspec_actions.specs.Outcome.{Reads, UnlessMemory};
ghost use Rattle.lexspec_actions.specs.ActionFaults.{IsActionFault};

use crate::statement::FormatLiterals;
use lexre_bytes::SpecErrorKind;
use std::alloc::Global;
use std::mem;

/// A format as far as it was read.
#[derive(Drop)]
pub(crate) struct Format {
    /// What came before the `%s`.
    pub(crate) front: Option<Vec<u8>>,
    pub(crate) bytes: Vec<u8>,
    /// Whether the last byte read is a `%`, whose meaning depends on the next byte.
    pub(crate) percent: bool,
}

impl Format {
    /// Takes one byte of the format. After a `%` comes `%`, or once `s`; anything else is an `UnknownStatement`.
    fn take(&mut self, alloc: Global, byte: u8) -> Result<(), SpecErrorKind>
        ensures ok { OnOk result ((t : List ℕ)
            → read_on (format_view self.new) t ≡ read_on (format_view self.old) (byte ∷ t)) }
        ensures err { IfErr result (λ e. UnlessMemory e ((t : List ℕ)
            → read_on (format_view self.old) (byte ∷ t) ≡ None)) }
        ensures fault { IfErr result (λ e. IsActionFault e) }
    {
        if !self.percent {
            if byte == b'%' {
                self.percent = true;
                return Ok(());
            }
            self.bytes.push(byte)?;
            return Ok(());
        }
        if byte == b'%' {
            self.bytes.push(byte)?;
            self.percent = false;
            return Ok(());
        }
        if byte != b's' || self.front.is_some() {
            return Err(SpecErrorKind::UnknownStatement);
        }
        self.front = Some(mem::replace(&mut self.bytes, Vec::new(alloc)));
        self.percent = false;
        Ok(())
    }

    /// The literals, where the format ends here.
    fn finish(self) -> Result<FormatLiterals, SpecErrorKind>
        ensures spelled { Reads parts_view result (read_on (format_view self) []) }
        ensures fault { IfErr result (λ e. IsActionFault e) }
    {
        if self.percent {
            return Err(SpecErrorKind::UnknownStatement);
        }
        let Format { front, bytes, .. } = self;
        match front {
            Some(front) => Ok(FormatLiterals {
                front,
                back: Some(bytes),
            }),
            None => Ok(FormatLiterals {
                front: bytes,
                back: None,
            }),
        }
    }
}

/// The literals of a format.
#[tactic(auto, unfolding(crate::specs::ActionSteps::parts_of))]
pub(crate) fn parts_of(alloc: Global, text: &[u8]) -> Result<FormatLiterals, SpecErrorKind>
    ensures spelled { Reads parts_view result (parts_of text.now) }
    ensures fault { IfErr result (λ e. IsActionFault e) }
{
    let mut format = Format {
        front: None,
        bytes: Vec::new(alloc),
        percent: false,
    };
    for byte in text {
        format.take(alloc, *byte)?;
    }
    format.finish()
}
