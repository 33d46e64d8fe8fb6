//! The tokens of a scan that reads a source, one by one.
ghost use Rattle.std.specs.Prelude.{◌≡◌, ◌+◌, ◌-◌, ◌^◌, ◌<◌, ◌⊎◌, ℕ, List, false, IfErr};
ghost use Rattle.lex_semantics.specs.ByteSets.{bit_of};
ghost use Rattle.lex_semantics.specs.Machine.{Machine};
ghost use Rattle.lexscan.specs.Scanners.{pull_finished};
ghost use Rattle.lexscan.specs.declared.token.Token.{Token as TokenModel};
ghost use Rattle.lexscan_window.specs.Reads.{read_fault_count};
ghost use Rattle.lextab_packed.specs.FlatViews.{tables_of};
ghost use Rattle.lextab_packed.specs.Machines.{table_machine};
ghost use Rattle.lexlook_counts.specs.Reading.{Feeds, HasRead, HasTold, IsNew, ReadsOn, condition_read, reader_machine, text_read};

use lexscan::{PullScanner, Pulled, PulledToken, RunError, Source};
use lextab_packed::Flat;
use std::alloc::Global;

/// Why a piece was not fed.
fn feed_fault(error: RunError) -> RunError
    ensures { (result ≡ RunError.OutOfMemory) ⊎ (result ≡ RunError.TooManyReads) }
{
    match error {
        RunError::TooManyReads => RunError::TooManyReads,
        _ => RunError::OutOfMemory,
    }
}

/// What asking for the next token answers.
#[derive(Clone, Copy)]
pub(crate) enum Read {
    /// The next token.
    Token(PulledToken),
    /// None yet: more of the source was fed, or its end was told.
    Fed,
    /// There are no more: the scan has ended with this status, 0 to 63.
    Ended(u8),
}

/// A scan that is fed what a source has, as its tokens ask for it.
#[derive(Drop)]
pub(crate) struct TokenReader {
    scanner: PullScanner<Flat>,
}

impl TokenReader {
    /// One that was fed nothing.
    pub(crate) fn new(alloc: Global, machine: Flat) -> TokenReader
        ensures { IsNew (table_machine (tables_of machine)) result }
    {
        TokenReader {
            scanner: PullScanner::new(alloc, machine),
        }
    }

    /// Feeds what the source has ready, or where that is nothing its next byte, or tells its end. What is fed is appended to what is
    /// kept.
    fn feed_on<S: Source>(&mut self, source: &mut S, kept: &mut Vec<u8>) -> Result<(), RunError>
        requires ends { S.ends source.old < 2 ^ 64 - 1 }
        requires reads { S.failures source.old < 2 ^ 64 - 1 }
        requires unfinished { pull_finished self.old.scanner ≡ false }
        ensures machine { reader_machine self.new ≡ reader_machine self.old }
        ensures fed { Feeds S.gave source.old source.new self.old self.new kept.old.items kept.new.items result }
        ensures ends { S.ends source.new ≡ S.ends source.old + bit_of (pull_finished self.new.scanner) }
        ensures reads { S.failures source.new ≡ S.failures source.old + read_fault_count result }
        ensures refusals { IfErr result (λ e. (e ≡ RunError.Read) ⊎ (e ≡ RunError.OutOfMemory)
            ⊎ (e ≡ RunError.TooManyReads)) }
    {
        let ready = source.ahead();
        let count = ready.len();
        if count != 0 {
            match self.scanner.feed(ready) {
                Err(error) => return Err(feed_fault(error)),
                Ok(()) => {}
            }
            match kept.extend_from_slice(ready) {
                Err(_) => return Err(RunError::OutOfMemory),
                Ok(()) => {}
            }
            source.give(count);
            return Ok(());
        }
        match source.next() {
            Err(_) => Err(RunError::Read),
            Ok(None) => {
                self.scanner.finish();
                Ok(())
            }
            Ok(Some(byte)) => {
                match self.scanner.feed(&[byte]) {
                    Err(error) => return Err(feed_fault(error)),
                    Ok(()) => {}
                }
                match kept.push(byte) {
                    Err(_) => Err(RunError::OutOfMemory),
                    Ok(()) => Ok(()),
                }
            }
        }
    }

    /// The next token, or what is fed where the scan asks for more, or the status that it ends with. What is fed is appended to what
    /// is kept.
    pub(crate) fn read_on<S: Source>(
        &mut self,
        source: &mut S,
        kept: &mut Vec<u8>,
    ) -> Result<Read, RunError>
        requires told { HasTold self.old }
        requires ends { pull_finished self.old.scanner ≡ false → S.ends source.old < 2 ^ 64 - 1 }
        requires reads { S.failures source.old < 2 ^ 64 - 1 }
        ensures { (M : Machine) (s : S) (given : List ℕ) (tokens : List TokenModel)
            → HasRead S.gave S.ends S.failures M s source.old given tokens self.old
            → ReadsOn S.gave S.ends S.failures M s source.new given tokens self.old self.new kept.old.items
            kept.new.items result }
    {
        match self.scanner.next() {
            Ok(Pulled::Token(token)) => Ok(Read::Token(token)),
            Ok(Pulled::Ended(status)) => Ok(Read::Ended(status)),
            Ok(Pulled::More) => match self.feed_on(source, kept) {
                Err(error) => Err(error),
                Ok(()) => Ok(Read::Fed),
            },
            Err(RunError::Stack) => Err(RunError::Stack),
            Err(_) => Err(RunError::OutOfMemory),
        }
    }

    /// Whether the end of the input was told.
    pub(crate) fn is_finished(&self) -> bool
        ensures { result ≡ pull_finished self.now.scanner }
    {
        self.scanner.is_finished()
    }

    /// The start condition of the next turn; after the end that in which the scan has ended.
    pub(crate) fn condition(&self) -> u8
        ensures { result ≡ condition_read self.now }
    {
        self.scanner.condition()
    }

    /// The text of the token that was read last.
    pub(crate) fn text(&self) -> &[u8]
        ensures { result.now ≡ text_read self.now }
    {
        self.scanner.text()
    }
}
