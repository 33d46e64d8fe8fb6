//! Callers of lexkit and of lexscan: those of their CALLING.md.
ghost use Rattle.std.specs.Prelude.{IfOk};
ghost use Rattle.lex_semantics.specs.Machine.{rules_of_machine};
ghost use Rattle.lextab_packed.specs.Machines.{table_machine};
ghost use Rattle.lexkit.specs.Filtered.{Filtered, FilteredBy};

use lexkit::{FromRead, Options, RunError, ScanError, Tables, ToWrite, scan_spec};
use lexscan::run;
use std::alloc::Global;
use std::io::{Read, Write};

/// Scans what a reader gives by rules, and answers the writer, to which the rules have written.
pub fn filtered<R: Read + Drop, W: Write + Drop>(
    alloc: Global,
    rules: &[u8],
    reader: R,
    writer: W,
) -> Result<W, ScanError>
    ensures { IfOk result (λ w. Filtered rules.now (R.remaining reader) (W.contents writer) (W.contents w)) }
{
    let mut source = FromRead::new(reader);
    let mut sink = ToWrite::new(writer);
    scan_spec(alloc, rules, Options::new(), &mut source, &mut sink)?;
    Ok(sink.into_inner())
}

/// Scans what a reader gives by tables, and answers the writer, to which their rules have written. It makes at most
/// 2^40 reads.
pub fn filtered_by<R: Read + Drop, W: Write + Drop>(
    alloc: Global,
    tables: &Tables,
    reader: R,
    writer: W,
) -> Result<W, RunError>
    ensures { IfOk result (λ w. FilteredBy (rules_of_machine (table_machine tables.now)) (R.remaining reader)
        (W.contents writer) (W.contents w)) }
{
    let mut source = FromRead::new(reader);
    let mut sink = ToWrite::new(writer);
    run(alloc, tables, &mut source, &mut sink, 1 << 40)?;
    Ok(sink.into_inner())
}

#[cfg(test)]
mod tests {
    use super::*;
    use lexkit::generate;
    use std::test::Fail;

    const NUMBERS: &[u8] = b"%%\n[0-9]+ printf(\"N\");\n";

    /// Whether numbers are filtered by rules.
    fn is_filtered(alloc: Global, reader: &[u8], want: &[u8]) -> bool {
        match filtered(alloc, NUMBERS, reader, Vec::new(alloc)) {
            Ok(written) => written.as_slice() == want,
            Err(_) => false,
        }
    }

    /// Whether numbers are filtered by tables.
    fn is_filtered_by(alloc: Global, tables: &Tables, reader: &[u8], want: &[u8]) -> bool {
        match filtered_by(alloc, tables, reader, Vec::new(alloc)) {
            Ok(written) => written.as_slice() == want,
            Err(_) => false,
        }
    }

    #[test]
    fn filters_a_reader(rt: HostRuntime) -> Result<(), Fail> {
        let alloc = rt.alloc();
        let made = generate(alloc, NUMBERS, Options::new())?.made;
        let so = is_filtered(alloc, b"a1 b22\n", b"aN bN\n")
            && is_filtered_by(alloc, &made.tables, b"a1 b22\n", b"aN bN\n");
        assert!(rt; so);
        Ok(())
    }
}
