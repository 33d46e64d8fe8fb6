//! Tables and reports, written to files.
ghost use Rattle.std.specs.Prelude.{◌≤◌};

use crate::flushing::{put_report, put_stats, put_table};
use lexkit::{
    BackUp, ByteWriter, Failure, Generated, MAX_POSITIONS, MAX_STATES, Made, Options, Ready, Stats,
    Tables, ToBytes, ToWrite, Warning, generate, generate_tables, make_ready, write_warnings,
};
use std::fs::File;
use std::io;

/// Where the table file goes, and what is written beside it.
#[derive(Debug, Drop)]
pub struct Outputs {
    /// The table file's name; lex.yy.tab where there is none.
    pub table: Option<String>,
    /// The table file goes to standard output, and the statistics to standard error.
    pub to_stdout: bool,
    /// Statistics are written.
    pub stats: bool,
    /// The report of states that back up is written, to lex.backup.
    pub backup: bool,
    /// Warnings are not written.
    pub quiet: bool,
}

/// Where the table file goes if no name is given.
const TABLE_FILE: &str = "lex.yy.tab";

/// Where the report of states that back up goes.
const BACKUP_FILE: &str = "lex.backup";

/// Makes the outputs of a specification: warnings, the table file, the report of states that back up, and statistics.
/// The first fault ends the run.
pub fn make(
    rt: &HostRuntime,
    text: &[u8],
    options: Options,
    outputs: &Outputs,
) -> Result<(), Failure>
    requires few_positions { options.limits.positions ≤ MAX_POSITIONS }
    requires few_states { options.limits.states ≤ MAX_STATES }
{
    let (made, backup) = made_of(rt, text, options, outputs.backup)?;
    if !outputs.quiet {
        warn(rt, &made.warnings)?;
    }
    write_table(rt, &made.tables, outputs)?;
    if outputs.backup {
        report(rt, &backup)?;
    }
    if outputs.stats {
        count(rt, &made.stats, outputs.to_stdout)?;
    }
    Ok(())
}

/// What is made of a specification, and the states that back up if they are asked for.
fn made_of(
    rt: &HostRuntime,
    text: &[u8],
    options: Options,
    with_backup: bool,
) -> Result<(Made, Vec<BackUp>), Failure>
    requires few_positions { options.limits.positions ≤ MAX_POSITIONS }
    requires few_states { options.limits.states ≤ MAX_STATES }
{
    if !with_backup {
        let made = generate_tables(rt.alloc(), text, options)?;
        return Ok((made, Vec::new(rt.alloc())));
    }
    let Generated { made, backup } = generate(rt.alloc(), text, options)?;
    Ok((made, backup))
}

/// What is made ready for a scan by a specification, whose warnings go to standard error.
pub fn ready_with_warnings(
    rt: &HostRuntime,
    text: &[u8],
    options: Options,
) -> Result<Ready, Failure>
    requires few_positions { options.limits.positions ≤ MAX_POSITIONS }
    requires few_states { options.limits.states ≤ MAX_STATES }
{
    let ready = make_ready(rt.alloc(), text, options)?;
    warn(rt, &ready.warnings)?;
    Ok(ready)
}

/// Writes the warnings to standard error.
fn warn(rt: &HostRuntime, warnings: &[Warning]) -> Result<(), Failure> {
    write_warnings(warnings, &mut ToWrite::new(rt.stderr()))?;
    Ok(())
}

/// Writes the table file to standard output or to its file.
fn write_table(rt: &HostRuntime, tables: &Tables, outputs: &Outputs) -> Result<(), Failure> {
    if outputs.to_stdout {
        let mut sink = ToBytes::new(ByteWriter::new(rt.alloc(), io::writer(rt))?);
        put_table(tables, &mut sink)?;
        return Ok(());
    }
    let name = match &outputs.table {
        None => TABLE_FILE,
        Some(name) => name.as_str(),
    };
    let mut sink = ToBytes::new(ByteWriter::new(rt.alloc(), create(rt, name)?)?);
    put_table(tables, &mut sink)?;
    Ok(())
}

/// Writes the report of states that back up to its file.
fn report(rt: &HostRuntime, entries: &[BackUp]) -> Result<(), Failure> {
    let writer = create(rt, BACKUP_FILE)?;
    let mut sink = ToBytes::new(ByteWriter::new(rt.alloc(), writer)?);
    put_report(entries, &mut sink)?;
    Ok(())
}

/// Writes the statistics to standard output, or to standard error where the table file is on standard output.
fn count(rt: &HostRuntime, stats: &Stats, table_on_stdout: bool) -> Result<(), Failure> {
    if table_on_stdout {
        put_stats(stats, &mut ToWrite::new(rt.stderr()))?;
        return Ok(());
    }
    put_stats(stats, &mut ToWrite::new(io::writer(rt)))?;
    Ok(())
}

/// A file made anew.
fn create(rt: &HostRuntime, name: &str) -> Result<File, Failure> {
    match File::create(rt, name) {
        Ok(file) => Ok(file),
        Err(_) => Err(Failure::Output),
    }
}
