//! Goes over the rows of data/: each asks something of the product, and says what is answered. This tells each row that is
//! answered otherwise, and how many rows of each kind there are. data/README says how rows are written. What is called is
//! called by the names of the crates that a caller names, but for what lex_command, lexspec_actions, lexlook_calls,
//! lexlook_check and lexlook_tables do.
#![tactic(auto)]

mod actions;
mod answer;
mod arguments;
mod caller;
mod escapes;
mod kind;
mod looks;
mod nodes;
mod patterns;
mod reading;
mod reports;
mod row;
mod scans;
mod specifications;
mod tables;
mod tokens;

use crate::answer::{Answer, answered};
use crate::escapes::escaped;
use crate::kind::{KINDS, Kind};
use crate::reading::read_rows;
use crate::row::Row;
use anyhow::Result;
use std::process::ExitCode;
use std::{env, fs, io};

/// The files of data/.
const FILES: &[&str] = &[
    "actions.txt",
    "arguments.txt",
    "checks.txt",
    "cuttings.txt",
    "examples.txt",
    "flex_files.txt",
    "letters.txt",
    "limits.txt",
    "long_names.txt",
    "long_patterns.txt",
    "looks.txt",
    "manual.txt",
    "manual_looks.txt",
    "patterns.txt",
    "reports.txt",
    "scans.txt",
    "series.txt",
    "specifications.txt",
    "tables.txt",
    "tokens.txt",
    "trees.txt",
];

/// Tells what is answered in the place of what a row says.
fn tell(rt: &HostRuntime, file: &str, row: &Row<'_>, got: &Answer) -> io::Result<()> {
    let line = row.line;
    let written = escaped(rt.alloc(), got.written.as_slice())?;
    let told = escaped(rt.alloc(), got.told.as_slice())?;
    println!(rt; "{file}:{line}: written {written}, told {told}")
}

/// Whether a row is answered as it says.
fn holds(rt: &HostRuntime, file: &str, row: &Row<'_>) -> Result<bool> {
    let got = answered(rt.alloc(), row)?;
    let so = got.is_of(row);
    if !so {
        tell(rt, file, row, &got)?;
    }
    Ok(so)
}

/// How many rows are of this kind.
fn count_of(rows: &[Row<'_>], kind: Kind) -> usize {
    let mut count: usize = 0;
    for row in rows {
        if row.kind == kind {
            count = count.saturating_add(1);
        }
    }
    count
}

/// Tells how many rows of each kind there are.
fn tell_counts(rt: &HostRuntime, file: &str, rows: &[Row<'_>]) -> io::Result<()> {
    for &(name, kind) in KINDS {
        let count = count_of(rows, kind);
        if count != 0 {
            println!(rt; "{file}: {count} {name}")?;
        }
    }
    Ok(())
}

/// Goes over a file, and answers whether all is as it says.
fn go_over(rt: &HostRuntime, file: &str) -> Result<bool> {
    let text = fs::read(rt, file)?;
    let read = read_rows(rt.alloc(), text.as_slice())?;
    let mut so = true;
    for line in &read.malformed {
        println!(rt; "{file}:{line}: no line of a row")?;
        so = false;
    }
    for row in &read.rows {
        so = holds(rt, file, row)? && so;
    }
    tell_counts(rt, file, read.rows.as_slice())?;
    Ok(so)
}

/// Goes over all files, or over those that the command line names, and answers whether all is as they say.
fn run(rt: &HostRuntime) -> Result<bool> {
    let words: Vec<String> = env::args(rt)?.skip(1).collect(rt.alloc())?;
    let mut so = true;
    for word in &words {
        so = go_over(rt, word.as_str())? && so;
    }
    if words.is_empty() {
        for file in FILES {
            so = go_over(rt, file)? && so;
        }
    }
    Ok(so)
}

/// Goes over the files, with status 1 where a row is answered otherwise.
fn main(rt: HostRuntime) -> Result<ExitCode> {
    Ok(if run(&rt)? {
        ExitCode::SUCCESS
    } else {
        ExitCode::FAILURE
    })
}
