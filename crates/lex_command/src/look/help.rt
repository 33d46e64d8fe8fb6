//! How the program is called, and its version.
ghost use Rattle.std.specs.Prelude.{◌≡◌, ◌+◌, ◌-◌, ◌^◌, ◌<◌};
ghost use Rattle.lex_io.specs.Sink.{Appended, fault_count};

use lex_io::{Sink, WriteFault};

/// The subcommands, a line each.
const HELP: &str = "lexlook shows what a specification of lex does.\n\n\
    lexlook picture FILE [-i] [-X]\n    \
    the automaton of the specification, as a picture for dot\n\
    lexlook same FILE FILE [-i] [-X]\n    \
    whether two specifications or table files do the same, with status 1 and where they do not\n\
    lexlook lines FILE [-i] [-X]\n    \
    whether an input may be cut after any newline and its pieces scanned apart, with status 1 and why not\n\
    lexlook words FILE [-i] [-X]\n    \
    for each rule the shortest text that it takes, or by which rules its texts are taken\n\
    lexlook overlaps FILE [-i] [-X]\n    \
    the pairs of rules that one text fits with the same length, where, and which of them wins\n\
    lexlook trace FILE [-i] [-X] [--offsets]\n    \
    a line for each match of a scan of standard input by a specification, and the scan's status;\n    \
    with --offsets where its text begins, how long it is, and the text\n\
    lexlook cover FILE [-i] [-X]\n    \
    how many states and edges of the automaton the matches of standard input go through, by rule,\n    \
    with the shortest text over each edge that none goes through, and the scan's status\n\
    lexlook utf8 SET..\n    \
    a definition of the code points of these sets, over the bytes of their UTF-8\n\
    lexlook check FILE.. [-i] [-X] [-s] [--json]\n    \
    every fault of the specification that the files are together, by lines or as JSON, with status 1\n    \
    where there is one; with -s it is one that the default rule copies a byte\n\
    lexlook header FILE [-i] [-X] [--rust]\n    \
    the names and numbers of its rules for a program in C, as an enum, or in Rust, as constants\n\
    lexlook count FILE [-i] [-X] [--json]\n    \
    how often each rule matches standard input, with the bytes of its texts, and the turns in each\n    \
    start condition, by columns or as JSON, and the scan's status\n\
    lexlook suite FILE [-i] [-X] [-o FOLDER]\n    \
    inputs over the edges of its automaton, for each start condition, each with what its scan writes and\n    \
    the status, and the edges that no input goes over; with -o a file for each condition in this folder\n\n\
    FILE may be - for standard input. With -i letters stand for both cases. With -X an interval\n\
    applies to the whole series to its left. A SET is U+0400-U+04FF, Lu, Greek, XID_Start or the like,\n\
    by the version of Unicode that lexlook utf8 --version tells.\n";

/// The program's name and its version, which is that of the file VERSION.
const VERSION: &str = "lexlook 1.0.0\n";

/// Writes the line of the version. It takes no memory.
pub fn write_version<K: Sink>(sink: &mut K) -> Result<(), WriteFault>
    requires { K.failures sink.old < 2 ^ 64 - 1 }
    ensures bytes { Appended (λ xs. K.wrote sink.old xs sink.new) VERSION.now result }
    ensures failures { K.failures sink.new ≡ K.failures sink.old + fault_count result }
{
    sink.put(VERSION.as_bytes())
}

/// Writes the lines of the help. It takes no memory.
pub fn write_help<K: Sink>(sink: &mut K) -> Result<(), WriteFault>
    requires { K.failures sink.old < 2 ^ 64 - 1 }
    ensures bytes { Appended (λ xs. K.wrote sink.old xs sink.new) HELP.now result }
    ensures failures { K.failures sink.new ≡ K.failures sink.old + fault_count result }
{
    sink.put(HELP.as_bytes())
}
