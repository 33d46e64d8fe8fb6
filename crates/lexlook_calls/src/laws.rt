//! The laws of pictures, and of files that do the same, and worked examples of headers.
ghost use Rattle.lexlook_calls.specs.HeaderExamples.{HeaderExamples};
ghost use Rattle.lexlook_calls.specs.Looks.{OnePicture};
ghost use Rattle.lexlook_calls.specs.SameFiles.{EqualAreSame, SameScanAlike};

use lexauto::one_automaton;
use lextab_file::one_table;

/// A specification has one picture at most, whatever the limits.
pub fn one_picture()
    ensures { OnePicture }
{
    one_automaton();
}

/// Two files that `tell_same` finds to do the same scan each input alike: they write the same, and end alike.
pub fn same_scan_alike()
    ensures { SameScanAlike }
{}

/// `tell_same` finds that table files of the same bytes do the same.
pub fn equal_are_same()
    ensures { EqualAreSame }
{
    one_table();
}

/// Worked examples of headers: a keyword as a name, a rule without one, two rules of one name, and that no limit refuses a
/// text.
pub fn examples_of_headers()
    ensures { HeaderExamples }
{}
