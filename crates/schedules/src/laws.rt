//! What holds of every schedule and its text. The functions do nothing: what each says is its contract.

ghost use Rattle.schedules.specs.Laws.{OneIsSpelled, BadLineSpellsNone, OneIsFirstBad, PrintedIsRead};

/// The same bytes spell no two schedules.
///
/// No code calls it: it is for readers.
pub fn one_schedule_is_spelled()
    ensures { OneIsSpelled }
{}

/// If a line is bad, the bytes spell no schedule. So what spells one is never refused, but for want
/// of memory.
///
/// No code calls it: it is for readers.
pub fn a_bad_line_spells_no_schedule()
    ensures { BadLineSpellsNone }
{}

/// No two lines of a file are the first bad one.
///
/// No code calls it: it is for readers.
pub fn one_line_is_first_bad()
    ensures { OneIsFirstBad }
{}

/// What is printed of bytes stands for them, as the text of a Feed.
///
/// No code calls it: it is for readers.
pub fn what_is_printed_is_read()
    ensures { PrintedIsRead }
{}
