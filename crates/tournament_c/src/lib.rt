// The exported functions of `tournament`: a fit against an organiser's lines, for callers in C. Each calls the library's function, and says what it says.
#![tactic(auto)]

ghost use Rattle.std.specs.Prelude.{◌≡◌, ◌<◌, ◌^◌};
ghost use Rattle.tallies.specs.Tallies as tallied;
ghost use Rattle.tournament.specs.Tournament as rule;
ghost use Rattle.tournament.specs.Answered.{answer_of};

use tallies::RuleLine;
use tournament::Checked;

// A sheet against an organiser's lines: nothing is required, nothing is written.
#[unsafe(no_mangle)]
pub extern "C" fn dogma_check_rules(lines: &[RuleLine], sheet: &[u8]) -> Checked
    ensures defined { result ≡ answer_of (rule.checked sheet.now lines.now) }
    ensures no_sum_wraps { result.count < 2 ^ 58 }
{
    tournament::dogma_check_rules(lines, sheet)
}

// The same of a book and a fit.
#[unsafe(no_mangle)]
pub extern "C" fn dogma_check_rules_files(lines: &[RuleLine], book: &[u8], fit: &[u8]) -> Checked
    ensures defined { result ≡ answer_of (rule.checked_files book.now fit.now lines.now) }
    ensures no_sum_wraps { result.count < 2 ^ 58 }
{
    tournament::dogma_check_rules_files(lines, book, fit)
}
