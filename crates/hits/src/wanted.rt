// Which skills any object requires: an effect on those that require another touches nobody.
ghost use Rattle.std.specs.Prelude.{◌≤◌, ◌≡◌, Bool, length};
ghost use Rattle.rules.specs.Sheet.{Book, Fit};
ghost use Rattle.rules.specs.declared.Item.{Item};
ghost use Rattle.hits.specs.Who.{Aims};
ghost use Rattle.hits.specs.Marks.{Marking, AllMarked, Wanted};

use super::{Aim, SKILL_MARKS, SkillMarks, SkillRow, Test, none};

// Marks the six skills of an object.
fn mark(wanted: &mut SkillMarks, row: SkillRow)
    requires even { length wanted.old ≡ 1024 }
    ensures defined { Marking wanted.old wanted.new row 6 }
{
    for required in &row {
        let at = (*required % 1024) as usize;
        wanted[at] = 1;
    }
}

// Marks of the skills that the objects require, by their numbers modulo 1,024.
pub fn wanted_of(skills: &[SkillRow], objects: usize) -> SkillMarks
    requires inside { objects ≤ length skills.now }
    ensures marked { AllMarked objects result skills.now }
{
    let mut wanted = [0u8; SKILL_MARKS];
    for row in &skills[..objects] {
        mark(&mut wanted, *row);
    }
    wanted
}

// The aim itself, or the aim at nobody where no object requires the skill.
pub fn worth(wanted: &SkillMarks, a: Aim) -> Aim
    ensures same { (p : Item → Bool) (k : Book) (f : Fit) → Wanted f wanted.now → Aims p k f a → Aims p k f result }
{
    let Test::Requiring(skill) = a.test else {
        return a;
    };
    let at = (skill % 1024) as usize;
    let marked = wanted[at];
    if marked == 0 {
        return none();
    }
    a
}
