// What becomes of a marked part at a settling, judged by the new estimate, by this cycle's time and by
// the clocks as they were before the cycle.
ghost use Rattle.std.specs.Prelude.{◌≡◌, true};
ghost use Rattle.meaning.specs.declared.kinds.Kind.TheVariants.{Choice as choice_kind};
ghost use Rattle.meaning.specs.Kinds.{kind_of, condition_allowed};
ghost use Rattle.meaning.specs.Program.{variables, clocks, entry_allowed};
ghost use Rattle.meaning.specs.Cycle.{ends_if, transition, situation};

use meaning::kinds::Kind;
use meaning::{Entry, Operand, Transition};
use run_record::conditions::Situation;

fn ends_if(b: bool) -> Transition
    ensures { result ≡ ends_if b }
{
    if b {
        Transition::Ends
    } else {
        Transition::Stays
    }
}

// A CHOICE with nothing marked inside before the settling is deciding, and takes a child; any other
// ends with the branch that it took.
#[tactic(auto, unfolding(meaning::specs::Cycle::transition))]
fn of_choice(sit: Situation<'_>, o: Operand, before: bool, after: bool) -> Transition
    requires { condition_allowed (variables sit.table.now) (clocks sit.table.now) o ≡ true }
    ensures { result ≡ transition (situation sit.entry.table.now sit.entry.record.bytes.now sit.entry.estimate.now sit.entry.time) choice_kind o before after }
{
    if before {
        ends_if(!after)
    } else if sit.satisfied(o) {
        Transition::First
    } else {
        Transition::Second
    }
}

// The transition of a marked part; `before` and `after` say whether something is marked inside it, before
// and after the settling of what is inside.
#[tactic(auto, unfolding(meaning::specs::Cycle::transition))]
pub fn transition(sit: Situation<'_>, part: Entry, before: bool, after: bool) -> Transition
    requires { entry_allowed (variables sit.table.now) (clocks sit.table.now) part ≡ true }
    ensures { result ≡ transition (situation sit.entry.table.now sit.entry.record.bytes.now sit.entry.estimate.now sit.entry.time) (kind_of part.kind) part.operand before after }
{
    let operand = part.operand;
    match Kind::from(part.kind) {
        Kind::Unknown => Transition::Stays,
        Kind::Goal => ends_if(sit.has_value(operand)),
        Kind::Start => Transition::Ends,
        Kind::Wait => ends_if(sit.satisfied(operand)),
        Kind::Seq => ends_if(!after),
        Kind::Par => ends_if(!after),
        Kind::Maintain => ends_if(!after),
        Kind::Choice => of_choice(sit, operand, before, after),
        Kind::Repeat => ends_if(!after),
    }
}
