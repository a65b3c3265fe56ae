// Whether a leaf or a deciding CHOICE is marked: what refusal 15 asks of the marks after a settling.
ghost use Rattle.std.specs.Prelude.{◌≡◌, ◌<◌, ◌≤◌, length, get_or};
ghost use Rattle.base.specs.Lists.{bytes_at};
ghost use Rattle.meaning.specs.Program.{parts};
ghost use Rattle.meaning.specs.Cycle.{works_from};
ghost use Rattle.run_settle.specs.Deciding.{leaf, passed, pending_after, shows};

use meaning::Number;
use meaning::kinds::Kind;
use meaning::sizes::UNMARKED;
use program_table::table::Table;

#[tactic(auto, unfolding(crate::specs::Deciding::leaf))]
fn is_leaf(kind: Kind) -> bool
    ensures { result ≡ leaf kind }
{
    matches!(kind, Kind::Goal | Kind::Start | Kind::Wait)
}

// Whether part p comes after the end of the pending CHOICE.
fn has_passed(pending: Option<Number>, p: Number) -> bool
    ensures { result ≡ passed pending p }
{
    pending.is_some_and(|end| end <= p)
}

// The marks that a settling leaves the parts of a table.
#[derive(Clone, Copy)]
pub(crate) struct Marks<'a> {
    pub table: Table<'a>,
    pub bytes: &'a [u8],
    pub ghost long: { parts table.bytes.now ≤ length bytes.now },
}

impl<'a> Marks<'a> {
    // Whether part p is marked and shows that a leaf or a deciding CHOICE is: p is a leaf itself, or it comes
    // after the end of the pending CHOICE, in which then nothing is marked.
    #[tactic(auto, using(crate::proofs::Deciding::shows_unmarked, crate::proofs::Deciding::shows_leaf, crate::proofs::Deciding::shows_passed))]
    fn shows(self, p: Number, pending: Option<Number>) -> bool
        requires { p < parts self.table.bytes.now }
        ensures { result ≡ shows self.entry.table.bytes.now p (get_or self.entry.bytes.now p 0) pending }
    {
        self.bytes[usize::from(p)] != UNMARKED
            && (is_leaf(self.table.kind(p)) || has_passed(pending, p))
    }

    // The end of the CHOICE that is still without a marked part inside after part p.
    #[tactic(auto, using(crate::proofs::Deciding::pending_kept, crate::proofs::Deciding::pending_choice, crate::proofs::Deciding::pending_none))]
    fn pending_after(self, p: Number, pending: Option<Number>) -> Option<Number>
        requires { p < parts self.table.bytes.now }
        ensures { result ≡ pending_after self.entry.table.bytes.now p (get_or self.entry.bytes.now p 0) pending }
    {
        if self.bytes[usize::from(p)] == UNMARKED {
            return pending;
        }
        if self.table.kind(p) == Kind::Choice {
            Some(self.table.end(p))
        } else {
            None
        }
    }

    // Whether a leaf or a deciding CHOICE is marked.
    #[tactic(auto, using(crate::proofs::Deciding::works_begin, crate::proofs::Deciding::works_shown, crate::proofs::Deciding::works_next, crate::proofs::Deciding::works_end))]
    pub(crate) fn works(self) -> bool
        ensures { result ≡ works_from self.entry.table.bytes.now 0 (bytes_at self.entry.bytes.now 0 (parts self.entry.table.bytes.now)) }
    {
        let mut pending: Option<Number> = None;
        for p in 0..self.table.parts() {
            if self.shows(p, pending) {
                return true;
            }
            pending = self.pending_after(p, pending);
        }
        pending.is_some()
    }
}
