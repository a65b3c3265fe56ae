// The lines of answers, and that of a line that is no call.
#![tactic(auto)]

ghost use Rattle.base.specs.Lists.{bytes_at};
ghost use Rattle.meaning.specs.Answers.{refusal_number, answer_number, offer_number, settle_number};
ghost use Rattle.desk_format.specs.Pages.{Adds};
ghost use Rattle.desk_answers.specs.Answers.{refused_text, begun_text, settled_text, named_text, goals_text, offered_text, line_text};

use desk_format::page::Page;
use meaning::sizes::NO_VARIABLE;
use meaning::{Answer, Progress, Refusal};

// The answer of a refused call.
pub fn write_refused(why: Refusal, page: &mut Page<'_>)
    ensures { Adds (refused_text (refusal_number why)) page.old page.new }
{
    page.numbered(b"refused ", u32::from(why).into());
}

// The answer of a beginning.
pub fn write_begun(answer: Answer<()>, page: &mut Page<'_>)
    ensures { Adds (begun_text (answer_number answer)) page.old page.new }
{
    match answer {
        Ok(()) => page.word(b"begun\n"),
        Err(why) => write_refused(why, page),
    }
}

// The answer of a settling.
pub fn write_settled(answer: Answer<Progress>, page: &mut Page<'_>)
    ensures { Adds (settled_text (settle_number answer)) page.old page.new }
{
    match answer {
        Ok(Progress::Running) => page.word(b"running\n"),
        Ok(Progress::Finished) => page.word(b"finished\n"),
        Err(why) => write_refused(why, page),
    }
}

// The variable that an offer's answer names, by the number that it has there, to the end of the line.
fn write_named(v: u8, page: &mut Page<'_>)
    ensures { Adds (named_text v) page.old page.new }
{
    if v == NO_VARIABLE {
        page.word(b" named none\n");
    } else {
        page.numbered(b" named ", v.into());
    }
}

// The first v goal bytes, and the variable that is named.
fn write_goals_text(goals: &[u8], v: u8, named: u8, page: &mut Page<'_>)
    ensures { Adds (goals_text (bytes_at goals.now 0 v) named) page.old page.new }
{
    page.word(b"goals");
    page.pairs(goals, 0, v.into());
    write_named(named, page);
}

// The answer of an offer, with the first v goal bytes.
pub fn write_offered(answer: Answer<Option<u8>>, goals: &[u8], v: u8, page: &mut Page<'_>)
    ensures { Adds (offered_text (offer_number answer) (bytes_at goals.now 0 v)) page.old page.new }
{
    match answer {
        Ok(named) => write_goals_text(goals, v, named.unwrap_or(NO_VARIABLE), page),
        Err(why) => write_refused(why, page),
    }
}

// What is said of line n where it is no call.
pub fn write_line_fault(n: u64, page: &mut Page<'_>)
    ensures { Adds (line_text n) page.old page.new }
{
    page.word(b"line ");
    page.number(n);
    page.word(b": not a call\n");
}
