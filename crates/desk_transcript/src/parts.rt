// The line of the marked parts.
ghost use Rattle.std.specs.Prelude.{◌<◌};
ghost use Rattle.meaning.specs.Program.{parts};
ghost use Rattle.desk_format.specs.Pages.{Adds};
ghost use Rattle.desk_transcript.specs.Transcript.{part_text, marks_text, parts_text};

use crate::fields::is_marked;
use desk_format::page::Page;
use meaning::Number;
use program_part::layout::parts;

// Writes part p's number after a space where the part is marked, and nothing where it is not.
fn write_part(t: &[u8], r: &[u8], p: Number, page: &mut Page<'_>)
    requires { p < parts t.now }
    ensures { Adds (part_text t.now r.now p) page.old page.new }
{
    if is_marked(r, p) {
        page.byte(b' ');
        page.number(p.into());
    }
}

// Writes the numbers of the marked parts.
fn write_marks(t: &[u8], r: &[u8], page: &mut Page<'_>)
    ensures { Adds (marks_text t.now r.now) page.old page.new }
{
    for p in 0..parts(t) {
        write_part(t, r, p, page);
    }
}

// Writes the line of the marked parts.
pub fn write_parts(t: &[u8], r: &[u8], page: &mut Page<'_>)
    ensures { Adds (parts_text t.now r.now) page.old page.new }
{
    page.word(b"parts");
    write_marks(t, r, page);
    page.byte(b'\n');
}
