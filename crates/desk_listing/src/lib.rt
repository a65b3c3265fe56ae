// The text of a listing: the sizes and a line for each part, or the number of a refusal.
#![tactic(auto)]

pub mod lines;
pub mod rows;

ghost use Rattle.std.specs.Prelude.{◌≡◌, [], ◌∷◌, ◌≤◌, length};
ghost use Rattle.std.proofs.lemmas.List.Edits.{sets};
ghost use Rattle.meaning.specs.Answers.{refusal_number};
ghost use Rattle.desk_format.specs.Pages.{Adds};
ghost use Rattle.desk_listing.specs.Listing.{line, listing, max_listing};

use crate::lines::write_line;
use crate::rows::write_table_text;
use desk_format::page::Page;
use meaning::Refusal;
use meaning::sizes::MAX_TABLE;
use program_compile::compile;

// Room for the longest listing.
pub const MAX_LISTING: usize = 37863;

// Writes the listing of a program file, and gives its length.
pub fn list(file: &[u8], out: &mut [u8]) -> usize
    ensures value { result ≡ length (listing file.now) }
    ensures out_after { out.new ≡ sets out.old 0 (listing file.now) }
    ensures upper_bound { result ≤ max_listing }
{
    let mut page = Page::new(out);
    write_listing(file, &mut page);
    page.length
}

// Writes the table of a program file, or the number of its refusal.
fn write_listing(file: &[u8], page: &mut Page<'_>)
    ensures { Adds (listing file.now) page.old page.new }
{
    let mut table = [0u8; MAX_TABLE];
    match compile(file, &mut table) {
        Ok(()) => write_table_text(&table, page),
        Err(why) => write_refusal(why, page),
    }
}

// Writes the line of a refusal: its number alone.
fn write_refusal(why: Refusal, page: &mut Page<'_>)
    ensures { Adds (line (refusal_number why ∷ [])) page.old page.new }
{
    write_line(&[u32::from(why).into()], page);
}
