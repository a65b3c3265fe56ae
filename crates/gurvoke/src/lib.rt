// The C interface: the exported functions alone, each a call of the crate that does the work.
// include/gurvoke.h documents them.
#![tactic(auto)]

ghost use Rattle.meaning.specs.Operations.{Compiled, Decompiled, Begun, Offered, Settled};
ghost use Rattle.text_grammar.specs.Assembling.{Assembled};

use meaning::{answer_number, offer_number, settle_number};
use program_compile::compile;
use program_decompile::decompile;
use run_begin::begin;
use run_offer::offer;
use run_settle::settle;
use text_assemble::assemble;

#[unsafe(no_mangle)]
pub extern "C" fn gurvoke_compile(file: &[u8], table: &mut [u8]) -> u32
    ensures { Compiled file.now table.old result table.new }
{
    answer_number(compile(file, table))
}

#[unsafe(no_mangle)]
pub extern "C" fn gurvoke_decompile(table: &[u8], file: &mut [u8]) -> u32
    ensures { Decompiled table.now file.old result file.new }
{
    answer_number(decompile(table, file))
}

#[unsafe(no_mangle)]
pub extern "C" fn gurvoke_begin(table: &[u8], estimate: &[u8], record: &mut [u8]) -> u32
    ensures { Begun table.now estimate.now «record».old result «record».new }
{
    answer_number(begin(table, estimate, record))
}

#[unsafe(no_mangle)]
pub extern "C" fn gurvoke_offer(table: &[u8], record: &mut [u8], time: u32, goals: &mut [u8]) -> u32
    ensures { Offered table.now «record».old time goals.old result «record».new goals.new }
{
    offer_number(offer(table, record, time, goals))
}

#[unsafe(no_mangle)]
pub extern "C" fn gurvoke_settle(table: &[u8], record: &mut [u8], estimate: &[u8]) -> u32
    ensures { Settled table.now «record».old estimate.now result «record».new }
{
    settle_number(settle(table, record, estimate))
}

#[unsafe(no_mangle)]
pub extern "C" fn gurvoke_text(text: &[u8], file: &mut [u8]) -> u32
    ensures { Assembled text.now file.old result file.new }
{
    answer_number(assemble(text, file))
}
