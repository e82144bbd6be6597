//! The commands that read, as a library for C: each answers to bytes in memory as the program does, in buffers of the caller's.
#![tactic(auto)]

ghost use Rattle.dwg_c.specs.Answers.{Answers};
ghost use Rattle.dwg_commands.specs.Outcome.{outcome_of_input};

mod answering;
mod caller_buffer;
mod passed;

use crate::answering::answer;
use dwg_commands::Command;
use std::alloc::Global;

/// The text of the file header, as `dwg sections`.
#[unsafe(no_mangle)]
pub extern "C" fn dwg_sections(
    alloc: Global,
    input: &[u8],
    output: &mut [u8],
    written: &mut usize,
    notes: &mut [u8],
    noted: &mut usize,
) -> u8
    ensures answers { Answers (outcome_of_input Command.Sections input.now) (record { status = result; output = output.new; written = written.new; notes = notes.new; noted = noted.new }) }
{
    answer(
        alloc,
        Command::Sections,
        input,
        output,
        written,
        notes,
        noted,
    )
}

/// The text of the classes, as `dwg classes`.
#[unsafe(no_mangle)]
pub extern "C" fn dwg_classes(
    alloc: Global,
    input: &[u8],
    output: &mut [u8],
    written: &mut usize,
    notes: &mut [u8],
    noted: &mut usize,
) -> u8
    ensures answers { Answers (outcome_of_input Command.Classes input.now) (record { status = result; output = output.new; written = written.new; notes = notes.new; noted = noted.new }) }
{
    answer(
        alloc,
        Command::Classes,
        input,
        output,
        written,
        notes,
        noted,
    )
}

/// The text of the drawing, as `dwg show`.
#[unsafe(no_mangle)]
pub extern "C" fn dwg_show(
    alloc: Global,
    input: &[u8],
    output: &mut [u8],
    written: &mut usize,
    notes: &mut [u8],
    noted: &mut usize,
) -> u8
    ensures answers { Answers (outcome_of_input Command.Show input.now) (record { status = result; output = output.new; written = written.new; notes = notes.new; noted = noted.new }) }
{
    answer(alloc, Command::Show, input, output, written, notes, noted)
}

/// The canonical file of the drawing, as `dwg rewrite`.
#[unsafe(no_mangle)]
pub extern "C" fn dwg_rewrite(
    alloc: Global,
    input: &[u8],
    output: &mut [u8],
    written: &mut usize,
    notes: &mut [u8],
    noted: &mut usize,
) -> u8
    ensures answers { Answers (outcome_of_input Command.Rewrite input.now) (record { status = result; output = output.new; written = written.new; notes = notes.new; noted = noted.new }) }
{
    answer(
        alloc,
        Command::Rewrite,
        input,
        output,
        written,
        notes,
        noted,
    )
}

/// The canonical file of the drawing with the preview of the input, as `dwg carry`.
#[unsafe(no_mangle)]
pub extern "C" fn dwg_carry(
    alloc: Global,
    input: &[u8],
    output: &mut [u8],
    written: &mut usize,
    notes: &mut [u8],
    noted: &mut usize,
) -> u8
    ensures answers { Answers (outcome_of_input Command.Carry input.now) (record { status = result; output = output.new; written = written.new; notes = notes.new; noted = noted.new }) }
{
    answer(alloc, Command::Carry, input, output, written, notes, noted)
}

/// What the references of the drawing fail, as `dwg audit`.
#[unsafe(no_mangle)]
pub extern "C" fn dwg_audit(
    alloc: Global,
    input: &[u8],
    output: &mut [u8],
    written: &mut usize,
    notes: &mut [u8],
    noted: &mut usize,
) -> u8
    ensures answers { Answers (outcome_of_input Command.Audit input.now) (record { status = result; output = output.new; written = written.new; notes = notes.new; noted = noted.new }) }
{
    answer(alloc, Command::Audit, input, output, written, notes, noted)
}

/// The items of the extended data of the drawing, as `dwg appdata`.
#[unsafe(no_mangle)]
pub extern "C" fn dwg_appdata(
    alloc: Global,
    input: &[u8],
    output: &mut [u8],
    written: &mut usize,
    notes: &mut [u8],
    noted: &mut usize,
) -> u8
    ensures answers { Answers (outcome_of_input Command.Appdata input.now) (record { status = result; output = output.new; written = written.new; notes = notes.new; noted = noted.new }) }
{
    answer(
        alloc,
        Command::Appdata,
        input,
        output,
        written,
        notes,
        noted,
    )
}

/// The certificate of the drawing, as `dwg certify`.
#[unsafe(no_mangle)]
pub extern "C" fn dwg_certify(
    alloc: Global,
    input: &[u8],
    output: &mut [u8],
    written: &mut usize,
    notes: &mut [u8],
    noted: &mut usize,
) -> u8
    ensures answers { Answers (outcome_of_input Command.Certify input.now) (record { status = result; output = output.new; written = written.new; notes = notes.new; noted = noted.new }) }
{
    answer(
        alloc,
        Command::Certify,
        input,
        output,
        written,
        notes,
        noted,
    )
}

/// Whether the certificate that the input begins with is one of the drawing after it, as `dwg accept`.
#[unsafe(no_mangle)]
pub extern "C" fn dwg_accept(
    alloc: Global,
    input: &[u8],
    output: &mut [u8],
    written: &mut usize,
    notes: &mut [u8],
    noted: &mut usize,
) -> u8
    ensures answers { Answers (outcome_of_input Command.Accept input.now) (record { status = result; output = output.new; written = written.new; notes = notes.new; noted = noted.new }) }
{
    answer(alloc, Command::Accept, input, output, written, notes, noted)
}

/// The canonical file of the drawing, or of all that is left of it, as `dwg recover`.
#[unsafe(no_mangle)]
pub extern "C" fn dwg_recover(
    alloc: Global,
    input: &[u8],
    output: &mut [u8],
    written: &mut usize,
    notes: &mut [u8],
    noted: &mut usize,
) -> u8
    ensures answers { Answers (outcome_of_input Command.Recover input.now) (record { status = result; output = output.new; written = written.new; notes = notes.new; noted = noted.new }) }
{
    answer(
        alloc,
        Command::Recover,
        input,
        output,
        written,
        notes,
        noted,
    )
}
