//! The summary of a generated function.
ghost use Rattle.std.specs.Prelude.{◌≡◌, ◌≢◌, ◌++◌, OnOk, IfOk, Err};
ghost use Rattle.rtlc_run.specs.Generated as spec;
ghost use Rattle.rtlc_run.specs.Generated.{SummaryComes};
ghost use Rattle.rtlc_run.specs.machine.Steps.{Gives, IsOwn};

use func_image::{Summary, compile};
use md_desc::Description;
use pass_name::Road;
use plain_data::Memory;
use rtl_make::made;
use run_refusal::Refusal;
use std::alloc::Global;
use std::slice;
use text_words::{print_count, print_text};

/// Appends a count behind its name.
fn print_counted(name: &[u8], count: u64, out: &mut Vec<u8>) -> Result<(), Memory>
    ensures { OnOk result (out.new.items ≡ out.old.items ++ spec.counted name.now count) }
{
    print_text(name, out)?;
    print_count(count, out)
}

/// Appends the slots, the bytes of the frame, and the lines.
fn print_frame(summary: &Summary, out: &mut Vec<u8>) -> Result<(), Memory>
    ensures { OnOk result (out.new.items ≡ out.old.items ++ spec.frame_text summary.now) }
{
    print_counted(b", slots ", summary.slots, out)?;
    print_counted(b", frame ", summary.frame, out)?;
    print_counted(b", lines ", summary.lines, out)?;
    print_text(b"\n", out)
}

/// The line of a summary.
fn summary_text(alloc: Global, summary: &Summary) -> Result<Vec<u8>, Memory>
    ensures { IfOk result (λ text. text.items ≡ spec.summary_line summary.now) }
{
    let mut text = Vec::new(alloc);
    print_counted(b"instructions ", summary.instructions, &mut text)?;
    print_counted(b", combined ", summary.combined, &mut text)?;
    print_frame(summary, &mut text)?;
    Ok(text)
}

/// The summary of the generated function with a number, as it is compiled by a description.
pub(crate) fn summary_of(
    alloc: Global,
    description: &Description,
    number: u16,
) -> Result<Vec<u8>, Refusal>
    ensures gives { Gives result (SummaryComes number description.now) }
    ensures own { IsOwn result }
    ensures read { result ≢ Err Refusal.ReadFault }
{
    let function = made(alloc, u32::from(number))?;
    let mut text = Vec::new(alloc);
    let summary = compile(
        alloc,
        description,
        Road::Usual,
        slice::from_ref(&function),
        &mut text,
    )?;
    Ok(summary_text(alloc, &summary)?)
}
