//! The lines of forms.
ghost use Rattle.std.specs.Prelude.{◌≡◌, ◌++◌, OnOk, length};
ghost use Rattle.md_list.specs.Listing as spec;

use md_forms::{Entry, Form};
use md_pattern::Judged;
use plain_data::Memory;
use rtx_tree::Name;
use text_words::print_count;

/// Appends `ok`, or `aside` with the number of the reason.
fn print_verdict(form: &Judged<Form>, out: &mut Vec<u8>) -> Result<(), Memory>
    ensures { OnOk result (out.new.items ≡ out.old.items ++ spec.verdict form.now) }
{
    match form {
        Ok(_) => {
            out.extend_from_slice(b"ok")?;
            Ok(())
        }
        Err(reason) => {
            out.extend_from_slice(b"aside ")?;
            print_count(u64::from(reason.number()), out)
        }
    }
}

/// Appends a line of these words.
fn print_words(
    index: u64,
    head: &[u8],
    name: &[u8],
    form: &Judged<Form>,
    out: &mut Vec<u8>,
) -> Result<(), Memory>
    ensures { OnOk result (out.new.items ≡ out.old.items ++ spec.line_with index head.now name.now
        form.now) }
{
    print_count(index, out)?;
    out.push(b' ')?;
    out.extend_from_slice(head)?;
    out.push(b' ')?;
    out.extend_from_slice(name)?;
    out.push(b' ')?;
    print_verdict(form, out)?;
    out.push(b'\n')?;
    Ok(())
}

/// Appends the lines of some forms that are shown under some names.
#[tactic(auto, using(crate::proofs::Lines::printed_next, crate::proofs::Lines::printed_ends))]
pub fn print_list(entries: &[Entry], names: &[Name], out: &mut Vec<u8>) -> Result<(), Memory>
    requires { length names.now ≡ length entries.now }
    ensures { OnOk result (out.new.items ≡ out.old.items ++ spec.lines_from 0 entries.now
        names.now) }
{
    for at in 0..entries.len() {
        let entry = &entries[at];
        print_words(
            at as u64,
            entry.head.bytes(),
            names[at].bytes(),
            &entry.form,
            out,
        )?;
    }
    Ok(())
}
