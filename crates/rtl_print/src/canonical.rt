//! Prints functions in canonical text.
ghost use Rattle.std.specs.Prelude.{◌≡◌, ◌++◌, List, OnErr, OnOk, flat_map, codes};
ghost use Rattle.rtx_tree.specs.declared.function.Function.{Function};
ghost use Rattle.rtl_print.specs.Back.{IsReadable, AreReadable, ReadsBack, AllReadBack};
ghost use Rattle.rtl_print.specs.Canonical as spec;
ghost use Rattle.rtl_print.specs.machine.Pieces.{closed};

use crate::print::{print, print_head};
use plain_data::Memory;
use rtx_tree::{ArgUse, Code, Function, Insn, Kind, Mode, print_register};
use text_words::print_count;

/// Prints a text between two others.
fn print_between(front: &[u8], text: &[u8], back: &[u8], out: &mut Vec<u8>) -> Result<(), Memory>
    ensures { OnOk result (out.new.items ≡ out.old.items ++ (front.now ++ (text.now ++ back.now))) }
{
    out.extend_from_slice(front)?;
    out.extend_from_slice(text)?;
    out.extend_from_slice(back)?;
    Ok(())
}

/// Prints `(reg:MODE R)`.
#[tactic(auto, unfolding(crate::specs::Canonical::printed_register))]
fn print_reg_in(mode: Mode, reg: u32, out: &mut Vec<u8>) -> Result<(), Memory>
    ensures { OnOk result (out.new.items ≡ out.old.items ++ spec.printed_register mode reg) }
{
    out.push(b'(')?;
    print_head(Code::Reg, mode, out)?;
    out.push(b' ')?;
    print_register(u64::from(reg), out)?;
    out.push(b')')?;
    Ok(())
}

/// Prints what stands in front of the rest of a chain of uses.
fn print_link(arg: ArgUse, out: &mut Vec<u8>) -> Result<(), Memory>
    ensures { OnOk result (out.new.items ≡ out.old.items ++ spec.printed_link arg) }
{
    out.extend_from_slice(b"(expr_list (use ")?;
    print_reg_in(arg.mode, u32::from(arg.reg), out)?;
    out.extend_from_slice(b") ")?;
    Ok(())
}

fn print_links(uses: &[ArgUse], out: &mut Vec<u8>) -> Result<(), Memory>
    ensures { OnOk result (out.new.items ≡ out.old.items ++ flat_map spec.printed_link uses.now) }
{
    for arg in uses {
        print_link(*arg, out)?;
    }
    Ok(())
}

/// Prints so many closing parentheses.
fn print_closed(count: usize, out: &mut Vec<u8>) -> Result<(), Memory>
    ensures { OnOk result (out.new.items ≡ out.old.items ++ closed count) }
{
    for closing in 0..count {
        out.push(b')')?;
    }
    Ok(())
}

/// Prints a chain of uses, `(nil)` or `(expr_list USE CHAIN)`.
fn print_uses(uses: &[ArgUse], out: &mut Vec<u8>) -> Result<(), Memory>
    ensures { OnOk result (out.new.items ≡ out.old.items ++ spec.printed_uses uses.now) }
{
    print_links(uses, out)?;
    out.extend_from_slice(b"(nil)")?;
    print_closed(uses.len(), out)?;
    Ok(())
}

/// Prints a word and the number of an instruction.
fn print_numbered(word: &[u8], insn: &Insn, out: &mut Vec<u8>) -> Result<(), Memory>
    ensures { OnOk result (out.new.items ≡ out.old.items ++ spec.numbered word.now insn.now) }
{
    out.extend_from_slice(word)?;
    out.push(b' ')?;
    print_count(u64::from(insn.uid), out)
}

/// Prints a word, the number of an instruction and what it does.
fn print_doing(word: &[u8], insn: &Insn, out: &mut Vec<u8>) -> Result<(), Memory>
    ensures { OnOk result (out.new.items ≡ out.old.items ++ spec.doing word.now insn.now) }
{
    print_numbered(word, insn, out)?;
    out.push(b' ')?;
    print(&insn.pattern, out)
}

fn print_call(insn: &Insn, out: &mut Vec<u8>) -> Result<(), Memory>
    ensures { OnOk result (out.new.items ≡ out.old.items ++ spec.calling insn.now) }
{
    print_doing(b"ccall_insn", insn, out)?;
    out.push(b' ')?;
    print_uses(insn.uses.as_slice(), out)
}

/// Prints what stands between the parentheses of a line of the chain.
fn print_body(insn: &Insn, out: &mut Vec<u8>) -> Result<(), Memory>
    ensures { OnOk result (out.new.items ≡ out.old.items ++ spec.insn_body insn.now.kind insn.now) }
{
    match insn.kind {
        Kind::Plain => print_doing(b"cinsn", insn, out),
        Kind::Jump => print_doing(b"cjump_insn", insn, out),
        Kind::Call => print_call(insn, out),
        Kind::Label => print_numbered(b"clabel", insn, out),
        Kind::Barrier => {
            out.extend_from_slice(b"cbarrier")?;
            Ok(())
        }
    }
}

#[tactic(auto, unfolding(crate::specs::Canonical::printed_insn))]
fn print_insn(insn: &Insn, out: &mut Vec<u8>) -> Result<(), Memory>
    ensures { OnOk result (out.new.items ≡ out.old.items ++ spec.printed_insn insn.now) }
{
    out.extend_from_slice(b"    (")?;
    print_body(insn, out)?;
    out.extend_from_slice(b")\n")?;
    Ok(())
}

fn print_insns(insns: &[Insn], out: &mut Vec<u8>) -> Result<(), Memory>
    ensures { OnOk result (out.new.items ≡ out.old.items ++ flat_map spec.printed_insn insns.now) }
{
    for insn in insns {
        print_insn(insn, out)?;
    }
    Ok(())
}

fn print_locals(locals: u32, out: &mut Vec<u8>) -> Result<(), Memory>
    ensures { OnOk result (out.new.items ≡ out.old.items ++ spec.printed_locals locals) }
{
    out.extend_from_slice(b"  (locals ")?;
    print_count(u64::from(locals), out)?;
    out.extend_from_slice(b")\n")?;
    Ok(())
}

/// Prints the lines of the result, if there is one.
fn print_result(mode: Option<Mode>, reg: u32, out: &mut Vec<u8>) -> Result<(), Memory>
    ensures { OnOk result (out.new.items ≡ out.old.items ++ spec.printed_result mode reg) }
{
    let Some(mode) = mode else {
        return Ok(());
    };
    out.extend_from_slice(b"  (crtl\n    (return_rtx ")?;
    print_reg_in(mode, reg, out)?;
    out.extend_from_slice(b")\n  )\n")?;
    Ok(())
}

/// Prints the name of a function, and the beginning of its chain.
#[tactic(auto, unfolding(crate::specs::Canonical::printed_name))]
fn print_name(name: &[u8], out: &mut Vec<u8>) -> Result<(), Memory>
    ensures { OnOk result (out.new.items ≡ out.old.items ++ spec.printed_name name.now) }
{
    print_between(b"(function \"", name, b"\"\n  (insn-chain\n", out)
}

/// Prints the name of a function, and its chain.
fn print_front(f: &Function, out: &mut Vec<u8>) -> Result<(), Memory>
    ensures { OnOk result (out.new.items ≡ out.old.items ++ spec.printed_front f.now) }
{
    print_name(f.name.bytes(), out)?;
    print_insns(f.insns.as_slice(), out)?;
    out.extend_from_slice(b"  )\n")?;
    Ok(())
}

/// Prints a function. Where memory runs out `out` holds what it held and a front of the text.
fn print_whole(f: &Function, out: &mut Vec<u8>) -> Result<(), Memory>
    ensures { OnOk result (out.new.items ≡ out.old.items ++ spec.printed_function f.now) }
{
    print_front(f, out)?;
    print_locals(f.locals, out)?;
    print_result(f.result, f.result_reg, out)?;
    out.extend_from_slice(b")\n")?;
    Ok(())
}

/// Appends a function as canonical text: one instruction on a line, the size of the locals, and the
/// result if there is one. Where memory runs out `out` holds what it held.
///
/// Where a tree of some text stands for the function, and its calls are settled, the canonical text
/// is read as one tree, which stands for it; so are the canonical texts of several such functions,
/// one behind the other.
#[tactic(auto, using(crate::proofs::CanonicalBack::reads_back, crate::proofs::CanonicalBack::all_read_back))]
pub fn print_function(f: &Function, out: &mut Vec<u8>) -> Result<(), Memory>
    ensures prints { OnOk result (out.new.items ≡ out.old.items ++ spec.printed_function f.now) }
    ensures kept { OnErr result (out.new.items ≡ out.old.items) }
    ensures reads_back { IsReadable f.now → ReadsBack f.now }
    ensures all_read_back { (fs : List Function) → AreReadable fs → AllReadBack fs }
{
    let mut text = Vec::new(*out.allocator());
    print_whole(f, &mut text)?;
    out.extend_from_slice(text.as_slice())?;
    Ok(())
}
