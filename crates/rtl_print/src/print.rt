//! Prints expressions on one line.
ghost use Rattle.std.specs.Prelude.{◌≡◌, ◌++◌, ◌∷◌, [], OnErr, OnOk, flat_map, codes};
ghost use Rattle.lisp_read.specs.declared.position.Position.{Position};
ghost use Rattle.rtl_print.specs.Print.{head_text, mode_suffix};
ghost use Rattle.rtl_print.specs.Back.{IsReadableAt, ReadsBackAt};
ghost use Rattle.rtl_print.specs.Print as spec;
ghost use Rattle.rtl_print.specs.machine.Pieces.{body_of, separated};

use plain_data::Memory;
use rtx_tree::{Class, Code, Mode, Rtx, print_register};
use text_words::print_number;

fn print_mode(mode: Mode, out: &mut Vec<u8>) -> Result<(), Memory>
    ensures { OnOk result (out.new.items ≡ out.old.items ++ mode_suffix mode) }
{
    if mode.same(Mode::Void) {
        return Ok(());
    }
    out.push(b':')?;
    out.extend_from_slice(mode.name().as_bytes())?;
    Ok(())
}

/// Prints the atom at the head of an expression.
pub(crate) fn print_head(code: Code, mode: Mode, out: &mut Vec<u8>) -> Result<(), Memory>
    ensures { OnOk result (out.new.items ≡ out.old.items ++ head_text code mode) }
{
    out.extend_from_slice(code.name().as_bytes())?;
    print_mode(mode, out)
}

/// Appends a register: a hard one by its name, `virtual-stack-vars`, or pseudo `k` as `<k>`.
pub fn print_reg(number: i64, out: &mut Vec<u8>) -> Result<(), Memory>
    ensures { OnOk result (out.new.items ≡ out.old.items ++ spec.printed_reg number) }
{
    if number < 0 {
        Ok(())
    } else {
        print_register(number.unsigned_abs(), out)
    }
}

/// Prints a symbol's name, with one star more where it begins with one.
fn print_starred(name: &[u8], out: &mut Vec<u8>) -> Result<(), Memory>
    ensures { OnOk result (out.new.items ≡ out.old.items ++ spec.starred name.now) }
{
    if let [b'*', ..] = name {
        out.push(b'*')?;
    }
    out.extend_from_slice(name)?;
    Ok(())
}

fn print_symbol(name: &[u8], out: &mut Vec<u8>) -> Result<(), Memory>
    ensures { OnOk result (out.new.items ≡ out.old.items ++
        (codes " (\"" ++ (spec.starred name.now ++ codes "\")"))) }
{
    out.extend_from_slice(b" (\"")?;
    print_starred(name, out)?;
    out.extend_from_slice(b"\")")?;
    Ok(())
}

/// Prints the numbers of some expressions, each with a space in front.
fn print_bare(kids: &[Rtx], out: &mut Vec<u8>) -> Result<(), Memory>
    ensures { OnOk result (out.new.items ≡ out.old.items ++ flat_map spec.spaced_number kids.now) }
{
    for kid in kids {
        out.push(b' ')?;
        print_number(kid.number, out)?;
    }
    Ok(())
}

/// Prints some expressions, each with a space in front.
#[cycle(print)]
fn print_kids(kids: &[Rtx], out: &mut Vec<u8>) -> Result<(), Memory>
    ensures { OnOk result (out.new.items ≡ out.old.items ++ flat_map spec.spaced_text kids.now) }
{
    for kid in kids {
        out.push(b' ')?;
        print(kid, out)?;
    }
    Ok(())
}

/// Prints some expressions, with a space between each two.
#[cycle(print)]
fn print_separated(kids: &[Rtx], out: &mut Vec<u8>) -> Result<(), Memory>
    ensures { OnOk result (out.new.items ≡ out.old.items ++ separated kids.now) }
{
    for i in 0..kids.len() {
        if i > 0 {
            out.push(b' ')?;
        }
        print(&kids[i], out)?;
    }
    Ok(())
}

/// Prints what stands behind the head of an expression.
#[cycle(print)]
fn print_body(x: &Rtx, out: &mut Vec<u8>) -> Result<(), Memory>
    ensures { OnOk result (out.new.items ≡ out.old.items ++ body_of x.now) }
{
    let kids = x.kids.as_slice();
    match x.code.class() {
        Class::Register => {
            out.push(b' ')?;
            print_reg(x.number, out)
        }
        Class::Constant => {
            out.push(b' ')?;
            print_number(x.number, out)
        }
        Class::Symbol => print_symbol(x.name.bytes(), out),
        Class::Label => print_bare(kids, out),
        Class::Lowpart => {
            print_kids(kids, out)?;
            out.extend_from_slice(b" 0")?;
            Ok(())
        }
        Class::Parallel => {
            out.extend_from_slice(b" [")?;
            print_separated(kids, out)?;
            out.push(b']')?;
            Ok(())
        }
        _ => print_kids(kids, out),
    }
}

/// Prints an expression. Where memory runs out `out` holds what it held and a front of the text.
#[cycle(print)]
pub(crate) fn print(x: &Rtx, out: &mut Vec<u8>) -> Result<(), Memory>
    ensures { OnOk result (out.new.items ≡ out.old.items ++ spec.printed x.now) }
{
    out.push(b'(')?;
    print_head(x.code, x.mode, out)?;
    print_body(x, out)?;
    out.push(b')')?;
    Ok(())
}

/// Appends the text of an expression, on one line with single spaces and no flags. Where memory
/// runs out `out` holds what it held.
///
/// Where a tree of some text stands for the expression at a position, the text is read as one tree,
/// which stands for it there.
#[tactic(auto, using(crate::proofs::RtxBack::rtx_reads_back))]
pub fn print_rtx(x: &Rtx, out: &mut Vec<u8>) -> Result<(), Memory>
    ensures prints { OnOk result (out.new.items ≡ out.old.items ++ spec.printed x.now) }
    ensures kept { OnErr result (out.new.items ≡ out.old.items) }
    ensures reads_back { (p : Position) → IsReadableAt p x.now → ReadsBackAt p x.now }
{
    let mut text = Vec::new(*out.allocator());
    print(x, &mut text)?;
    out.extend_from_slice(text.as_slice())?;
    Ok(())
}
