//! Why a run ends with another status than 0, and the line that says so.
ghost use Rattle.std.specs.Prelude.{◌≡◌, ◌++◌, OnOk, IfOk, codes, MatchOption, true, false};
ghost use Rattle.std.specs.Fmt.{decimal};
ghost use Rattle.rtx_tree.specs.Limit.{limit_name};
ghost use Rattle.rtl_print.specs.Print.{printed};
ghost use Rattle.run_refusal.specs.Refusals as spec;

use pass_name::Pass;
use plain_data::Memory;
use rtl_print::print_rtx;
use rtx_tree::{Limit, Name, Place, Rtx};
use std::alloc::Global;
use term_text::{Item, print_item};
use text_words::{print_count, print_text};

/// The line of want of memory, which takes none.
pub const MEMORY_LINE: &[u8] = b"rtlc: out of memory\n";

/// Why a run ends with another status than 0. Each value is one that the line of the refusal shows.
#[derive(Drop)]
pub enum Refusal {
    /// Status 1: the words are no command.
    Usage,
    /// Status 2: the bytes are no text; the place ends the longest prefix of them that begins one.
    /// `file` is `-` for the input.
    Syntax {
        file: Name,
        place: Place,
    },
    /// Status 2: the first tree of the input that is outside the language, with the first atom in
    /// it, or `-`.
    Construct {
        place: Place,
        name: Name,
    },
    /// Status 2: a rule of a well-formed function fails at the instruction with this uid; 0 stands
    /// for the function.
    IllFormed {
        function: Name,
        uid: u32,
        rule: u8,
    },
    /// Status 2: a counted quantity passes its number.
    Limit {
        which: Limit,
        count: u64,
    },
    /// Status 3: no form matches this instruction of the function.
    Unmatched {
        function: Name,
        uid: u32,
        pass: Pass,
        insn: Rtx,
    },
    /// Status 4: no enabled alternative of the form that matches this instruction of the function
    /// is reachable; it is shown with its homes.
    Unsatisfied {
        function: Name,
        uid: u32,
        form: Name,
        insn: Rtx,
    },
    /// Status 5: by this rule something would stand in the place of instructions, of which the
    /// first has this uid, and it is not known to do the same: this item differs, with these texts
    /// of its two sides; `-` where a side has none.
    NotEquated {
        function: Name,
        uid: u32,
        rule: Name,
        item: Item,
        left: Name,
        right: Name,
    },
    /// Status 6: a read failed.
    ReadFault,
    /// Status 7: a write failed; what was written is a prefix of the text.
    WriteFault,
    /// Status 8: memory ran out.
    Memory,
}

impl From<Memory> for Refusal {
    ghost use Rattle.std.specs.Prelude.{◌≡◌};
    ghost use Rattle.run_refusal.specs.declared.refusal.Refusal.TheVariants as refusal;

    ghost from_gives = { λ _ e. e ≡ refusal.Memory };

    fn from(_e: Memory) -> Refusal {
        Refusal::Memory
    }
}

/// The exit status of a refusal.
pub fn status(refusal: &Refusal) -> u8
    ensures { result ≡ spec.status_of refusal.now }
{
    match refusal {
        Refusal::Usage => 1,
        Refusal::Syntax { .. } | Refusal::Construct { .. } | Refusal::IllFormed { .. } => 2,
        Refusal::Limit { .. } => 2,
        Refusal::Unmatched { .. } => 3,
        Refusal::Unsatisfied { .. } => 4,
        Refusal::NotEquated { .. } => 5,
        Refusal::ReadFault => 6,
        Refusal::WriteFault => 7,
        Refusal::Memory => 8,
    }
}

/// Prints `LINE:COLUMN`.
fn print_place(place: Place, out: &mut Vec<u8>) -> Result<(), Memory>
    ensures { OnOk result (out.new.items ≡ out.old.items ++ spec.place_text place) }
{
    print_count(u64::from(place.line), out)?;
    print_text(b":", out)?;
    print_count(u64::from(place.column), out)
}

fn syntax_line(file: &Name, place: Place, out: &mut Vec<u8>) -> Result<(), Memory>
    ensures { OnOk result (out.new.items ≡ out.old.items ++ spec.syntax_line file.now place) }
{
    print_text(b"rtlc: ", out)?;
    print_text(file.bytes(), out)?;
    print_text(b":", out)?;
    print_place(place, out)?;
    print_text(b": syntax\n", out)
}

fn print_construct(name: &Name, out: &mut Vec<u8>) -> Result<(), Memory>
    ensures { OnOk result (out.new.items ≡ out.old.items ++
        (codes ": construct " ++ (name.now ++ codes "\n"))) }
{
    print_text(b": construct ", out)?;
    print_text(name.bytes(), out)?;
    print_text(b"\n", out)
}

fn construct_line(place: Place, name: &Name, out: &mut Vec<u8>) -> Result<(), Memory>
    ensures { OnOk result (out.new.items ≡ out.old.items ++ spec.construct_line place name.now) }
{
    print_text(b"rtlc: -:", out)?;
    print_place(place, out)?;
    print_construct(name, out)
}

fn limit_line(which: Limit, count: u64, out: &mut Vec<u8>) -> Result<(), Memory>
    ensures { OnOk result (out.new.items ≡ out.old.items ++ spec.limit_line which count) }
{
    print_text(b"rtlc: limit ", out)?;
    print_text(which.name().as_bytes(), out)?;
    print_text(b": ", out)?;
    print_count(count, out)?;
    print_text(b"\n", out)
}

/// Prints `rtlc: FUNCTION:UID: `.
fn print_at(function: &Name, uid: u32, out: &mut Vec<u8>) -> Result<(), Memory>
    ensures { OnOk result (out.new.items ≡ out.old.items ++ spec.at_text function.now uid) }
{
    print_text(b"rtlc: ", out)?;
    print_text(function.bytes(), out)?;
    print_text(b":", out)?;
    print_count(u64::from(uid), out)?;
    print_text(b": ", out)
}

fn print_rule(rule: u8, out: &mut Vec<u8>) -> Result<(), Memory>
    ensures { OnOk result (out.new.items ≡ out.old.items ++
        (codes "rule " ++ (decimal rule ++ codes "\n"))) }
{
    print_text(b"rule ", out)?;
    print_count(u64::from(rule), out)?;
    print_text(b"\n", out)
}

fn rule_line(function: &Name, uid: u32, rule: u8, out: &mut Vec<u8>) -> Result<(), Memory>
    ensures { OnOk result (out.new.items ≡ out.old.items ++ spec.rule_line function.now uid rule) }
{
    print_at(function, uid, out)?;
    print_rule(rule, out)
}

fn print_pass(pass: Pass, out: &mut Vec<u8>) -> Result<(), Memory>
    ensures { OnOk result (out.new.items ≡ out.old.items ++ spec.pass_text pass) }
{
    print_text(b"unmatched at ", out)?;
    print_text(pass.name().as_bytes(), out)?;
    print_text(b": ", out)
}

fn print_insn(insn: &Rtx, out: &mut Vec<u8>) -> Result<(), Memory>
    ensures { OnOk result (out.new.items ≡ out.old.items ++ (printed insn.now ++ codes "\n")) }
{
    print_rtx(insn, out)?;
    print_text(b"\n", out)
}

fn unmatched_line(
    function: &Name,
    uid: u32,
    pass: Pass,
    insn: &Rtx,
    out: &mut Vec<u8>,
) -> Result<(), Memory>
    ensures { OnOk result (out.new.items ≡ out.old.items ++ spec.unmatched_line function.now uid
        pass insn.now) }
{
    print_at(function, uid, out)?;
    print_pass(pass, out)?;
    print_insn(insn, out)
}

/// Prints `unsatisfied FORM: `.
fn print_unsatisfied(form: &Name, out: &mut Vec<u8>) -> Result<(), Memory>
    ensures { OnOk result (out.new.items ≡ out.old.items ++ spec.unsatisfied_text form.now) }
{
    print_text(b"unsatisfied ", out)?;
    print_text(form.bytes(), out)?;
    print_text(b": ", out)
}

fn unsatisfied_line(
    function: &Name,
    uid: u32,
    form: &Name,
    insn: &Rtx,
    out: &mut Vec<u8>,
) -> Result<(), Memory>
    ensures { OnOk result (out.new.items ≡ out.old.items ++ spec.unsatisfied_line function.now uid
        form.now insn.now) }
{
    print_at(function, uid, out)?;
    print_unsatisfied(form, out)?;
    print_insn(insn, out)
}

/// Prints `not equated RULE: `.
fn print_form(rule: &Name, out: &mut Vec<u8>) -> Result<(), Memory>
    ensures { OnOk result (out.new.items ≡ out.old.items ++ spec.form_text rule.now) }
{
    print_text(b"not equated ", out)?;
    print_text(rule.bytes(), out)?;
    print_text(b": ", out)
}

fn print_both(left: &Name, right: &Name, out: &mut Vec<u8>) -> Result<(), Memory>
    ensures { OnOk result (out.new.items ≡ out.old.items ++ spec.both_text left.now right.now) }
{
    print_text(left.bytes(), out)?;
    print_text(b" and ", out)?;
    print_text(right.bytes(), out)?;
    print_text(b"\n", out)
}

/// Prints `ITEM: LEFT and RIGHT`.
fn print_sides(item: Item, left: &Name, right: &Name, out: &mut Vec<u8>) -> Result<(), Memory>
    ensures { OnOk result (out.new.items ≡ out.old.items ++ spec.sides_text item left.now
        right.now) }
{
    print_item(item, out)?;
    print_text(b": ", out)?;
    print_both(left, right, out)
}

fn not_equated_line(
    function: &Name,
    uid: u32,
    rule: &Name,
    item: Item,
    left: &Name,
    right: &Name,
    out: &mut Vec<u8>,
) -> Result<(), Memory>
    ensures { OnOk result (out.new.items ≡ out.old.items ++ spec.not_equated_line function.now uid
        rule.now item left.now right.now) }
{
    print_at(function, uid, out)?;
    print_form(rule, out)?;
    print_sides(item, left, right, out)
}

/// Appends the line of a refusal.
fn print_line(refusal: &Refusal, out: &mut Vec<u8>) -> Result<(), Memory>
    ensures { OnOk result (out.new.items ≡ out.old.items ++ spec.line_of refusal.now) }
{
    match refusal {
        Refusal::Usage => print_text(b"rtlc: the words are not a command\n", out),
        Refusal::Syntax { file, place } => syntax_line(file, *place, out),
        Refusal::Construct { place, name } => construct_line(*place, name, out),
        Refusal::IllFormed {
            function,
            uid,
            rule,
        } => rule_line(function, *uid, *rule, out),
        Refusal::Limit { which, count } => limit_line(*which, *count, out),
        Refusal::Unmatched {
            function,
            uid,
            pass,
            insn,
        } => unmatched_line(function, *uid, *pass, insn, out),
        Refusal::Unsatisfied {
            function,
            uid,
            form,
            insn,
        } => unsatisfied_line(function, *uid, form, insn, out),
        Refusal::NotEquated {
            function,
            uid,
            rule,
            item,
            left,
            right,
        } => not_equated_line(function, *uid, rule, *item, left, right, out),
        Refusal::ReadFault => print_text(b"rtlc: read fault\n", out),
        Refusal::WriteFault => print_text(b"rtlc: write fault\n", out),
        Refusal::Memory => print_text(b"rtlc: out of memory\n", out),
    }
}

/// The line of a refusal whose line has no values in it.
pub fn fixed_line(refusal: &Refusal) -> Option<&'static [u8]>
    ensures { MatchOption result (spec.has_values refusal.now ≡ true) (λ text.
        (text.now ≡ spec.line_of refusal.now) × (spec.has_values refusal.now ≡ false)) }
{
    match refusal {
        Refusal::Usage => Some(b"rtlc: the words are not a command\n"),
        Refusal::ReadFault => Some(b"rtlc: read fault\n"),
        Refusal::WriteFault => Some(b"rtlc: write fault\n"),
        Refusal::Memory => Some(MEMORY_LINE),
        _ => None,
    }
}

/// The line of a refusal.
pub fn line(alloc: Global, refusal: &Refusal) -> Result<Vec<u8>, Memory>
    ensures { IfOk result (λ text. text.items ≡ spec.line_of refusal.now) }
{
    let mut text = Vec::new(alloc);
    print_line(refusal, &mut text)?;
    Ok(text)
}
