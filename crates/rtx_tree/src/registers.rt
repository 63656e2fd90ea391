//! Registers: how RTL numbers them, the names of the hard ones, and which of these a call may
//! change.
ghost use Rattle.std.specs.Prelude.{◌≡◌, ◌<◌, ◌^◌, ◌++◌, OnOk, codes};
ghost use Rattle.std.specs.Fmt.{decimal};
ghost use Rattle.rtx_tree.specs.Registers as spec;
ghost use Rattle.rtx_tree.specs.Registers.{reg_text, number_of_reg, is_call_used};

use plain_data::Memory;
use text_words::print_count;

/// How many hard registers there are. Their numbers are those below this.
pub const HARD_REGS: u8 = 32;

/// The register that stands for the address just past a function's locals.
pub const VIRTUAL_STACK_VARS: u32 = 32;

/// The number of pseudo register 0. Those of the others follow.
pub const FIRST_PSEUDO: u32 = 64;

/// The number of pseudo register `k`.
pub fn pseudo(k: u32) -> u32
    requires { k < 2 ^ 31 }
    ensures { result ≡ spec.pseudo k }
{
    FIRST_PSEUDO + k
}

/// The name of register `reg` in the calling convention, as `a0` for 10.
pub fn reg_name(reg: u8) -> &'static str
    requires { reg < 32 }
    ensures { result.now ≡ reg_text reg }
{
    match reg {
        0 => "zero",
        1 => "ra",
        2 => "sp",
        3 => "gp",
        4 => "tp",
        5 => "t0",
        6 => "t1",
        7 => "t2",
        8 => "s0",
        9 => "s1",
        10 => "a0",
        11 => "a1",
        12 => "a2",
        13 => "a3",
        14 => "a4",
        15 => "a5",
        16 => "a6",
        17 => "a7",
        18 => "s2",
        19 => "s3",
        20 => "s4",
        21 => "s5",
        22 => "s6",
        23 => "s7",
        24 => "s8",
        25 => "s9",
        26 => "s10",
        27 => "s11",
        28 => "t3",
        29 => "t4",
        30 => "t5",
        _ => "t6",
    }
}

/// The register with this name, or `None` where no register has it.
pub fn reg_number(name: &[u8]) -> Option<u8>
    ensures { result ≡ number_of_reg name.now }
{
    match name {
        b"zero" => Some(0),
        b"ra" => Some(1),
        b"sp" => Some(2),
        b"gp" => Some(3),
        b"tp" => Some(4),
        b"t0" => Some(5),
        b"t1" => Some(6),
        b"t2" => Some(7),
        b"s0" => Some(8),
        b"s1" => Some(9),
        b"a0" => Some(10),
        b"a1" => Some(11),
        b"a2" => Some(12),
        b"a3" => Some(13),
        b"a4" => Some(14),
        b"a5" => Some(15),
        b"a6" => Some(16),
        b"a7" => Some(17),
        b"s2" => Some(18),
        b"s3" => Some(19),
        b"s4" => Some(20),
        b"s5" => Some(21),
        b"s6" => Some(22),
        b"s7" => Some(23),
        b"s8" => Some(24),
        b"s9" => Some(25),
        b"s10" => Some(26),
        b"s11" => Some(27),
        b"t3" => Some(28),
        b"t4" => Some(29),
        b"t5" => Some(30),
        b"t6" => Some(31),
        _ => None,
    }
}

/// Whether a call may change register `reg`: `ra`, `t0` to `t6` and `a0` to `a7`. From 32 on it is
/// false.
pub fn reg_call_used(reg: u8) -> bool
    ensures { result ≡ is_call_used reg }
{
    matches!(reg, 1 | 5..=7 | 10..=17 | 28..=31)
}

/// Prints `<k>` for pseudo register `k`.
fn print_pseudo(pseudo: u64, out: &mut Vec<u8>) -> Result<(), Memory>
    ensures { OnOk result (out.new.items ≡ out.old.items ++
        (codes "<" ++ (decimal pseudo ++ codes ">"))) }
{
    out.push(b'<')?;
    print_count(pseudo, out)?;
    out.push(b'>')?;
    Ok(())
}

/// Appends the text of a register: a hard one by its name, `virtual-stack-vars`, or pseudo `k` as
/// `<k>`.
///
/// # Errors
///
/// `Memory` where memory ran out.
pub fn print_register(reg: u64, out: &mut Vec<u8>) -> Result<(), Memory>
    ensures { OnOk result (out.new.items ≡ out.old.items ++ spec.register_text reg) }
{
    if reg < 32 {
        out.extend_from_slice(reg_name(reg as u8).as_bytes())?;
        Ok(())
    } else if reg < 64 {
        out.extend_from_slice(b"virtual-stack-vars")?;
        Ok(())
    } else {
        print_pseudo(reg - 64, out)
    }
}
