//! Each call once, on values of the manuals.
use plain_data::Memory;
use rtx_tree::*;
use std::alloc::Global;

/// `(plus:DI (reg:DI a0) (const_int -8))`.
fn sum(alloc: Global) -> Result<Rtx, Memory> {
    let left = Rtx::reg(alloc, Mode::DI, 10);
    let right = Rtx::const_int(alloc, -8);
    Rtx::of_two(alloc, Code::Plus, Mode::DI, left, right)
}

/// Whether a name is the same as its copy, and as no other.
fn is_copied(alloc: Global, name: &Name) -> bool {
    match name.copy(alloc) {
        Ok(copy) => name.same(&copy) && !name.same(&Name::empty(alloc)),
        Err(_) => false,
    }
}

/// Whether a name that is made of a vector is another than this.
fn is_another(alloc: Global, name: &Name) -> bool {
    match vec![in alloc; b'm', b'a'] {
        Ok(bytes) => !name.same(&Name::from_vec(bytes)),
        Err(_) => false,
    }
}

#[test]
fn names(rt: HostRuntime) {
    let Ok(name) = Name::of(rt.alloc(), b"main") else {
        panic!(rt; "out of memory");
    };
    assert!(rt; is_copied(rt.alloc(), &name));
    assert!(rt; is_another(rt.alloc(), &name));
    assert!(rt; name.bytes() == b"main".as_slice());
    assert!(rt; name.into_vec().len() == 4);
}

#[test]
fn pseudo_registers(rt: HostRuntime) {
    assert!(rt; pseudo(0) == FIRST_PSEUDO && pseudo(9) == 73);
}

#[test]
fn codes_and_modes(rt: HostRuntime) {
    assert!(rt; Code::Eq.same(Code::Eq) && !Code::Lt.same(Code::Ltu));
    assert!(rt; Mode::SI.same(Mode::SI) && !Mode::SI.same(Mode::DI));
    assert!(rt; Mode::Void.name().is_empty());
}

/// Whether an expression is the same as its copy.
fn is_same_as_copy(alloc: Global, x: &Rtx) -> bool {
    match x.copy(alloc) {
        Ok(copy) => same(x, &copy),
        Err(_) => false,
    }
}

fn symbol(alloc: Global) -> Result<Rtx, Memory> {
    let name = Name::of(alloc, b"f")?;
    Ok(Rtx::of_name(alloc, Code::SymbolRef, Mode::DI, name))
}

/// A choice between a symbol and a memory, by a sum.
fn choice(alloc: Global) -> Result<Rtx, Memory> {
    let memory = Rtx::of_one(alloc, Code::Mem, Mode::SI, sum(alloc)?)?;
    let symbol = symbol(alloc)?;
    let test = sum(alloc)?;
    Rtx::of_three(alloc, Code::IfThenElse, Mode::Void, test, symbol, memory)
}

#[test]
fn sums(rt: HostRuntime) {
    let Ok(x) = sum(rt.alloc()) else {
        panic!(rt; "out of memory");
    };
    let Ok(symbol) = symbol(rt.alloc()) else {
        panic!(rt; "out of memory");
    };
    assert!(rt; is_same_as_copy(rt.alloc(), &x));
    assert!(rt; x.size() == 3);
    assert!(rt; matches!(x.kids.as_slice(), [_, second] if second.number == -8));
    assert!(rt; !same(&x, &symbol));
}

#[test]
fn choices(rt: HostRuntime) {
    let Ok(x) = choice(rt.alloc()) else {
        panic!(rt; "out of memory");
    };
    assert!(rt; x.size() == 9);
    assert!(rt; is_same_as_copy(rt.alloc(), &x));
}

/// Operands 6 and 2, of which the second is put twice.
fn two_operands(alloc: Global) -> Result<Operands, Memory> {
    let mut found = Operands::new(alloc);
    found.put(6, sum(alloc)?)?;
    found.put(2, Rtx::reg(alloc, Mode::DI, VIRTUAL_STACK_VARS))?;
    found.put(2, Rtx::const_int(alloc, 1))?;
    Ok(found)
}

/// Whether there is an operand, and its number is this.
fn has_number(found: &Operands, number: u32, want: i64) -> bool {
    match found.get(number as usize) {
        Some(x) => x.number == want,
        None => false,
    }
}

#[test]
fn operands(rt: HostRuntime) {
    let Ok(found) = two_operands(rt.alloc()) else {
        panic!(rt; "out of memory");
    };
    assert!(rt; has_number(&found, 2, 1) && has_number(&found, 6, 0));
    assert!(rt; found.get(0).is_none() && found.get(5).is_none() && found.get(7).is_none());
}

#[test]
fn messages(rt: HostRuntime) {
    assert!(rt; Limit::SplitDepth.name() == "SplitDepth");
    assert!(rt; Limit::Frame.same(Limit::Frame) && !Limit::Text.same(Limit::Forms));
}

/// Whether registers are put into a set.
fn insert_all(regs: &mut RegSet, numbers: &[u32]) -> bool {
    let mut is_put = true;
    for number in numbers {
        is_put &= regs.insert(*number).is_ok();
    }
    is_put
}

#[test]
fn register_sets(rt: HostRuntime) {
    let mut regs = RegSet::new(rt.alloc());
    assert!(rt; !regs.contains(0));
    assert!(rt; insert_all(&mut regs, &[70, 10, 70, 63]));
    regs.remove(63);
    regs.remove(1000);
    assert!(rt; regs.contains(10) && regs.contains(70));
    assert!(rt; !regs.contains(11) && !regs.contains(63) && !regs.contains(1000));
}

/// Puts a byte behind all others. Whether it is above all before, and no longer then.
fn is_put_above(memory: &mut Memories, address: u64) -> bool {
    if !memory.is_above(address) {
        return false;
    }
    let is_put = memory.push(MemByte { address, byte: 7 }).is_ok();
    is_put && !memory.is_above(address)
}

#[test]
fn memories(rt: HostRuntime) {
    let mut memory = Memories::new(rt.alloc());
    assert!(rt; is_put_above(&mut memory, 65536));
    assert!(rt; is_put_above(&mut memory, 65537));
    assert!(rt; is_put_above(&mut memory, 1179647));
    assert!(rt; matches!(memory.bytes(), [.., last] if last.address == 1179647));
}
