//! Rows of registers, and addresses without a text.
use md_operand::{frame_reference, legitimate_address};
use reg_rows::{RegRow, empty_rows, has, join_row};
use rtx_tree::{Code, Mode, Rtx};
use std::alloc::Global;
use std::test::Fail;

#[test]
fn a_row_of_registers(rt: HostRuntime) -> Result<(), Fail> {
    let mut set = RegRow::new(rt.alloc(), 2)?;
    set.insert(3);
    set.insert(64);
    set.insert(127);
    set.remove(64);
    assert!(rt; set.contains(3) && set.contains(127));
    assert!(rt; !set.contains(64) && !set.contains(128));
    set.clear();
    assert!(rt; !set.contains(3));
    Ok(())
}

#[test]
fn rows_of_registers(rt: HostRuntime) -> Result<(), Fail> {
    let mut set = RegRow::new(rt.alloc(), 2)?;
    set.insert(127);
    let mut rows = empty_rows(rt.alloc(), 3, 2)?;
    assert!(rt; join_row(rows.as_mut_slice(), 1, &set));
    assert!(rt; !join_row(rows.as_mut_slice(), 1, &set));
    assert!(rt; has(rows.as_slice(), 1, 127));
    assert!(rt; !has(rows.as_slice(), 0, 127) && !has(rows.as_slice(), 3, 127));
    set.clear();
    let Some(second) = rows.get(1) else {
        panic!(rt; "no second row");
    };
    assert!(rt; set.join(second));
    assert!(rt; set.contains(127));
    Ok(())
}

/// Whether an expression over a register is no address.
fn is_no_address(alloc: Global, code: Code, mode: Mode, reg: u32) -> bool {
    match Rtx::of_one(alloc, code, mode, Rtx::reg(alloc, Mode::DI, reg)) {
        Ok(x) => !legitimate_address(&x) && !frame_reference(&x),
        Err(_) => false,
    }
}

/// A sum of one part, and the low part of the frame's register.
#[test]
fn addresses_that_no_text_writes(rt: HostRuntime) {
    assert!(rt; is_no_address(rt.alloc(), Code::Plus, Mode::DI, 10));
    assert!(rt; is_no_address(rt.alloc(), Code::Subreg, Mode::SI, 32));
}
