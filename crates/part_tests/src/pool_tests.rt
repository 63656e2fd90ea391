//! Values that are put in, taken and put in again, and trees under two roots.
use node_pool::Pool;
use plain_data::Memory;
use rtx_pool::RtxPool;
use rtx_tree::{Code, Mode, Rtx, same};
use std::alloc::Global;

/// Puts a value in where there is room, and takes it out again.
fn goes_through(pool: &mut Pool<u32>, value: u32) -> bool {
    if pool.spare() == 0 {
        return false;
    }
    let id = pool.put(value);
    pool.take(id) == value
}

/// Puts ten values in where there is room, and lets them go.
fn are_let_go(pool: &mut Pool<u32>) -> bool {
    for value in 0..10 {
        if pool.spare() == 0 {
            return false;
        }
        pool.put(value);
    }
    let full = pool.spare() == 0;
    pool.clear();
    full && pool.spare() == 10
}

#[test]
fn values_use_slots_again(rt: HostRuntime) {
    let mut pool = Pool::new(rt.alloc());
    assert!(rt; pool.spare() == 0);
    assert!(rt; pool.reserve(10).is_ok());
    for value in 0..1000 {
        assert!(rt; goes_through(&mut pool, value) && pool.spare() == 10);
    }
    for _ in 0..100 {
        assert!(rt; are_let_go(&mut pool));
    }
}

/// `(plus:DI (reg:DI a0) (const_int -8))`.
fn sum(alloc: Global) -> Result<Rtx, Memory> {
    let left = Rtx::reg(alloc, Mode::DI, 10);
    let right = Rtx::const_int(alloc, -8);
    Rtx::of_two(alloc, Code::Plus, Mode::DI, left, right)
}

/// Whether a part that is replaced under one of two roots leaves the other's tree.
fn leaves_the_other(alloc: Global) -> Result<bool, Memory> {
    let tree = sum(alloc)?;
    let part = Rtx::reg(alloc, Mode::DI, 11);
    let mut pool = RtxPool::new(alloc);
    let first = pool.place(alloc, &tree)?;
    let second = pool.place(alloc, &tree)?;
    let new = pool.place(alloc, &part)?;
    if pool.head_at(first, &[1]).is_none() {
        return Ok(false);
    }
    pool.replace_at(alloc, first, &[1], new);
    let changed = pool.lift(alloc, first)?;
    let other = pool.lift(alloc, second)?;
    Ok(same(&other, &tree) && !same(&changed, &tree) && changed.mentions(11))
}

#[test]
fn other_roots_keep_their_trees(rt: HostRuntime) {
    let Ok(left) = leaves_the_other(rt.alloc()) else {
        panic!(rt; "out of memory");
    };
    assert!(rt; left);
}
