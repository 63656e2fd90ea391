//! The registers at entry, at a call and at a return.
ghost use Rattle.std.specs.Prelude.{◌≡◌, Some, IfOk, slice_get};
ghost use Rattle.rv_line.specs.Run as spec;

use crate::outcome::Saved;
use crate::state::RvState;
use rtx_tree::{HARD_REGS, Reply, Start, reg_call_used};
use run_memory::write_all;

/// The registers at entry.
pub(crate) fn entry_regs(start: &Start) -> [Option<u64>; 32]
    ensures { result ≡ spec.entry_regs start.now }
{
    let [a0, a1, a2, a3, a4, a5, a6, a7] = start.args;
    let [s0, s1, s2, s3, s4, s5, s6, s7, s8, s9, s10, s11] = start.saved;
    [
        Some(0),
        Some(start.ra),
        Some(start.sp),
        None,
        None,
        None,
        None,
        None,
        Some(s0),
        Some(s1),
        Some(a0),
        Some(a1),
        Some(a2),
        Some(a3),
        Some(a4),
        Some(a5),
        Some(a6),
        Some(a7),
        Some(s2),
        Some(s3),
        Some(s4),
        Some(s5),
        Some(s6),
        Some(s7),
        Some(s8),
        Some(s9),
        Some(s10),
        Some(s11),
        None,
        None,
        None,
        None,
    ]
}

impl RvState {
    /// Unsets the registers that a called function need not preserve.
    fn unset_used(&mut self)
        ensures { self.new ≡ record self.old { regs = spec.left_from 0 self.old.regs } }
    {
        for reg in 0..HARD_REGS {
            if reg_call_used(reg) {
                self.regs[usize::from(reg)] = None;
            }
        }
    }

    /// What a called function leaves behind.
    pub(crate) fn take_reply(&mut self, reply: &Reply)
        ensures { self.new ≡ spec.after_call reply.now self.old }
    {
        self.unset_used();
        self.set_register(10, reply.value);
        write_all(&mut self.memory, &reply.writes);
    }

    /// What `a0` to `a7` hold.
    pub(crate) fn args(&self) -> [Option<u64>; 8]
        ensures { result ≡ spec.args_of self.now.regs }
    {
        [
            self.register(10),
            self.register(11),
            self.register(12),
            self.register(13),
            self.register(14),
            self.register(15),
            self.register(16),
            self.register(17),
        ]
    }

    /// What `sp` and `s0` to `s11` hold.
    pub(crate) fn saved(&self) -> Saved
        ensures { result ≡ spec.saved_of self.now.regs }
    {
        Saved {
            sp: self.register(2),
            saved: [
                self.register(8),
                self.register(9),
                self.register(18),
                self.register(19),
                self.register(20),
                self.register(21),
                self.register(22),
                self.register(23),
                self.register(24),
                self.register(25),
                self.register(26),
                self.register(27),
            ],
        }
    }
}
