//! What digits admit.
ghost use Rattle.std.specs.Prelude.{◌≡◌, IfOk};
ghost use Rattle.reload_fit.specs.Fitting as fit;
ghost use Rattle.reload_fit.specs.Taken as spec;

use crate::asked::Asked;
use plain_data::Memory;
use reload_moves::{Fitting, is_marked, led_from};
use rtx_tree::{Mode, Rtx};

impl Asked<'_> {
    fn admits_at(&self, x: &Rtx, place: usize) -> bool
        ensures { result ≡ spec.admits_at
            (fit.asks_by self.now.desc.now self.now.form self.now.constraints.now
            self.now.alternative) self.now.operands.now x.now place }
    {
        match self.operands.get(place) {
            Some(y) => self.admits(y.number, x),
            None => false,
        }
    }

    fn is_admitting(&self, row: &[bool], x: &Rtx, f: &Fitting) -> bool
        ensures { result ≡ spec.is_admitting
            (fit.asks_by self.now.desc.now self.now.form self.now.constraints.now
            self.now.alternative) self.now.operands.now row.now x.now f.now }
    {
        is_marked(row, f.place) && self.admits_at(x, f.place)
    }

    fn admits_through(&self, fits: &[Fitting], row: &[bool], x: &Rtx) -> bool
        ensures { result ≡ spec.admits_through
            (fit.asks_by self.now.desc.now self.now.form self.now.constraints.now
            self.now.alternative) self.now.operands.now fits.now row.now x.now }
    {
        fits.iter().any(|f| self.is_admitting(row, x, f))
    }

    fn takes(&self, fits: &[Fitting], row: &[bool], mode: Mode, reg: u32) -> bool
        ensures { result ≡ spec.takes (fit.asks_by self.now.desc.now self.now.form
            self.now.constraints.now self.now.alternative) self.now.operands.now fits.now row.now
            mode reg }
    {
        let x = Rtx::reg(self.alloc, mode, reg);
        self.admits_through(fits, row, &x)
    }

    fn takes_one(&self, fits: &[Fitting], row: &[bool], mode: Mode) -> bool
        ensures { result ≡ spec.takes_one
            (fit.asks_by self.now.desc.now self.now.form self.now.constraints.now
            self.now.alternative) self.now.operands.now fits.now row.now mode }
    {
        self.takes(fits, row, mode, 28)
            || (self.takes(fits, row, mode, 29)
                || (self.takes(fits, row, mode, 30) || self.takes(fits, row, mode, 31)))
    }

    /// Whether the constraint of the operand at a place admits one of t3 to t6 in a mode, by itself
    /// or through digits.
    pub fn takes_register(&self, fits: &[Fitting], place: usize, mode: Mode) -> Result<bool, Memory>
        ensures { IfOk result (λ taken.
            taken ≡ spec.takes_register (fit.asks_by self.now.desc.now self.now.form
            self.now.constraints.now self.now.alternative) self.now.operands.now fits.now place
            mode) }
    {
        let row = led_from(self.alloc, fits, place)?;
        Ok(self.takes_one(fits, row.as_slice(), mode))
    }
}
