//! What the constraints mean that a description defines.
ghost use Rattle.std.specs.Prelude.{◌≡◌, IfOk};
ghost use Rattle.rtx_tree.specs.declared.tree.Rtx.{Rtx};
ghost use Rattle.pred_rows.specs.Tests.{Accepts};
ghost use Rattle.md_constr.specs.Admits as spec;
ghost use Rattle.md_constr.specs.machine.Tables as tables;

use crate::admits::class_admits;
use c_eval::Preds;
use md_forms::{Form, RegisterClass};
use plain_data::Memory;
use pred_expr::Test;
use pred_rows::TestRows;
use rtx_tree::{Mode, Rtx};
use std::alloc::Global;

/// What a constraint admits.
#[derive(Drop)]
pub enum Meaning {
    /// The registers of a class.
    Registers(RegisterClass),
    /// The operands for which a test holds, whose root stands at a place of a row.
    Test(TestRows, usize),
}

impl Meaning {
    fn of_test(alloc: Global, test: &Test) -> Result<Meaning, Memory>
        ensures { IfOk result (λ m. (accepts : Accepts) (x : Rtx) →
            tables.meaning_admits m accepts x ≡ spec.admits_by accepts None (Some test.now) x) }
    {
        let mut rows = TestRows::new(alloc);
        let root = rows.push(alloc, test)?;
        Ok(Meaning::Test(rows, root))
    }

    /// What the constraint means that a form defines.
    pub fn of(alloc: Global, form: &Form) -> Result<Meaning, Memory>
        ensures { IfOk result (λ m. (accepts : Accepts) (x : Rtx) →
            tables.meaning_admits m accepts x ≡ spec.form_admits accepts form.now x) }
    {
        match (form.class, &form.test) {
            (Some(class), _) => Ok(Meaning::Registers(class)),
            (None, Some(test)) => Meaning::of_test(alloc, test),
            (None, None) => Ok(Meaning::Registers(RegisterClass::Nothing)),
        }
    }

    /// Whether the constraint admits an operand.
    pub fn admits<P: Preds>(&self, preds: &P, x: &Rtx) -> bool
        ensures { result ≡ tables.meaning_admits self.now (P.accepts preds.now) x.now }
    {
        match self {
            Meaning::Registers(class) => class_admits(*class, x),
            Meaning::Test(rows, root) => rows.holds(*root, preds, x, Mode::Void),
        }
    }
}
