//! Expressions of RTL.
ghost use Rattle.std.specs.Prelude.{◌≡◌, ◌-◌, ◌^◌, ◌↔◌, [], ◌∷◌, min, slice_get, Some, IfOk, IsSome, IsTrue};
ghost use Rattle.rtx_tree.specs.Patterns.{is_pc, label_of};
ghost use Rattle.rtx_tree.specs.Tree.{is_constant, is_stack_vars, head_of, kids_of, size_of, leaf_of, named_of, node_of, reg_of, const_of, is_reg_numbered, part_at, replaced_at, mentions_reg};
ghost use Rattle.std.specs.Option.{option_copied};

use crate::code::{Code, Mode};
use crate::name::Name;
use crate::registers::VIRTUAL_STACK_VARS;
use plain_data::{Items, Memory};
use std::alloc::Global;
use std::{fmt, mem};

/// The kids of an expression, in order.
pub type Kids = Items<Rtx>;

/// Where a part stands in an expression: the index of a kid, of a kid of that, and so on.
pub type Path = Items<u32>;

/// An expression: a code with its parts.
#[derive(Drop)]
pub struct Rtx {
    /// The expression's code.
    pub code: Code,
    /// The mode of its value, or `Void`.
    pub mode: Mode,
    /// A register's number, a constant's value, or an operand's number in a pattern; else 0.
    pub number: i64,
    /// A symbol's name; else empty.
    pub name: Name,
    /// The expressions that it is made of.
    pub kids: Kids,
}

fn same_number(a: i64, b: i64) -> bool
    ensures { IsTrue result ↔ (a ≡ b) }
{
    a == b
}

/// Whether two expressions have the same code, mode, number and name.
pub fn same_head(a: &Rtx, b: &Rtx) -> bool
    ensures { IsTrue result ↔ (head_of a.now ≡ head_of b.now) }
{
    if !a.code.same(b.code) {
        return false;
    }
    if !a.mode.same(b.mode) {
        return false;
    }
    if !same_number(a.number, b.number) {
        return false;
    }
    a.name.same(&b.name)
}

/// Whether two trees are the same.
#[tactic(auto, using(crate::proofs::Trees::same_from_prefix))]
pub fn same(a: &Rtx, b: &Rtx) -> bool
    ensures { IsTrue result ↔ (a.now ≡ b.now) }
{
    if !same_head(a, b) || a.kids.len() != b.kids.len() {
        return false;
    }
    let xs = a.kids.as_slice();
    let ys = b.kids.as_slice();
    for i in 0..xs.len() {
        if !same(&xs[i], &ys[i]) {
            return false;
        }
    }
    true
}

impl Rtx {
    /// A tree of a code, a mode and a number, with no name and no kids. It takes no memory.
    pub fn leaf(alloc: Global, code: Code, mode: Mode, number: i64) -> Rtx
        ensures { result ≡ leaf_of code mode number }
    {
        Rtx {
            code,
            mode,
            number,
            name: Name::empty(alloc),
            kids: Items::new(alloc),
        }
    }

    /// A tree of a code, a mode and a name, with number 0 and no kids. It takes no memory.
    pub fn of_name(alloc: Global, code: Code, mode: Mode, name: Name) -> Rtx
        ensures { result ≡ named_of code mode name }
    {
        Rtx {
            code,
            mode,
            number: 0,
            name,
            kids: Items::new(alloc),
        }
    }

    /// A tree of a code, a mode and kids, with number 0 and no name. It takes no memory.
    pub fn of_kids(alloc: Global, code: Code, mode: Mode, kids: Kids) -> Rtx
        ensures { result ≡ node_of code mode kids }
    {
        Rtx {
            code,
            mode,
            number: 0,
            name: Name::empty(alloc),
            kids,
        }
    }

    /// A tree of one kid.
    pub fn of_one(alloc: Global, code: Code, mode: Mode, a: Rtx) -> Result<Rtx, Memory>
        ensures { IfOk result (λ tree. tree ≡ node_of code mode (a ∷ [])) }
    {
        let mut kids = Items::new(alloc);
        kids.push(a)?;
        Ok(Rtx::of_kids(alloc, code, mode, kids))
    }

    /// A tree of two kids.
    pub fn of_two(alloc: Global, code: Code, mode: Mode, a: Rtx, b: Rtx) -> Result<Rtx, Memory>
        ensures { IfOk result (λ tree. tree ≡ node_of code mode (a ∷ b ∷ [])) }
    {
        let mut kids = Items::new(alloc);
        kids.push(a)?;
        kids.push(b)?;
        Ok(Rtx::of_kids(alloc, code, mode, kids))
    }

    /// A tree of three kids.
    pub fn of_three(
        alloc: Global,
        code: Code,
        mode: Mode,
        a: Rtx,
        b: Rtx,
        c: Rtx,
    ) -> Result<Rtx, Memory>
        ensures { IfOk result (λ tree. tree ≡ node_of code mode (a ∷ b ∷ c ∷ [])) }
    {
        let mut kids = Items::new(alloc);
        kids.push(a)?;
        kids.push(b)?;
        kids.push(c)?;
        Ok(Rtx::of_kids(alloc, code, mode, kids))
    }

    /// Register `reg` in a mode. It takes no memory.
    pub fn reg(alloc: Global, mode: Mode, reg: u32) -> Rtx
        ensures { result ≡ reg_of mode reg }
    {
        Rtx::leaf(alloc, Code::Reg, mode, i64::from(reg))
    }

    /// A constant, which has no mode. It takes no memory.
    pub fn const_int(alloc: Global, value: i64) -> Rtx
        ensures { result ≡ const_of value }
    {
        Rtx::leaf(alloc, Code::ConstInt, Mode::Void, value)
    }

    /// Whether the tree is a constant.
    pub fn is_constant(&self) -> bool
        ensures { result ≡ is_constant self.now }
    {
        matches!(self.code, Code::ConstInt)
    }

    /// Whether the tree is `virtual-stack-vars`.
    pub fn is_stack_vars(&self) -> bool
        ensures { result ≡ is_stack_vars self.now }
    {
        self.is_register(VIRTUAL_STACK_VARS)
    }

    /// Whether the tree is `(pc)`.
    pub fn is_pc(&self) -> bool
        ensures { result ≡ is_pc self.now }
    {
        matches!(self.code, Code::Pc)
    }

    /// The uid of `(label_ref UID)`, or `None` where the tree is no such one.
    pub fn label_uid(&self) -> Option<u64>
        ensures { result ≡ label_of self.now }
    {
        match (self.code, self.kids.as_slice()) {
            (Code::LabelRef, [uid]) => Some(uid.number.cast_unsigned()),
            _ => None,
        }
    }

    /// The number of the tree's nodes, or the greatest `u64` where there are more.
    pub fn size(&self) -> u64
        ensures { result ≡ min (2 ^ 64 - 1) (size_of self.now) }
    {
        let mut total: u64 = 1;
        for kid in self.kids.as_slice() {
            total = total.saturating_add(kid.size());
        }
        total
    }

    fn kid(&self, index: u32) -> Option<&Rtx>
        ensures { option_copied result ≡ slice_get (kids_of self.now) index }
    {
        self.kids.as_slice().get(index as usize)
    }

    /// The part at a path, or `None` exactly where the path does not exist. The empty path is the
    /// tree itself.
    pub fn at(&self, path: &Path) -> Option<&Rtx>
        ensures { option_copied result ≡ part_at self.now path.now }
    {
        let mut part = self;
        for index in path.as_slice() {
            part = part.kid(*index)?;
        }
        Some(part)
    }

    /// Puts another expression in the place of the part at a path that exists, and gives that part.
    /// The call takes no memory.
    pub fn replace_at(&mut self, path: &[u32], new: Rtx) -> Rtx
        requires { IsSome (part_at self.old path.now) }
        ensures tree { self.new ≡ replaced_at path.now new self.old }
        ensures part { part_at self.old path.now ≡ Some result }
    {
        match path {
            [] => mem::replace(self, new),
            [place, rest @ ..] => self.kids.item_mut(*place as usize).replace_at(rest, new),
        }
    }

    fn is_register(&self, reg: u32) -> bool
        ensures { result ≡ is_reg_numbered (head_of self.now).code (head_of self.now).number reg }
    {
        matches!(self.code, Code::Reg) && self.number == i64::from(reg)
    }

    /// Whether register `reg` stands in the tree.
    #[tactic(auto, using(crate::proofs::Trees::mentions_out))]
    pub fn mentions(&self, reg: u32) -> bool
        ensures { result ≡ mentions_reg reg self.now }
    {
        if self.is_register(reg) {
            return true;
        }
        for kid in self.kids.as_slice() {
            if kid.mentions(reg) {
                return true;
            }
        }
        false
    }

    /// A copy of the tree.
    pub fn copy(&self, alloc: Global) -> Result<Rtx, Memory>
        ensures { IfOk result (λ tree. tree ≡ self.now) }
    {
        let mut kids = Items::new(alloc);
        for kid in self.kids.as_slice() {
            kids.push(kid.copy(alloc)?)?;
        }
        Ok(Rtx {
            code: self.code,
            mode: self.mode,
            number: self.number,
            name: self.name.copy(alloc)?,
            kids,
        })
    }
}

/// Shows the code alone, so that an error which holds a tree can derive `Debug`.
impl fmt::Debug for Rtx {
    fn fmt<W: fmt::Write>(&self, f: &mut fmt::Formatter<W>) -> fmt::Result {
        f.write_str(self.code.name())
    }
}
