//! Functions of RTL: chains of instructions.
ghost use Rattle.std.specs.Prelude.{◌≡◌, ◌<◌, IfOk, IfSome, length};
ghost use Rattle.rtx_tree.specs.Patterns as spec;

use crate::code::Mode;
use crate::name::Name;
use crate::tree::Rtx;
use plain_data::{Items, Memory};
use std::alloc::Global;

/// What stands in a place of a function's chain.
#[derive(Clone, Copy, Debug)]
pub enum Kind {
    /// An instruction that goes on to the next.
    Plain,
    /// An instruction that may go elsewhere.
    Jump,
    /// A call.
    Call,
    /// A label.
    Label,
    /// A place that is not passed.
    Barrier,
}

/// A register that a call's target reads.
#[derive(Clone, Copy)]
pub struct ArgUse {
    /// The hard register's number.
    pub reg: u8,
    /// The mode in which it is read.
    pub mode: Mode,
}

/// The registers that a call's target reads.
pub type ArgUses = Items<ArgUse>;

/// One place of a function's chain.
#[derive(Drop)]
pub struct Insn {
    /// The number that names it, unlike any other of the function; 0 for a barrier.
    pub uid: u32,
    /// What the instruction is.
    pub kind: Kind,
    /// What the instruction does; `(parallel [])` for a label or a barrier.
    pub pattern: Rtx,
    /// What a call's target reads; for others none.
    pub uses: ArgUses,
}

/// A function's chain.
pub type Insns = Items<Insn>;

/// A function.
#[derive(Drop)]
pub struct Function {
    /// The function's symbol.
    pub name: Name,
    /// The function's chain, in order.
    pub insns: Insns,
    /// The bytes of its locals, which stand just below `virtual-stack-vars`.
    pub locals: u32,
    /// The mode of its result, where it has one.
    pub result: Option<Mode>,
    /// The register that its text names for the result; 10 where there is none.
    pub result_reg: u32,
}

impl Insn {
    /// Puts another pattern in the place of the instruction's. It takes no memory.
    pub fn set_pattern(&mut self, pattern: Rtx)
        ensures { self.new ≡ spec.with_pattern self.old pattern }
    {
        self.pattern = pattern;
    }

    /// An instruction like this one, with another pattern.
    pub fn with(&self, alloc: Global, pattern: Rtx) -> Result<Insn, Memory>
        ensures { IfOk result (λ other. other ≡ spec.with_pattern self.now pattern) }
    {
        Ok(Insn {
            uid: self.uid,
            kind: self.kind,
            pattern,
            uses: Items::from_slice(alloc, self.uses.as_slice())?,
        })
    }

    /// A copy of the instruction.
    pub fn copy(&self, alloc: Global) -> Result<Insn, Memory>
        ensures { IfOk result (λ copy. copy ≡ self.now) }
    {
        self.with(alloc, self.pattern.copy(alloc)?)
    }
}

/// Copies of instructions, in order.
pub fn copy_insns(alloc: Global, insns: &[Insn]) -> Result<Insns, Memory>
    ensures { IfOk result (λ copies. copies ≡ insns.now) }
{
    let mut copies = Items::new(alloc);
    for insn in insns {
        copies.push(insn.copy(alloc)?)?;
    }
    Ok(copies)
}

impl Function {
    /// A function without a name, instructions, locals and a result. It takes no memory.
    pub fn empty(alloc: Global) -> Function
        ensures { result ≡ spec.empty_function }
    {
        Function {
            name: Name::from_vec(Vec::new(alloc)),
            insns: Items::new(alloc),
            locals: 0,
            result: None,
            result_reg: 10,
        }
    }

    /// A copy of the function.
    pub fn copy(&self, alloc: Global) -> Result<Function, Memory>
        ensures { IfOk result (λ copy. copy ≡ self.now) }
    {
        Ok(Function {
            name: self.name.copy(alloc)?,
            insns: copy_insns(alloc, self.insns.as_slice())?,
            locals: self.locals,
            result: self.result,
            result_reg: self.result_reg,
        })
    }
}

/// Functions, in order.
pub type Functions = Items<Function>;

/// Whether an instruction is the label with this uid.
pub fn is_label(insn: &Insn, uid: u64) -> bool
    ensures { result ≡ spec.is_label uid insn.now }
{
    matches!(insn.kind, Kind::Label) && u64::from(insn.uid) == uid
}

/// The place in a chain of the first label with this uid, or `None` where there is none.
pub fn label_place(insns: &[Insn], uid: u64) -> Option<usize>
    ensures place { result ≡ spec.place_of uid insns.now }
    ensures within { IfSome result (λ place. place < length insns.now) }
{
    insns.iter().position(|insn| is_label(insn, uid))
}
