//! The bytes of an input as functions.
ghost use Rattle.std.specs.Prelude.{◌≡◌, ◌≢◌, ◌≤◌, ◌↔◌, ℕ, List, Ok, IfOk, IfErr, codes, length};
ghost use Rattle.rtx_tree.specs.declared.function.Function.{Function};
ghost use Rattle.lisp_read.specs.declared.tree.Tree.{Tree};
ghost use Rattle.lisp_read.specs.Reading.{ReadsAs, Trees};
ghost use Rattle.lisp_read.specs.Parsed.{stands};
ghost use Rattle.rtl_read.specs.Syntax.{functions_in};
ghost use Rattle.rtx_tree.specs.Limit.{most_bytes};
ghost use Rattle.func_input.specs.Input.{IsRead, IsInput, Given, InputGives, RefusesWith, Reads};
ghost use Rattle.func_input.specs.machine.Steps.{IsOrMemory, Parses};
ghost use Rattle.run_refusal.specs.declared.refusal.Refusal.TheVariants as refused;

use lisp_read::{ReadRefusal, Trees, read_trees};
use rtl_read::{RtlRefusal, functions_of};
use rtx_tree::{Functions, Limit, MOST_OPEN, Name, Place};
use run_refusal::Refusal;
use std::alloc::Global;

/// The refusal of bytes that are no text.
fn syntax(alloc: Global, place: Place) -> Refusal
    ensures { IsOrMemory result (refused.Syntax (codes "-") place) }
{
    match Name::of(alloc, b"-") {
        Ok(file) => Refusal::Syntax { file, place },
        Err(_) => Refusal::Memory,
    }
}

/// The trees of an input.
fn trees_of(alloc: Global, bytes: &[u8]) -> Result<Trees, Refusal>
    requires { length bytes.now ≤ most_bytes }
    ensures trees { IfOk result (λ trees. ReadsAs bytes.now (Trees trees)) }
    ensures refused { IfErr result (λ e. RefusesWith e (InputGives bytes.now)) }
    ensures unread { IfErr result (λ e. e ≢ refused.Memory → (trees : List Tree) →
        ReadsAs bytes.now (Trees trees) → ⊥) }
{
    match read_trees(alloc, bytes) {
        Ok(trees) => Ok(trees),
        Err(ReadRefusal::Syntax { place }) => Err(syntax(alloc, place)),
        Err(ReadRefusal::Depth { .. }) => Err(Refusal::Limit {
            which: Limit::Depth,
            count: MOST_OPEN as u64 + 1,
        }),
        Err(ReadRefusal::Memory) => Err(Refusal::Memory),
    }
}

/// The functions of an input's trees.
fn parse(alloc: Global, trees: &Trees) -> Result<Functions, Refusal>
    ensures parses { Parses trees.now result }
    ensures outside { IfErr result (λ e. e ≢ refused.Memory → (functions : List Function) →
        functions_in trees.now ≢ stands functions) }
{
    match functions_of(alloc, trees.as_slice()) {
        Ok(functions) => Ok(functions),
        Err(RtlRefusal::Construct { place, name }) => Err(Refusal::Construct { place, name }),
        Err(RtlRefusal::Memory) => Err(Refusal::Memory),
    }
}

/// The functions of an input, or what refuses its bytes before they are functions: that they are no
/// text, or a tree outside the language. An input has at most 16,777,216 bytes.
///
/// # Errors
///
/// `Syntax`, `Limit`, `Construct`, or `Memory` where memory ran out.
pub fn read_functions(alloc: Global, bytes: &[u8]) -> Result<Functions, Refusal>
    requires { length bytes.now ≤ most_bytes }
    ensures reads { Reads bytes.now result }
    ensures unread { IfErr result (λ e. e ≢ refused.Memory → (functions : List Function) →
        IsRead bytes.now functions → ⊥) }
    ensures input { (bytes : List ℕ) (functions : List Function) →
        IsInput bytes functions ↔ InputGives bytes (Ok functions) }
    ensures one { (bytes : List ℕ) (a b : Given) → InputGives bytes a → InputGives bytes b → a ≡ b }
{
    let trees = trees_of(alloc, bytes)?;
    parse(alloc, &trees)
}
