//! The outputs of forms.
ghost use Rattle.std.specs.Prelude.{◌≡◌, IfOk};
ghost use Rattle.std.specs.Option.{option_copied};
ghost use Rattle.md_text.specs.Template.{template_of};
ghost use Rattle.md_draft.specs.Outputs as spec;

use crate::draft::Output;
use lisp_read::Tree;
use md_compact::{Block, block_of, has_expression, old_template};
use md_pattern::{Judged, Reason};
use md_text::{Reading, Template, template_of};
use plain_data::{Items, Memory};
use std::alloc::Global;
use text_words::behind_blanks;

/// The greatest number of bytes of a template.
const MOST_TEMPLATE: usize = 4096;

fn fits(text: &[u8]) -> bool
    ensures { result ≡ spec.fits text.now }
{
    text.len() <= MOST_TEMPLATE
}

fn output_of(alloc: Global, text: &[u8]) -> Result<Judged<Output>, Memory>
    ensures { IfOk result (λ output. output ≡ spec.output_by (template_of text.now)) }
{
    match template_of(alloc, text)? {
        Reading::Template(template) => Ok(Ok(Output::Template(template))),
        Reading::Outside => Ok(Ok(Output::Outside)),
        Reading::Code => Ok(Err(Reason::CCode)),
    }
}

/// Whether what stands between braces is in the compact syntax.
fn is_compact(text: &[u8]) -> bool
    ensures { result ≡ spec.is_compact text.now }
{
    matches!(behind_blanks(text), [b'@', ..])
}

/// What stands between quotes.
fn quoted(alloc: Global, text: &[u8]) -> Result<Judged<Output>, Memory>
    ensures { IfOk result (λ output. output ≡ spec.quoted text.now) }
{
    if fits(text) {
        output_of(alloc, text)
    } else {
        Ok(Err(Reason::Parts))
    }
}

/// The output of a block: the template of the form without it.
fn rows_output(alloc: Global, block: &Block) -> Result<Judged<Output>, Memory>
    ensures { IfOk result (λ output. output ≡ spec.rows_output block.now) }
{
    let text = old_template(alloc, block)?;
    if !fits(text.as_slice()) {
        return Ok(Err(Reason::Parts));
    }
    if has_expression(block) {
        return Ok(Err(Reason::CCode));
    }
    output_of(alloc, text.as_slice())
}

/// What stands between braces.
fn braced(alloc: Global, text: &[u8], block: Option<&Block>) -> Result<Judged<Output>, Memory>
    ensures { IfOk result (λ output. output ≡ spec.braced text.now (option_copied block.entry)) }
{
    if let Some(block) = block {
        return rows_output(alloc, block);
    }
    if is_compact(text) {
        Ok(Ok(Output::Outside))
    } else if fits(text) {
        Ok(Err(Reason::CCode))
    } else {
        Ok(Err(Reason::Parts))
    }
}

/// The block that stands in the place of an output.
#[tactic(auto, unfolding(crate::specs::Outputs::block_in))]
pub fn block_in(alloc: Global, tree: Option<&Tree>) -> Result<Option<Block>, Memory>
    ensures { IfOk result (λ block. block ≡ spec.block_in (option_copied tree.entry)) }
{
    match tree {
        Some(Tree::Block { text, .. }) => block_of(alloc, text.bytes()),
        _ => Ok(None),
    }
}

/// The output of a form, with the block that stands there.
#[tactic(auto, unfolding(crate::specs::Outputs::output_with))]
pub fn output_in(
    alloc: Global,
    tree: Option<&Tree>,
    block: Option<&Block>,
) -> Result<Judged<Output>, Memory>
    ensures { IfOk result (λ output.
        output ≡ spec.output_with (option_copied block.entry) (option_copied tree.entry)) }
{
    match tree {
        Some(Tree::Str { text, .. }) => quoted(alloc, text.bytes()),
        Some(Tree::Block { text, .. }) => braced(alloc, text.bytes(), block),
        Some(_) => Ok(Err(Reason::Parts)),
        None => Ok(Ok(Output::Template(Template::One(Items::new(alloc))))),
    }
}
