//! A walk through the definitions of predicates, each behind those that it names.

use crate::predicates::{depth_of, is_own};
use crate::tables::PredicateDraft;
use name_places::NameTable;
use plain_data::Memory;
use std::alloc::Global;

/// How far the walk has come with a definition.
#[derive(Clone, Copy)]
enum Stage {
    /// The walk has not met it.
    New,
    /// The definitions that it names come first.
    Begun,
    /// The definition's depth was found, if it has one.
    Done,
}

/// The depths that were found, with a stack of the definitions that are still to come.
#[derive(Drop)]
struct Walk {
    depths: Vec<Option<usize>>,
    stages: Vec<Stage>,
    stack: Vec<usize>,
}

fn put_stage(stages: &mut [Stage], place: usize, stage: Stage) {
    if let Some(old) = stages.get_mut(place) {
        *old = stage;
    }
}

fn put_depth(depths: &mut [Option<usize>], place: usize, depth: Option<usize>) {
    if let Some(old) = depths.get_mut(place) {
        *old = depth;
    }
}

/// All places, the first on top.
fn places_below(alloc: Global, count: usize) -> Result<Vec<usize>, Memory> {
    let mut places = Vec::new(alloc);
    for place in (0..count).rev() {
        places.push(place)?;
    }
    Ok(places)
}

impl Walk {
    fn new(alloc: Global, count: usize) -> Result<Walk, Memory> {
        let mut depths = Vec::new(alloc);
        depths.resize(count, None)?;
        let mut stages = Vec::new(alloc);
        stages.resize(count, Stage::New)?;
        let stack = places_below(alloc, count)?;
        Ok(Walk {
            depths,
            stages,
            stack,
        })
    }

    /// The stage of the definition at a place; one that isn't there has nothing to be done.
    fn stage_at(&self, place: usize) -> Stage {
        self.stages.get(place).copied().unwrap_or(Stage::Done)
    }

    /// Puts the definition of a name on the stack, where it was not met.
    fn ask(&mut self, predicates: &NameTable<PredicateDraft>, name: &[u8]) -> Result<(), Memory> {
        if is_own(name) {
            return Ok(());
        }
        let Some(place) = predicates.place_of(name) else {
            return Ok(());
        };
        match self.stage_at(place) {
            Stage::New => self.stack.push(place)?,
            Stage::Begun | Stage::Done => {}
        }
        Ok(())
    }

    /// Puts the definitions on the stack that a definition names.
    fn ask_uses(
        &mut self,
        predicates: &NameTable<PredicateDraft>,
        d: &PredicateDraft,
    ) -> Result<(), Memory> {
        for name in d.uses.as_slice() {
            self.ask(predicates, name.bytes())?;
        }
        Ok(())
    }

    /// Goes on with a definition: those that it names come first, and when it is met again its
    /// depth is found.
    fn go_on(
        &mut self,
        predicates: &NameTable<PredicateDraft>,
        rounds: usize,
        place: usize,
        d: &PredicateDraft,
    ) -> Result<(), Memory> {
        match self.stage_at(place) {
            Stage::New => {
                put_stage(self.stages.as_mut_slice(), place, Stage::Begun);
                self.stack.push(place)?;
                self.ask_uses(predicates, d)
            }
            Stage::Begun => {
                let depth = depth_of(predicates, self.depths.as_slice(), rounds, d);
                put_depth(self.depths.as_mut_slice(), place, depth);
                put_stage(self.stages.as_mut_slice(), place, Stage::Done);
                Ok(())
            }
            Stage::Done => Ok(()),
        }
    }

    /// Goes on with the definition on top of the stack, and says whether there was one.
    fn next(
        &mut self,
        predicates: &NameTable<PredicateDraft>,
        rounds: usize,
    ) -> Result<bool, Memory> {
        let Some(place) = self.stack.pop() else {
            return Ok(false);
        };
        if let Some(d) = predicates.as_slice().get(place) {
            self.go_on(predicates, rounds, place, d)?;
        }
        Ok(true)
    }
}

/// How many names stand in some definitions.
fn count_uses(predicates: &[PredicateDraft]) -> usize {
    let mut count: usize = 0;
    for d in predicates {
        count = count.saturating_add(d.uses.len());
    }
    count
}

/// The depths of the definitions, by a walk on which each comes behind those that it names, if it
/// can. Each stands on the stack once from the beginning, once behind those that it names, and once
/// for each time that it is named.
///
/// No contract says that they are right: a round follows that looks at each once more.
pub fn first_depths(
    alloc: Global,
    predicates: &NameTable<PredicateDraft>,
    rounds: usize,
) -> Result<Vec<Option<usize>>, Memory> {
    let count = predicates.as_slice().len();
    let steps = count
        .saturating_mul(2)
        .saturating_add(count_uses(predicates.as_slice()));
    let mut walk = Walk::new(alloc, count)?;
    for _step in 0..steps {
        if !walk.next(predicates, rounds)? {
            break;
        }
    }
    Ok(walk.depths)
}
