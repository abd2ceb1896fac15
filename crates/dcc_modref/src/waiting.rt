//! Places that wait for a turn.
//!
//! No contract speaks of them: they say where something new is likely, and what is found in the end doesn't rest on
//! them.

use dcc_ir::End;
use std::alloc::{AllocError, Global};

/// Places that wait for a turn, each once.
#[derive(Drop)]
pub struct Waiting {
    places: Vec<usize>,
    // For each place whether it waits.
    waits: Vec<bool>,
}

impl Waiting {
    /// None of so many places waits.
    pub fn new(alloc: Global, count: usize) -> Result<Waiting, AllocError> {
        let waits = vec![in alloc; false; count]?;
        Ok(Waiting {
            places: Vec::new(alloc),
            waits,
        })
    }

    /// The place waits.
    pub fn add(&mut self, place: usize) -> Result<(), AllocError> {
        if place < self.waits.len() && !self.waits[place] {
            self.waits[place] = true;
            self.places.push(place)?;
        }
        Ok(())
    }

    /// All these places wait.
    pub fn add_all(&mut self, places: &[usize]) -> Result<(), AllocError> {
        for place in places {
            self.add(*place)?;
        }
        Ok(())
    }

    /// The blocks after the end of a block wait.
    pub fn add_after(&mut self, end: &End) -> Result<(), AllocError> {
        match end {
            End::Goto(block) => self.add(*block as usize),
            End::If { one, other, .. } => {
                self.add(*one as usize)?;
                self.add(*other as usize)
            }
            End::Switch { blocks, .. } => {
                for block in blocks {
                    self.add(*block as usize)?;
                }
                Ok(())
            }
            End::Ret(_) | End::Stop => Ok(()),
        }
    }

    /// The place has its turn, so it waits no longer.
    pub fn begin(&mut self, place: usize) {
        if place < self.waits.len() {
            self.waits[place] = false;
        }
    }

    /// The places that wait, taken out for their turns.
    pub fn take(&mut self, alloc: Global) -> Vec<usize> {
        std::mem::replace(&mut self.places, Vec::new(alloc))
    }
}
