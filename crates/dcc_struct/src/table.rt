//! What is known of each block of a graph.

use std::alloc::{AllocError, Global};

/// A value for each of so many blocks, and one value for all other numbers.
#[derive(Drop)]
pub struct Table<T: Copy> {
    values: Vec<T>,
    other: T,
}

impl<T: Copy> Table<T> {
    /// This value for each number.
    pub fn new(alloc: Global, count: usize, value: T) -> Result<Table<T>, AllocError> {
        let mut values = Vec::with_capacity(alloc, count)?;
        for _ in 0..count {
            values.push(value)?;
        }
        Ok(Table {
            values,
            other: value,
        })
    }

    /// The value of a block.
    pub fn at(&self, block: usize) -> T {
        match self.values.get(block) {
            Some(value) => *value,
            None => self.other,
        }
    }

    /// Gives a block this value; nothing where it is none of the blocks.
    pub fn put(&mut self, block: usize, value: T) {
        if block < self.values.len() {
            self.values[block] = value;
        }
    }
}

/// A list of values for each of so many blocks.
#[derive(Drop)]
pub struct Lists<T: Drop> {
    lists: Vec<Vec<T>>,
}

impl<T: Drop> Lists<T> {
    /// Empty lists.
    pub fn new(alloc: Global, count: usize) -> Result<Lists<T>, AllocError> {
        let mut lists = Vec::with_capacity(alloc, count)?;
        for _ in 0..count {
            lists.push(Vec::new(alloc))?;
        }
        Ok(Lists { lists })
    }

    /// The list of a block; the empty one where it is none of the blocks.
    pub fn of(&self, block: usize) -> &[T] {
        match self.lists.get(block) {
            Some(list) => list.as_slice(),
            None => &[],
        }
    }

    /// Puts a value at the end of the list of a block; nothing where it is none of the blocks.
    pub fn push(&mut self, block: usize, value: T) -> Result<(), AllocError> {
        if block < self.lists.len() {
            self.lists[block].push(value)?;
        }
        Ok(())
    }
}
