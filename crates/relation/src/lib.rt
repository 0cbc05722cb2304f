// A relation on numbers: which leads to which, in one step and in any number of steps.
#![tactic(auto)]

ghost use Rattle.std.specs.Prelude.{◌≡◌, ℕ, ◌<◌, ◌≤◌, ◌↔◌, true, false, ◌||◌, ◌&&◌, ◌==◌, IfOk, vec_len};
ghost use Rattle.model.specs.Paths.{Steps};
ghost use Rattle.relation.specs.declared.TheConstants.{MOST};
ghost use Rattle.relation.specs.Relating.{leads, First};

mod row;
#[cfg(test)]
mod tests;

use row::Row;
use std::alloc::{AllocError, Global};

// The most numbers that a relation may be on.
pub const MOST: usize = 1024;

// A row for each number: the numbers to which it leads.
#[derive(Drop)]
pub struct Relation {
    rows: Vec<Row>,
    ghost few: { vec_len rows ≤ MOST },
}

impl Relation {
    // The relation on the numbers below a size in which none leads to any.
    pub fn new(heap: Global, size: usize) -> Result<Relation, AllocError>
        requires { size ≤ MOST }
        ensures size { IfOk result (λ r. vec_len r.rows ≡ size) }
        ensures none { IfOk result (λ r. (i j : ℕ) → leads r.rows.items i j ≡ false) }
    {
        let rows = Vec::from_elem(heap, Row::new(), size)?;
        Ok(Relation { rows })
    }

    pub fn add(&mut self, from: usize, to: usize)
        requires from { from < vec_len self.now.rows }
        requires to { to < MOST }
        ensures size { vec_len self.new.rows ≡ vec_len self.old.rows }
        ensures added { (i j : ℕ) → leads self.new.rows.items i j ≡ (i == from && j == to || leads self.old.rows.items i j) }
    {
        self.rows[from].insert(to);
    }

    // Adds what one step by way of a number leads to.
    fn pass(&mut self, through: usize)
        requires { through < vec_len self.now.rows }
        ensures size { vec_len self.new.rows ≡ vec_len self.old.rows }
        ensures passed { (i j : ℕ) → leads self.new.rows.items i j ≡ (leads self.old.rows.items i j || (leads self.old.rows.items i through && leads self.old.rows.items through j)) }
    {
        let pivot = self.rows[through];
        for number in 0..self.rows.len() {
            if self.rows[number].contains(through) {
                self.rows[number].join(&pivot);
            }
        }
    }

    // Warshall's closure: afterwards a number leads to all to which it led in one or more steps.
    pub fn close(&mut self)
        ensures size { vec_len self.new.rows ≡ vec_len self.old.rows }
        ensures closed { (i j : ℕ) → leads self.new.rows.items i j ≡ true ↔ Steps (λ a b. leads self.old.rows.items a b ≡ true) i j }
    {
        for through in 0..self.rows.len() {
            self.pass(through);
        }
    }

    pub fn leads(&self, from: usize, to: usize) -> bool
        requires from { from < vec_len self.now.rows }
        requires to { to < MOST }
        ensures { result ≡ leads self.now.rows.items from to }
    {
        self.rows[from].contains(to)
    }

    // The first number that leads to itself.
    pub fn first_to_itself(&self) -> Option<usize>
        ensures { First (λ i. leads self.now.rows.items i i) result }
    {
        for number in 0..self.rows.len() {
            if self.rows[number].contains(number) {
                return Some(number);
            }
        }
        None
    }
}
