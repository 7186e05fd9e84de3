//! A depth-first search along parents, which finds the types of one cycle together (Tarjan 1972).
//!
//! No clause rests on what it finds: who uses it tests what must hold.

use std::alloc::{AllocError, Global};

/// What the search finds.
#[derive(Drop)]
pub struct Components {
    /// The types, each after those that it is below.
    pub order: Vec<usize>,
    /// By number, the rank of a type: its parents' ranks are less, or the same on a cycle.
    pub ranks: Vec<usize>,
}

// What is known of the lowest visit that a type leads to: none yet, or the type was left.
const UNVISITED: usize = 0;

const LEFT: usize = usize::MAX;

// A type on the path, its visit's number from 1, and which of its parents is next.
#[derive(Clone, Copy)]
struct Step {
    t: usize,
    visit: usize,
    next: usize,
}

#[derive(Drop)]
struct Search {
    visits: usize,
    lowest: Vec<usize>,
    path: Vec<Step>,
    open: Vec<usize>,
    rank: usize,
    order: Vec<usize>,
    ranks: Vec<usize>,
}

fn get(numbers: &[usize], t: usize) -> usize {
    numbers.get(t).copied().unwrap_or(LEFT)
}

fn set(numbers: &mut [usize], t: usize, number: usize) {
    if t < numbers.len() {
        numbers[t] = number;
    }
}

impl Search {
    // Begins a type's visit.
    fn enter(&mut self, t: usize) -> Result<(), AllocError> {
        self.visits = self.visits.saturating_add(1);
        set(&mut self.lowest, t, self.visits);
        self.open.push(t)?;
        self.path.push(Step {
            t,
            visit: self.visits,
            next: 0,
        })?;
        Ok(())
    }

    // Ends a type's visit. Where it leads to no earlier visit, the types that are open since then are one component.
    fn leave(&mut self, step: Step) -> Result<(), AllocError> {
        if get(&self.lowest, step.t) < step.visit {
            return Ok(());
        }
        while let Some(t) = self.open.pop() {
            set(&mut self.lowest, t, LEFT);
            set(&mut self.ranks, t, self.rank);
            self.order.push(t)?;
            if t == step.t {
                break;
            }
        }
        self.rank = self.rank.saturating_add(1);
        Ok(())
    }

    // Goes to the next parent of the last type of the path, or leaves it. False where the path is at its end.
    fn go_on(&mut self, parents: &[Vec<usize>]) -> Result<bool, AllocError> {
        let Some(step) = self.path.pop() else {
            return Ok(false);
        };
        let Some(list) = parents.get(step.t) else {
            return Ok(true);
        };
        let Some(parent) = list.get(step.next) else {
            self.leave(step)?;
            return Ok(true);
        };
        let of_parent = get(&self.lowest, *parent);
        if of_parent == UNVISITED {
            self.path.push(step)?;
            self.enter(*parent)?;
            return Ok(true);
        }
        let lowest = get(&self.lowest, step.t).min(of_parent);
        set(&mut self.lowest, step.t, lowest);
        self.path.push(Step {
            t: step.t,
            visit: step.visit,
            next: step.next + 1,
        })?;
        Ok(true)
    }

    // Visits a type, unless it was visited, and all that it is below.
    fn visit(&mut self, parents: &[Vec<usize>], t: usize) -> Result<(), AllocError> {
        if get(&self.lowest, t) != UNVISITED {
            return Ok(());
        }
        self.enter(t)?;
        for _ in 0..usize::MAX {
            if !self.go_on(parents)? {
                break;
            }
        }
        Ok(())
    }
}

/// Searches from each type, in time that grows with the types and their parents.
pub fn components_of(alloc: Global, parents: &[Vec<usize>]) -> Result<Components, AllocError> {
    let mut search = Search {
        visits: 0,
        lowest: vec![in alloc; UNVISITED; parents.len()]?,
        path: Vec::new(alloc),
        open: Vec::new(alloc),
        rank: 0,
        order: Vec::with_capacity(alloc, parents.len())?,
        ranks: vec![in alloc; 0; parents.len()]?,
    };
    for t in 0..parents.len() {
        search.visit(parents, t)?;
    }
    let Search { order, ranks, .. } = search;
    Ok(Components { order, ranks })
}
