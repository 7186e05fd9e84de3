//! Tasks noted in the order of their mothers.

ghost use Rattle.std.specs.Prelude.{◌≡◌, ◌<◌, MatchOption, OnOk, ◌+◌, length};
ghost use Rattle.chart_core.specs.Noted.{tasks_at, SameNotes, IsEmpty, Adds, IsNext, IsAfter, Takes};

use chart_model::NoMemory;
use std::alloc::Global;
use std::collections::{BTreeMap, VecDeque};

/// Tasks under the size and the level of their mothers, in order of size, then of level, then as they were noted. There are
/// few sizes and levels and many tasks, so that each has a list of its own.
#[derive(Drop)]
pub struct Notes {
    lists: BTreeMap<(u32, u32), VecDeque<u64>>,
}

impl Notes {
    /// No notes.
    pub fn new(alloc: Global) -> Notes
        ensures { IsEmpty result }
    {
        Notes {
            lists: BTreeMap::new(alloc),
        }
    }

    /// Notes a task.
    pub fn add(&mut self, alloc: Global, size: u32, level: u32, task: u64) -> Result<(), NoMemory>
        ensures { OnOk result (Adds self.old task size level self.new) }
    {
        if let Some(list) = self.lists.get_mut(&(size, level)) {
            list.push_back(task)?;
            return Ok(());
        }
        let mut list = VecDeque::new(alloc);
        list.push_back(task)?;
        match self.lists.insert((size, level), list) {
            Ok(_) => Ok(()),
            Err(_) => Err(NoMemory),
        }
    }

    /// The first size and level under which a task is noted. Lists before them, which are empty, go.
    pub fn next(&mut self) -> Option<(u32, u32)>
        ensures same { SameNotes self.old self.new }
        ensures next { MatchOption result (IsEmpty self.new) (λ n. IsNext self.new n.0 n.1) }
    {
        while let Some((key, list)) = self.lists.first_key_value() {
            let first = *key;
            if !list.is_empty() {
                return Some(first);
            }
            self.lists.remove(&first);
        }
        None
    }

    /// Takes the first task out that is noted under this size and level, where nothing is noted before them.
    pub fn take(&mut self, size: u32, level: u32) -> Option<u64>
        requires { IsAfter self.old size level }
        ensures { MatchOption result (SameNotes self.old self.new × IsAfter self.new size (level + 1)) (λ task. Takes self.old task size level self.new × (length (tasks_at self.new size level) < length (tasks_at self.old size level))) }
    {
        let list = self.lists.get_mut(&(size, level))?;
        list.pop_front()
    }
}
