//! What a core tells of its tasks and hosts.

use crate::search::peers_at;
use crate::tasks::Standing;
use crate::tuples::tuple_of;
use crate::{Core, Peers, Ready, TaskId, TaskInfo};
use chart_model::{Cover, NoMemory, Shapes};
use std::alloc::Global;

impl<S: Shapes> Core<S> {
    ghost use Rattle.std.specs.Prelude.{◌≡◌, ◌<◌, ℕ, All, IfOk, OnErr, MatchResult, Some, slice_get};
    ghost use Rattle.chart_core.specs.CoreView.{chart_of, history_of};
    ghost use Rattle.chart_core.specs.Steps.{IsDoneAt};
    ghost use Rattle.chart_core.specs.Grammar.{grammar_of, keys_of};
    ghost use Rattle.chart_core.specs.Kept.{IsCore, tasks_of, places_of};
    ghost use Rattle.chart_core.specs.Calls.{Tells, IsOpenIn, IsInfo, ArePeers};
    ghost use Rattle.chart_core.specs.Later.{IsLater, StaysRight};

    /// How a task stands.
    ///
    /// `Done` exactly where it is done, with the place of its entry; each entry of the history is of a task that is. Else `Skipped` exactly where a daughter is frosted, with the
    /// first. Else `Ready` with the rule and equal shapes and covers of the daughters. `NoMemory` may stand in place of
    /// `Ready` alone. An outcome that is right for what was told stays right while outcomes of other tasks are entered.
    pub fn ready(&self, alloc: Global, shapes: &S, task: TaskId) -> Result<Ready<S>, NoMemory>
        requires core { IsCore (grammar_of S.Shapes S.Cover.Cover.own shapes.now) self.now }
        requires made { task.0 < tasks_of self.now }
        ensures tells { IfOk result (Tells (grammar_of S.Shapes S.Cover.Cover.own shapes.now) self.now task.0) }
        ensures no_memory { OnErr result (IsOpenIn (grammar_of S.Shapes S.Cover.Cover.own shapes.now) self.now task.0) }
        ensures stays { IfOk result (λ r. (later : _)
            → IsCore (grammar_of S.Shapes S.Cover.Cover.own shapes.now) later
            → IsLater (grammar_of S.Shapes S.Cover.Cover.own shapes.now) self.now later
            → StaysRight (grammar_of S.Shapes S.Cover.Cover.own shapes.now) later task.0 r) }
        ensures entered { (place : ℕ) (e : _)
            → slice_get (history_of (S.meaning shapes.now) self.now) place ≡ Some e
            → IsDoneAt (chart_of (S.meaning shapes.now) self.now) e.task place }
    {
        match self.standing(shapes, task) {
            Standing::Done(place) => Ok(Ready::Done { place }),
            Standing::Skipped(row) => Ok(Ready::Skipped { row }),
            Standing::Open(rule, daughters) => {
                let parts = tuple_of(alloc, &self.rows, shapes, &daughters)?;
                Ok(Ready::Ready { rule, parts })
            }
        }
    }

    /// The rule of a task, and the size and level of its host. Takes no memory.
    pub fn task(&self, task: TaskId) -> TaskInfo
        requires core { (s : S) × IsCore (grammar_of S.Shapes S.Cover.Cover.own s) self.now }
        requires made { task.0 < tasks_of self.now }
        ensures { IsInfo S.Cover.extent self.now task.0 result }
    {
        let info = self.tasks[task.0 as usize];
        let host = &self.rows[info.host.0 as usize];
        TaskInfo {
            rule: info.rule,
            size: host.cover.size(),
            level: host.level,
        }
    }

    /// The live hosts of a cover and a level, in order of rows, with equal shapes, and the length of the history.
    pub fn peers(
        &self,
        alloc: Global,
        shapes: &S,
        cover: &S::Cover,
        level: u32,
    ) -> Result<Peers<S>, NoMemory>
        requires core { IsCore (grammar_of S.Shapes S.Cover.Cover.own shapes.now) self.now }
        ensures hosts { IfOk result (λ p. ArePeers (grammar_of S.Shapes S.Cover.Cover.own shapes.now) self.now cover.now level p.hosts.items) }
        ensures belongs { IfOk result (λ p. All (λ peer. S.belongs shapes.now peer.shape) p.hosts.items) }
        ensures seen { IfOk result (λ p. p.seen ≡ places_of self.now) }
    {
        let places = self.cells.at(cover.cell());
        let hosts = peers_at(alloc, &self.rows, places, shapes, cover, level)?;
        Ok(Peers {
            hosts,
            seen: self.history.len() as u64,
        })
    }
}
