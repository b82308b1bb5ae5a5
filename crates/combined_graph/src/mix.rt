//! Mixes, which contracts see as plain records.
ghost use Rattle.std.specs.Prelude.{◌≡◌, ◌≤◌, ◌<◌, length};
ghost use Rattle.combined_graph.specs.Mixes.{IsMix, model_at, time_of};

use crate::model::MixModel;
use std::marker::Model;

/// The models that one line builds: 1 to 16 models over 1 to 1,024 tasks, both counted from 0. Each model has a name,
/// a demand, a time for each task and arcs. Contracts see a record of these.
#[derive(Drop)]
pub struct Mix {
    pub(crate) tasks: u32,
    pub(crate) models: Vec<MixModel>,
}

impl Model for Mix {
    ghost use Rattle.combined_graph.specs.Mixes.{MixedLine, IsMix};

    ghost Value = { MixedLine };

    ghost view = { λ s. record { tasks = s.tasks; models = s.models.items } };

    ghost invariant = { λ s. IsMix (record { tasks = s.tasks; models = s.models.items }) };
}

impl Mix {
    /// The number of tasks, 1 to 1,024.
    #[inline]
    pub fn tasks(&self) -> u32
        ensures tasks { result ≡ self.now.tasks }
        ensures mix { IsMix self.now }
    {
        self.tasks
    }

    /// The number of models, 1 to 16.
    #[inline]
    pub fn models(&self) -> u32
        ensures models { result ≡ length self.now.models }
        ensures some { 0 < result }
        ensures few { result ≤ 16 }
    {
        self.models.len() as u32
    }

    /// How many units of a model are wanted, 1 to 10,000.
    #[inline]
    pub fn demand(&self, model: u32) -> u64
        requires { model < length self.now.models }
        ensures demand { result ≡ (model_at self.now.models model).demand }
        ensures limit { result ≤ 10000 }
    {
        self.models[model as usize].demand()
    }

    /// The name of a model: 1 to 32 letters, digits, `-` or `_`.
    #[inline]
    pub fn name(&self, model: u32) -> &[u8]
        requires { model < length self.now.models }
        ensures { result.now ≡ (model_at self.now.models model).name }
    {
        self.models[model as usize].name()
    }

    /// The time of a task of a model, in the mix's time unit, at most 1,000,000,000; 0 where none was given.
    #[inline]
    pub fn time(&self, model: u32, task: u32) -> u64
        requires model { model < length self.now.models }
        requires task { task < self.now.tasks }
        ensures time { result ≡ time_of (model_at self.now.models model) task }
        ensures limit { result ≤ 1000000000 }
    {
        self.models[model as usize].time(task)
    }
}
