ghost use Rattle.std.specs.Prelude.{◌≡◌, IfOk};

use crate::boxes::{add_made, both};
use crate::types::NameTree;
use crate::values::{RowTree, copy_rows};
use og_list::List;
use std::alloc::{AllocError, Global};

/// A strategy file: its sections, in order.
#[derive(Drop)]
pub struct StrategyFile {
    /// The length of the text.
    pub at: u32,
    /// The sections, in order.
    pub sections: List<Section>,
}

/// How an agent plays at one of its decisions.
#[derive(Drop)]
pub struct Section {
    /// The place of `strategy`.
    pub at: u32,
    /// The agent, in quotes.
    pub agent: NameTree,
    /// What is played at which observation, in order.
    pub rows: List<RowTree>,
}

impl StrategyFile {
    /// An equal file, in memory of its own.
    pub fn copy(&self, alloc: Global) -> Result<StrategyFile, AllocError>
        ensures { IfOk result (λ made. made ≡ self.now) }
    {
        let mut sections = List::new(alloc);
        'sections: for section in self.sections.as_slice() {
            add_made(&mut sections, section.copy(alloc))?;
        }
        Ok(StrategyFile {
            at: self.at,
            sections,
        })
    }
}

impl Section {
    /// An equal section, in memory of its own.
    pub fn copy(&self, alloc: Global) -> Result<Section, AllocError>
        ensures { IfOk result (λ made. made ≡ self.now) }
    {
        let (agent, rows) = both(self.agent.copy(alloc), copy_rows(alloc, &self.rows))?;
        Ok(Section {
            at: self.at,
            agent,
            rows,
        })
    }
}
