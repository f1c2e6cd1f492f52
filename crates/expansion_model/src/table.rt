// Outcomes by their keys.
ghost use Rattle.std.specs.Prelude.{◌≡◌, Some, None, IfOk, List, refl};
ghost use Rattle.std.specs.Option.{option_copied};
ghost use Rattle.unique_names.specs.declared.step.KeyStep.{KeyStep};
ghost use Rattle.expansion_model.specs.Table.{look};

use indexmap::IndexMap;
use plugin_messages::Outcome;
use std::alloc::{AllocError, Global};
use unique_names::{Key, equal_keys_are_one};

/// Outcomes by the keys of their requests.
#[derive(Drop)]
pub struct Table {
    outcomes: IndexMap<Key, Outcome>,
}

impl Table {
    /// No key has an outcome. This takes no memory.
    pub fn new(alloc: Global) -> Table
        ensures { (key : List KeyStep) → look result key ≡ None }
    {
        Table {
            outcomes: IndexMap::new(alloc),
        }
    }

    /// Puts an outcome under a key, in the place of an earlier one; after want of memory the table is as before.
    pub fn put(&mut self, key: Key, outcome: Outcome) -> Result<(), AllocError>
        ensures put { IfOk result (λ _. look self.new key ≡ Some outcome) }
        ensures others { IfOk result (λ _. (other : List KeyStep) → (other ≡ key → ⊥) → look self.new other ≡ look self.old other) }
    {
        equal_keys_are_one();
        self.outcomes.insert(key, outcome)?;
        Ok(())
    }

    /// What was put last under a key.
    pub fn get(&self, key: &Key) -> Option<&Outcome>
        ensures { option_copied result ≡ look self.now key.now }
    {
        self.outcomes.get(key)
    }
}
