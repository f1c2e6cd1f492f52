// Keys: where a request stands, as a path of steps from the source.
ghost use Rattle.std.specs.Prelude.{◌≡◌, List, [], Some, refl};
ghost use Rattle.std.specs.Hash as fed;
ghost use Rattle.std.specs.Hash.{items_Alike};
ghost use Rattle.std.specs.Cmp.{partial_order_from_agreeing_total};
ghost use Rattle.std.specs.Cmp.Lexicographic.{pointwise, slice_cmp, lists_per, lists_equiv, lists_total, lists_ties};
ghost use Rattle.unique_names.specs.Steps.{step_eq, step_cmp, step_hash};
ghost use Rattle.unique_names.specs.Laws.{EqualKeysAreOne};
ghost use Rattle.unique_names.specs.contracts.step.KeyStepPartialEq.TheImpl.Laws.{laws-law as step_eq_laws};
ghost use Rattle.unique_names.specs.contracts.step.KeyStepEq.TheImpl.Laws.{laws-law as step_eq_equivalence};
ghost use Rattle.unique_names.specs.contracts.step.KeyStepOrd.TheImpl.Laws.{total-law as step_cmp_total, matches_eq-law as step_cmp_ties};
ghost use Rattle.unique_names.specs.contracts.step.KeyStepHash.TheImpl.Laws.{respects_eq-law as step_hash_respects};

use crate::step::KeyStep;
use std::alloc::{AllocError, Global};
use std::cmp::Ordering;
use std::hash::{Hash, Hasher};
use std::marker::Model;

/// A buffer or the request whose reply it is; the source's key has no steps. A contract sees the list of steps.
#[derive(Debug, Drop)]
pub struct Key {
    pub steps: Vec<KeyStep>,
}

impl Model for Key {
    ghost use Rattle.std.specs.Prelude.{List};
    ghost use Rattle.unique_names.specs.declared.step.KeyStep.{KeyStep};

    ghost Value = { List KeyStep };

    ghost view = { λ k. k.steps.items };
}

impl Key {
    /// The source's key.
    pub fn source(alloc: Global) -> Key
        ensures { result ≡ [] }
    {
        Key {
            steps: Vec::new(alloc),
        }
    }
}

impl Clone for Key {
    ghost is_clone = { λ a b. b ≡ a };

    fn clone(&self) -> Result<Key, AllocError> {
        Ok(Key {
            steps: self.steps.clone()?,
        })
    }
}

impl PartialEq for Key {
    ghost eq = { pointwise step_eq };

    ghost laws = { lists_per step_eq_laws };

    fn eq(&self, other: &Key) -> bool {
        self.steps == other.steps
    }
}

impl Eq for Key {
    ghost laws = { lists_equiv step_eq_equivalence };
}

impl PartialOrd for Key {
    ghost partial_cmp = { λ x y. Some (slice_cmp step_cmp x y) };

    ghost laws = { partial_order_from_agreeing_total (slice_cmp step_cmp) (lists_total step_cmp_total) (λ x y. refl) (lists_ties step_cmp step_cmp_ties) };

    fn partial_cmp(&self, other: &Key) -> Option<Ordering> {
        Some(self.cmp(other))
    }
}

impl Ord for Key {
    ghost cmp = { slice_cmp step_cmp };

    ghost total = { lists_total step_cmp_total };

    ghost matches_partial_cmp = { λ x y. refl };

    ghost matches_eq = { lists_ties step_cmp step_cmp_ties };

    fn cmp(&self, other: &Key) -> Ordering {
        self.steps.cmp(&other.steps)
    }
}

impl Hash for Key {
    ghost hash_input = { fed.slice step_hash };

    ghost respects_eq = { (items_Alike (record { fed = step_hash_respects })).fed };

    fn hash<H: Hasher>(&self, state: &mut H) {
        self.steps.hash(state);
    }
}

/// `==` holds exactly of the same key, so a map from keys finds what was put under that key.
pub fn equal_keys_are_one()
    ensures { EqualKeysAreOne }
{}
