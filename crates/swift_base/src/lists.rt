// Short lists that contracts see as lists.
ghost use Rattle.std.specs.Prelude.{◌≡◌, ◌∷◌, [], IfOk};

use std::alloc::{AllocError, Global};
use std::marker::Model;

/// Values in order, of which one alone stands in the value itself and asks for no memory. A contract sees it as the
/// list of what they stand for.
#[derive(Debug, Drop)]
pub struct SmallList<T> {
    held: Held<T>,
}

#[derive(Debug, Drop)]
enum Held<T> {
    Empty,
    One([T; 1]),
    Many(Box<Vec<T>>),
}

impl<T> Model for SmallList<T> {
    ghost use Rattle.std.specs.Prelude.{List};
    ghost use Rattle.std.specs.Coded.{coded_list};
    ghost use Rattle.swift_base.specs.Lists.{small_values};

    ghost Value = { List T };

    ghost coded = { coded_list T.code };

    ghost view = { λ list. small_values list.held };
}

impl<T> SmallList<T> {
    pub fn none() -> SmallList<T>
        ensures { result ≡ [] }
    {
        SmallList { held: Held::Empty }
    }

    pub fn one(value: T) -> SmallList<T>
        ensures { result ≡ value ∷ [] }
    {
        SmallList {
            held: Held::One([value]),
        }
    }

    pub fn items(&self) -> &[T]
        ensures { result.now ≡ self.now }
    {
        match &self.held {
            Held::Empty => &[],
            Held::One(value) => &value[..],
            Held::Many(values) => values.as_slice(),
        }
    }
}

impl<T: Drop> SmallList<T> {
    /// The same values, in the room that the list has where there are several.
    pub fn from_vec(alloc: Global, mut values: Vec<T>) -> Result<SmallList<T>, AllocError>
        ensures { IfOk result (λ list. list ≡ values.items) }
    {
        if values.len() > 1 {
            return Ok(SmallList {
                held: Held::Many(Box::new(alloc, values)?),
            });
        }
        match values.pop() {
            Some(value) => Ok(SmallList::one(value)),
            None => Ok(SmallList::none()),
        }
    }
}

impl<T: Copy> SmallList<T> {
    /// A copy of these values.
    pub fn from_slice(alloc: Global, values: &[T]) -> Result<SmallList<T>, AllocError>
        ensures { IfOk result (λ list. list ≡ values.now) }
    {
        match values {
            [] => Ok(SmallList::none()),
            [value] => Ok(SmallList::one(*value)),
            _ => {
                let copied = Vec::from_slice(alloc, values)?;
                Ok(SmallList {
                    held: Held::Many(Box::new(alloc, copied)?),
                })
            }
        }
    }
}

/// Values in order, of which mostly there are none: the value is small, and none ask for no memory. A contract sees
/// it as the list of what they stand for.
#[derive(Debug, Drop)]
pub struct ThinList<T> {
    held: Option<Box<Vec<T>>>,
}

impl<T> Model for ThinList<T> {
    ghost use Rattle.std.specs.Prelude.{List};
    ghost use Rattle.std.specs.Coded.{coded_list};
    ghost use Rattle.swift_base.specs.Lists.{thin_values};

    ghost Value = { List T };

    ghost coded = { coded_list T.code };

    ghost view = { λ list. thin_values list.held };
}

impl<T> ThinList<T> {
    pub fn none() -> ThinList<T>
        ensures { result ≡ [] }
    {
        ThinList { held: None }
    }

    pub fn items(&self) -> &[T]
        ensures { result.now ≡ self.now }
    {
        match &self.held {
            None => &[],
            Some(values) => values.as_slice(),
        }
    }
}

impl<T: Drop> ThinList<T> {
    /// The same values, in the room that the list has.
    pub fn from_vec(alloc: Global, values: Vec<T>) -> Result<ThinList<T>, AllocError>
        ensures { IfOk result (λ list. list ≡ values.items) }
    {
        if values.is_empty() {
            return Ok(ThinList::none());
        }
        Ok(ThinList {
            held: Some(Box::new(alloc, values)?),
        })
    }
}
