// Which command serves which module.
ghost use Rattle.std.specs.Prelude.{◌≡◌, ◌≤◌, map, length, IsTrue};
ghost use Rattle.swift_base.specs.Names.{are_distinct};

use crate::text::Text;
use std::marker::Model;

/// A module of macros and the command that starts its plug-in.
#[derive(Drop)]
pub struct Plugin {
    pub module: Text,
    pub command: Text,
}

/// The commands of the modules, in the order in which they were given. A contract sees it as the list.
#[derive(Drop)]
pub struct Plugins {
    list: Vec<Plugin>,
}

impl Model for Plugins {
    ghost use Rattle.std.specs.Prelude.{List};
    ghost use Rattle.swift_base.specs.declared.plugins.Plugin.{Plugin};

    ghost Value = { List Plugin };

    ghost view = { λ p. p.list.items };
}

impl Plugins {
    /// At most 64 modules, no two of one name.
    pub fn new(list: Vec<Plugin>) -> Plugins
        requires few { length list.items ≤ 64 }
        requires distinct { IsTrue (are_distinct (map (λ plugin. plugin.module) list.items)) }
        ensures { result ≡ list.items }
    {
        Plugins { list }
    }

    pub fn list(&self) -> &[Plugin]
        ensures { result.now ≡ self.now }
    {
        &self.list
    }
}
