// The sites of a buffer.
ghost use Rattle.std.specs.Prelude.{◌≡◌, ◌++◌, ◌∷◌, [], IfOk, map};
ghost use Rattle.expansion_model.specs.Buffers.{buffer_seen};
ghost use Rattle.expansion_model.specs.BufferSites.{ask_if, unless_recursive, buffer_sites};

use crate::buffer::{Ancestor, Buffer, is_recursive};
use crate::site::{Ask, Site, SiteFault, SiteKind};
use crate::slices::add;
use crate::visits::sites_of;
use macro_decls::MacroTable;
use plugin_messages::MacroRef;
use std::alloc::{AllocError, Global};
use swift_base::Plugin;

fn ask_if(recursive: bool, ask: Ask) -> Site
    ensures { result ≡ ask_if recursive ask }
{
    if !recursive {
        return Site::Asks(ask);
    }
    let Ask {
        macro_use,
        target,
        stands_for: _,
    } = ask;
    let MacroRef {
        module: _,
        type_name: _,
        name,
    } = target;
    Site::Fault(SiteFault {
        at: macro_use.span.start,
        kind: SiteKind::Recursive,
        name,
    })
}

/// A use is a fault where its macro and role stand among the ancestors.
fn unless_recursive(ancestors: &[Ancestor], site: Site) -> Site
    ensures { result ≡ unless_recursive ancestors.now site }
{
    match site {
        Site::Asks(ask) => {
            let recursive = is_recursive(&ask, ancestors);
            ask_if(recursive, ask)
        }
        Site::Fault(fault) => Site::Fault(fault),
        Site::NotBuilt(at) => Site::NotBuilt(at),
        Site::Attribute(span) => Site::Attribute(span),
    }
}

/// The sites of a buffer, in the order of their visits.
#[tactic(auto, unfolding(crate::specs::BufferSites::buffer_sites))]
pub fn buffer_sites(
    alloc: Global,
    macros: &MacroTable,
    plugins: &[Plugin],
    buffer: &Buffer,
) -> Result<Vec<Site>, AllocError>
    ensures { IfOk result (λ sites. sites.items ≡ buffer_sites macros.now plugins.now (buffer_seen buffer.now)) }
{
    let found = sites_of(alloc, macros, plugins, buffer.file_scope, &buffer.outline)?;
    let mut sites = Vec::with_capacity(alloc, found.len())?;
    'sites: for site in found {
        add(&mut sites, unless_recursive(buffer.ancestors.items(), site))?;
    }
    Ok(sites)
}
