// The visit of a buffer.
ghost use Rattle.std.specs.Prelude.{◌≡◌, ◌<◌, ◌+◌, ◌-◌, ◌^◌, ◌++◌, ◌∷◌, [], Some, Ok, IfOk, not, length, count_by};
ghost use Rattle.std.specs.Option.{option_copied};
ghost use Rattle.std.specs.List.{All};
ghost use Rattle.swift_tree.specs.Outlines.{outline_of, items_of};
ghost use Rattle.macro_decls.specs.Macros.{IsDeclReadable};
ghost use Rattle.result_reader.specs.Reading.{reading_of};
ghost use Rattle.expansion_model.specs.Buffers.{IsSound, buffer_seen, is_among, reply_buffer, same_pair};
ghost use Rattle.expansion_model.specs.Messages.{IsNear};
ghost use Rattle.expansion_model.specs.Messages.{message_in, refusal_text};
ghost use Rattle.expansion_model.specs.Readable.{IsSiteReadable, IsAskReadable};
ghost use Rattle.expansion_model.specs.Requests.{place_of};
ghost use Rattle.expansion_model.specs.Table.{Look, look};
ghost use Rattle.expansion_model.specs.Visit.{Found, visit, visit_to, over, given, by_outcome, by_reply, by_reading, reading_for, refusal_in, names_in, names_of, edit_from, trimmed, is_without, declarations_or_space, put_by, edit_of, spliced, pairs_in, pairs_of};
ghost use Rattle.expansion_model.specs.Visited.{a_message, visited_of, visited_seen, with_more};
ghost use Rattle.expansion_model.specs.BufferSites.{buffer_sites, offset_of};
ghost use Rattle.expansion_model.specs.declared.site.Site.TheVariants as site;

use crate::buffer::{Ancestor, Buffer, key_of, reply_buffer, reply_name};
use crate::message::{Message, MessageText};
use crate::place::{FIRST_PLACE, Place, place_from};
use crate::recursion::buffer_sites;
use crate::request::request_of;
use crate::site::{Ask, Site};
use crate::table::Table;
use crate::visited::{Visited, nothing_found, put_asked, put_edit, put_message, put_missing};
use decl_parser::LONGEST_SOURCE;
use macro_decls::{MacroDecl, MacroTable, RoleDecl};
use plugin_messages::{Diagnostic, Outcome};
use result_reader::{Reading, ResultFault, ResultKind, read_result};
use result_splice::{Edit, edited_text};
use role_names::{NameList, NameRule};
use std::alloc::{AllocError, Global};
use swift_base::{Listed, Plugin, Refusal, Text};
use swift_tree::{Item, Outline};
use unique_names::{Role, discriminator};

// The offset of a site.
fn offset_of(site: &Site) -> u32
    ensures { result ≡ offset_of site.now }
{
    match site {
        Site::Asks(ask) => ask.macro_use.span.start,
        Site::Fault(fault) => fault.at,
        Site::NotBuilt(at) => *at,
        Site::Attribute(span) => span.start,
    }
}

// A message at a place of a buffer.
#[tactic(auto, unfolding(crate::specs::Requests::place_of))]
fn message_in(buffer: &Buffer, place: Place, text: MessageText) -> Result<Message, AllocError>
    requires { place ≡ place_of buffer.now.outline.text place.at }
    ensures { IfOk result (λ message. message ≡ message_in (buffer_seen buffer.now) place.at text) }
{
    Ok(Message {
        name: buffer.name.clone()?,
        line: place.line,
        column: place.column,
        text,
    })
}

fn refusal_text(macro_name: &Text, kind: ResultKind) -> Result<MessageText, AllocError>
    ensures { IfOk result (λ text. text ≡ refusal_text macro_name.now kind) }
{
    match kind {
        ResultKind::Parse(kind) => Ok(MessageText::Parse(kind)),
        ResultKind::ForbiddenKind => Ok(MessageText::ForbiddenKind {
            macro_name: macro_name.clone()?,
        }),
        ResultKind::FileScopeArbitrary => Ok(MessageText::FileScopeArbitrary),
        ResultKind::Uncovered(name) => Ok(MessageText::Uncovered {
            name,
            macro_name: macro_name.clone()?,
        }),
    }
}

fn copied_rule(rule: &NameRule) -> Result<NameRule, AllocError>
    ensures { IfOk result (λ copy. copy ≡ rule.now) }
{
    match rule {
        NameRule::Named(name) => Ok(NameRule::Named(name.clone()?)),
        NameRule::Overloaded => Ok(NameRule::Overloaded),
        NameRule::Prefixed(prefix) => Ok(NameRule::Prefixed(prefix.clone()?)),
        NameRule::Suffixed(suffix) => Ok(NameRule::Suffixed(suffix.clone()?)),
        NameRule::Arbitrary => Ok(NameRule::Arbitrary),
    }
}

fn copied_names(alloc: Global, names: &NameList) -> Result<NameList, AllocError>
    ensures { IfOk result (λ copy. copy ≡ names.now) }
{
    let mut rules = Vec::new(alloc);
    'rules: for rule in names.rules.items() {
        rules.push(copied_rule(rule)?)?;
    }
    Ok(NameList {
        rules: Listed::from_vec(rules),
    })
}

fn no_names(alloc: Global) -> NameList
    ensures { result ≡ record { rules = [] } }
{
    NameList {
        rules: Listed::from_vec(Vec::new(alloc)),
    }
}

// The names that a macro may make in a role.
fn names_in(alloc: Global, wanted: Role, roles: &[RoleDecl]) -> Result<NameList, AllocError>
    ensures { IfOk result (λ names. names ≡ names_in wanted roles.now) }
{
    let mut rest = roles;
    'roles: while let [own, others @ ..] = rest {
        if own.role == wanted {
            return copied_names(alloc, &own.names);
        }
        rest = others;
    }
    Ok(no_names(alloc))
}

fn names_of(
    alloc: Global,
    wanted: Role,
    declared: Option<&MacroDecl>,
) -> Result<NameList, AllocError>
    ensures { IfOk result (λ names. names ≡ names_of wanted (option_copied declared.entry)) }
{
    match declared {
        Some(declared) => names_in(alloc, wanted, declared.roles.items()),
        None => Ok(no_names(alloc)),
    }
}

// As what the reply to a use is read.
fn reading_for(
    alloc: Global,
    macros: &MacroTable,
    buffer: &Buffer,
    ask: &Ask,
) -> Result<Reading, AllocError>
    ensures { IfOk result (λ reading. reading ≡ reading_for macros.now (buffer_seen buffer.now) ask.now) }
{
    let key = key_of(&buffer.key, ask)?;
    let role = ask.stands_for.role;
    Ok(Reading {
        role,
        file_scope: ask.stands_for.file_scope,
        attached: None,
        discriminator: discriminator(alloc, &key)?,
        names: names_of(alloc, role, macros.find(ask.target.name.bytes()))?,
    })
}

fn edit_from(start: u32, end: u32, bytes: Vec<u8>) -> Edit
    ensures { result ≡ edit_from start end bytes.items }
{
    Edit {
        start,
        end,
        bytes: Text::from_vec(bytes),
    }
}

// The text from its first token to its last, with its edits made.
fn trimmed(alloc: Global, outline: &Outline, edits: Vec<Edit>) -> Result<Vec<u8>, AllocError>
    requires { length outline.now.text < 2 ^ 32 }
    ensures { IfOk result (λ bytes. bytes.items ≡ trimmed (outline_of outline.now) edits.items) }
{
    let text = outline.text.bytes();
    let mut inner = edits;
    let mut all = Vec::with_capacity(alloc, inner.len())?;
    all.push(edit_from(0, outline.inside.start, Vec::new(alloc)))?;
    all.append(&mut inner)?;
    all.push(edit_from(outline.inside.end, text.len() as u32, Vec::new(alloc)))?;
    edited_text(alloc, text, all)
}

fn between(alloc: Global, before: &[u8], bytes: &[u8], behind: &[u8]) -> Result<Vec<u8>, AllocError>
    ensures { IfOk result (λ all. all.items ≡ before.now ++ (bytes.now ++ behind.now)) }
{
    let mut all = Vec::from_slice(alloc, before)?;
    all.extend_from_slice(bytes)?;
    all.extend_from_slice(behind)?;
    Ok(all)
}

#[tactic(auto, using(crate::proofs::Walks::without_by_length))]
fn is_without(items: &[Item]) -> bool
    ensures { result ≡ is_without (items_of items.now) }
{
    items.len() == 0
}

fn declarations_or_space(alloc: Global, without: bool, bytes: &[u8]) -> Result<Vec<u8>, AllocError>
    ensures { IfOk result (λ all. all.items ≡ declarations_or_space without bytes.now) }
{
    if without {
        return Vec::from_slice(alloc, b" ");
    }
    between(alloc, b"\n", bytes, b"\n")
}

// What is put in the place of a use.
fn put_by(
    alloc: Global,
    role: Role,
    outline: &Outline,
    edits: Vec<Edit>,
) -> Result<Vec<u8>, AllocError>
    requires { length outline.now.text < 2 ^ 32 }
    ensures { IfOk result (λ bytes. bytes.items ≡ put_by role (outline_of outline.now) edits.items) }
{
    match role {
        Role::Declaration => {
            let bytes = edited_text(alloc, outline.text.bytes(), edits)?;
            declarations_or_space(alloc, is_without(&outline.items), &bytes)
        }
        _ => {
            let bytes = trimmed(alloc, outline, edits)?;
            between(alloc, b"(", &bytes, b")")
        }
    }
}

fn edit_of(
    alloc: Global,
    ask: &Ask,
    outline: &Outline,
    edits: Vec<Edit>,
) -> Result<Edit, AllocError>
    requires { length outline.now.text < 2 ^ 32 }
    ensures { IfOk result (λ edit. edit ≡ edit_of ask.now (outline_of outline.now) edits.items) }
{
    let bytes = put_by(alloc, ask.stands_for.role, outline, edits)?;
    let span = ask.macro_use.span;
    Ok(edit_from(span.start, span.end, bytes))
}

// The place of a refusal; in a text that is too long to be read it is the first.
#[tactic(auto, unfolding(crate::specs::Requests::place_of))]
fn place_near(reply: &[u8], at: u32) -> Place
    requires { IsNear reply.now at }
    ensures { result ≡ place_of reply.now at }
{
    if reply.len() > LONGEST_SOURCE {
        return FIRST_PLACE;
    }
    place_from(reply, FIRST_PLACE, at)
}

// The first fault of a reply that is refused, at its place in the reply.
#[tactic(auto, unfolding(crate::specs::Requests::place_of))]
fn put_refusal(
    alloc: Global,
    buffer: &Buffer,
    ask: &Ask,
    reply: &[u8],
    fault: ResultFault,
    visited: &mut Visited,
) -> Result<(), AllocError>
    requires { IsNear reply.now fault.at }
    ensures { IfOk result (λ _. visited_seen visited.new
        ≡ with_more (visited_seen visited.old) (a_message (refusal_in (buffer_seen buffer.now) ask.now reply.now fault))) }
{
    let ResultFault { at, kind } = fault;
    let place = place_near(reply, at);
    let key = key_of(&buffer.key, ask)?;
    let message = Message {
        name: reply_name(alloc, &key)?,
        line: place.line,
        column: place.column,
        text: refusal_text(&ask.target.name, kind)?,
    };
    put_message(visited, message)
}

fn put_at_use(
    buffer: &Buffer,
    place: Place,
    text: MessageText,
    visited: &mut Visited,
) -> Result<(), AllocError>
    requires { place ≡ place_of buffer.now.outline.text place.at }
    ensures { IfOk result (λ _. visited_seen visited.new
        ≡ with_more (visited_seen visited.old) (a_message (message_in (buffer_seen buffer.now) place.at text))) }
{
    let message = message_in(buffer, place, text)?;
    put_message(visited, message)
}

// What the visit of a reply found, with the edit of its use in the place of its own edits.
#[tactic(auto, unfolding(crate::specs::Visited::with_more, crate::specs::Visited::visited_of))]
fn put_spliced(
    alloc: Global,
    ask: &Ask,
    outline: &Outline,
    inner: Visited,
    visited: &mut Visited,
) -> Result<(), AllocError>
    requires { length outline.now.text < 2 ^ 32 }
    ensures { (table : Look) (found : Found) → visited_seen inner ≡ visited_of table found → IfOk result (λ _. visited_seen visited.new
        ≡ with_more (visited_seen visited.old) (visited_of table (spliced ask.now (outline_of outline.now) found))) }
{
    let Visited {
        mut asked,
        mut missing,
        mut messages,
        edits,
    } = inner;
    let edit = edit_of(alloc, ask, outline, edits)?;
    visited.asked.append(&mut asked)?;
    visited.missing.append(&mut missing)?;
    visited.messages.append(&mut messages)?;
    put_edit(visited, edit)
}

// The buffer of a reply that was read.
#[tactic(auto, using(crate::proofs::Replies::reply_is_sound, crate::proofs::Accepted::sound_is_short))]
fn read_buffer(
    alloc: Global,
    macros: &MacroTable,
    buffer: &Buffer,
    ask: &Ask,
    reply: &[u8],
    outline: Outline,
) -> Result<Buffer, AllocError>
    requires { reading_of (reading_for macros.now (buffer_seen buffer.now) ask.now) reply.now ≡ Ok (outline_of outline) }
    ensures buffer { IfOk result (λ inner. buffer_seen inner ≡ reply_buffer (buffer_seen buffer.now) ask.now (outline_of outline)) }
    ensures sound { IfOk result (λ inner. IsSound (buffer_seen inner)) }
    ensures short { IfOk result (λ inner. length inner.outline.text < 2 ^ 32 - 1) }
{
    let inner = reply_buffer(alloc, buffer, ask, outline)?;
    Ok(inner)
}

// The sites of a buffer, the texts of which are UTF-8.
#[tactic(auto, using(crate::proofs::SitesReadable::sites_readable))]
fn readable_sites(
    alloc: Global,
    macros: &MacroTable,
    plugins: &[Plugin],
    buffer: &Buffer,
) -> Result<Vec<Site>, AllocError>
    requires readable { All IsDeclReadable macros.now }
    requires sound { IsSound (buffer_seen buffer.now) }
    ensures sites { IfOk result (λ sites. sites.items ≡ buffer_sites macros.now plugins.now (buffer_seen buffer.now)) }
    ensures asked { IfOk result (λ sites. All (IsSiteReadable buffer.now.outline.text) sites.items) }
{
    let sites = buffer_sites(alloc, macros, plugins, buffer)?;
    Ok(sites)
}

#[cycle(visiting)]
#[tactic(auto, using(crate::proofs::NearReplies::reading_is_near))]
fn put_reply(
    alloc: Global,
    macros: &MacroTable,
    plugins: &[Plugin],
    table: &Table,
    depth: usize,
    buffer: &Buffer,
    ask: &Ask,
    reply: &[u8],
    visited: &mut Visited,
) -> Result<(), AllocError>
    requires readable { All IsDeclReadable macros.now }
    ensures { IfOk result (λ _. visited_seen visited.new ≡ with_more (visited_seen visited.old) (visited_of (look table.now)
        (by_reading (visit_to macros.now plugins.now (look table.now) depth) (buffer_seen buffer.now) ask.now reply.now
        (reading_of (reading_for macros.now (buffer_seen buffer.now) ask.now) reply.now)))) }
{
    let reading = reading_for(alloc, macros, buffer, ask)?;
    match read_result(alloc, &reading, reply) {
        Ok(outline) => {
            let inner_buffer = read_buffer(alloc, macros, buffer, ask, reply, outline)?;
            let inner = visit_to(alloc, macros, plugins, table, depth, &inner_buffer)?;
            put_spliced(alloc, ask, &inner_buffer.outline, inner, visited)?;
            Ok(())
        }
        Err(Refusal::Memory) => Err(AllocError),
        Err(Refusal::Fault(fault)) => {
            put_refusal(alloc, buffer, ask, reply, fault, visited)?;
            Ok(())
        }
    }
}

#[cycle(visiting)]
#[tactic(auto, unfolding(crate::specs::Requests::place_of))]
fn put_outcome(
    alloc: Global,
    macros: &MacroTable,
    plugins: &[Plugin],
    table: &Table,
    depth: usize,
    buffer: &Buffer,
    place: Place,
    ask: &Ask,
    outcome: &Outcome,
    visited: &mut Visited,
) -> Result<(), AllocError>
    requires readable { All IsDeclReadable macros.now }
    requires place { place ≡ place_of buffer.now.outline.text ask.now.macro_use.span.start }
    ensures { IfOk result (λ _. visited_seen visited.new ≡ with_more (visited_seen visited.old) (visited_of (look table.now)
        (by_outcome (visit_to macros.now plugins.now (look table.now) depth) macros.now (buffer_seen buffer.now) ask.now (Some outcome.now)))) }
{
    match outcome {
        Outcome::Failed(_) => {
            let module_name = ask.target.module.clone()?;
            put_at_use(buffer, place, MessageText::NoReply { module_name }, visited)?;
            Ok(())
        }
        Outcome::Reply { text, diagnostics } => {
            let (text, diagnostics) = (text.as_ref(), diagnostics.items());
            put_replied(
                alloc,
                macros,
                plugins,
                table,
                depth,
                buffer,
                place,
                ask,
                text,
                diagnostics,
                visited,
            )?;
            Ok(())
        }
    }
}

// A reply by its text; one with diagnostics isn't put in yet.
#[cycle(visiting)]
#[tactic(auto, unfolding(crate::specs::Requests::place_of))]
fn put_replied(
    alloc: Global,
    macros: &MacroTable,
    plugins: &[Plugin],
    table: &Table,
    depth: usize,
    buffer: &Buffer,
    place: Place,
    ask: &Ask,
    text: Option<&Text>,
    diagnostics: &[Diagnostic],
    visited: &mut Visited,
) -> Result<(), AllocError>
    requires readable { All IsDeclReadable macros.now }
    requires place { place ≡ place_of buffer.now.outline.text ask.now.macro_use.span.start }
    ensures { IfOk result (λ _. visited_seen visited.new ≡ with_more (visited_seen visited.old) (visited_of (look table.now)
        (by_reply (visit_to macros.now plugins.now (look table.now) depth) macros.now (buffer_seen buffer.now) ask.now (option_copied text.entry) diagnostics.now))) }
{
    if diagnostics.len() > 0 {
        put_at_use(buffer, place, MessageText::NotBuilt, visited)?;
        return Ok(());
    }
    match text {
        Some(reply) => {
            let reply = reply.bytes();
            put_reply(
                alloc, macros, plugins, table, depth, buffer, ask, reply, visited,
            )?;
            Ok(())
        }
        None => {
            let macro_name = ask.target.name.clone()?;
            put_at_use(buffer, place, MessageText::NoText { macro_name }, visited)?;
            Ok(())
        }
    }
}

#[cycle(visiting)]
#[tactic(auto, unfolding(crate::specs::Requests::request_of))]
fn put_ask(
    alloc: Global,
    macros: &MacroTable,
    plugins: &[Plugin],
    table: &Table,
    depth: usize,
    buffer: &Buffer,
    place: Place,
    ask: &Ask,
    visited: &mut Visited,
) -> Result<(), AllocError>
    requires readable { All IsDeclReadable macros.now }
    requires asked { IsAskReadable buffer.now.outline.text ask.now }
    requires place { place ≡ place_of buffer.now.outline.text ask.now.macro_use.span.start }
    ensures { IfOk result (λ _. visited_seen visited.new ≡ with_more (visited_seen visited.old) (visited_of (look table.now)
        (given (visit_to macros.now plugins.now (look table.now) depth) macros.now (look table.now) (buffer_seen buffer.now) (site.Asks ask.now)))) }
{
    let key = key_of(&buffer.key, ask)?;
    match table.get(&key) {
        Some(outcome) => {
            put_asked(visited, ask.stands_for.role)?;
            put_outcome(
                alloc, macros, plugins, table, depth, buffer, place, ask, outcome, visited,
            )?;
            Ok(())
        }
        None => {
            let request = request_of(alloc, buffer, place, ask)?;
            put_missing(visited, request)?;
            Ok(())
        }
    }
}

#[cycle(visiting)]
#[tactic(auto, unfolding(crate::specs::Requests::place_of))]
fn put_site(
    alloc: Global,
    macros: &MacroTable,
    plugins: &[Plugin],
    table: &Table,
    depth: usize,
    buffer: &Buffer,
    place: Place,
    site: &Site,
    visited: &mut Visited,
) -> Result<(), AllocError>
    requires readable { All IsDeclReadable macros.now }
    requires asked { IsSiteReadable buffer.now.outline.text site.now }
    requires place { place ≡ place_of buffer.now.outline.text (offset_of site.now) }
    ensures { IfOk result (λ _. visited_seen visited.new ≡ with_more (visited_seen visited.old) (visited_of (look table.now)
        (given (visit_to macros.now plugins.now (look table.now) depth) macros.now (look table.now) (buffer_seen buffer.now) site.now))) }
{
    match site {
        Site::Asks(ask) => {
            put_ask(
                alloc, macros, plugins, table, depth, buffer, place, ask, visited,
            )?;
            Ok(())
        }
        Site::Fault(fault) => {
            let name = fault.name.clone()?;
            let kind = fault.kind;
            put_at_use(buffer, place, MessageText::Site { kind, name }, visited)?;
            Ok(())
        }
        Site::NotBuilt(_) => {
            put_at_use(buffer, place, MessageText::NotBuilt, visited)?;
            Ok(())
        }
        Site::Attribute(span) => {
            let space = Vec::from_slice(alloc, b" ")?;
            put_edit(visited, edit_from(span.start, span.end, space))?;
            Ok(())
        }
    }
}

#[cycle(visiting)]
#[tactic(auto, unfolding(crate::specs::Requests::place_of))]
fn visit_sites(
    alloc: Global,
    macros: &MacroTable,
    plugins: &[Plugin],
    table: &Table,
    depth: usize,
    buffer: &Buffer,
    sites: &[Site],
) -> Result<Visited, AllocError>
    requires readable { All IsDeclReadable macros.now }
    requires asked { All (IsSiteReadable buffer.now.outline.text) sites.now }
    requires short { length buffer.now.outline.text < 2 ^ 32 - 1 }
    ensures { IfOk result (λ visited. visited_seen visited ≡ visited_of (look table.now)
        (over (given (visit_to macros.now plugins.now (look table.now) depth) macros.now (look table.now) (buffer_seen buffer.now)) sites.now)) }
{
    let mut visited = nothing_found(alloc);
    let mut place = FIRST_PLACE;
    'sites: for site in sites {
        place = place_from(buffer.outline.text.bytes(), place, offset_of(site));
        put_site(
            alloc,
            macros,
            plugins,
            table,
            depth,
            buffer,
            place,
            site,
            &mut visited,
        )?;
    }
    Ok(visited)
}

// The visit of a buffer down to so many levels of replies.
#[cycle(visiting)]
#[tactic(auto, unfolding(crate::specs::Visit::visit_to))]
fn visit_to(
    alloc: Global,
    macros: &MacroTable,
    plugins: &[Plugin],
    table: &Table,
    depth: usize,
    buffer: &Buffer,
) -> Result<Visited, AllocError>
    requires readable { All IsDeclReadable macros.now }
    requires sound { IsSound (buffer_seen buffer.now) }
    ensures { IfOk result (λ visited. visited_seen visited ≡ visited_of (look table.now)
        (visit_to macros.now plugins.now (look table.now) depth (buffer_seen buffer.now))) }
{
    if depth == 0 {
        return Ok(nothing_found(alloc));
    }
    let sites = readable_sites(alloc, macros, plugins, buffer)?;
    let visited = visit_sites(alloc, macros, plugins, table, depth - 1, buffer, &sites)?;
    Ok(visited)
}

fn is_same(pair: &Ancestor, other: &Ancestor) -> bool
    ensures { result ≡ same_pair pair.now other.now }
{
    pair.macro_name.bytes() == other.macro_name.bytes() && pair.role == other.role
}

fn is_among(pair: &Ancestor, ancestors: &[Ancestor]) -> bool
    ensures { result ≡ is_among pair.now ancestors.now }
{
    ancestors.iter().any(|other| is_same(pair, other))
}

fn put_pairs(declared: &MacroDecl, pairs: &mut Vec<Ancestor>) -> Result<(), AllocError>
    ensures { IfOk result (λ _. pairs.new.items ≡ pairs.old.items ++ pairs_in declared.now) }
{
    'roles: for own in declared.roles.items() {
        pairs.push(Ancestor {
            macro_name: declared.name.clone()?,
            role: own.role,
        })?;
    }
    Ok(())
}

// Each macro with each of its roles.
fn pairs_of(alloc: Global, macros: &MacroTable) -> Result<Vec<Ancestor>, AllocError>
    ensures { IfOk result (λ pairs. pairs.items ≡ pairs_of macros.now) }
{
    let mut pairs = Vec::new(alloc);
    'macros: for index in 0..usize::MAX {
        let Some(declared) = macros.at(index) else {
            return Ok(pairs);
        };
        put_pairs(declared, &mut pairs)?;
    }
    Err(AllocError)
}

// How many of the pairs are not among the ancestors.
fn count_free(pairs: &[Ancestor], ancestors: &[Ancestor]) -> usize
    ensures count { result ≡ count_by (λ pair. not (is_among pair ancestors.now)) pairs.now }
{
    pairs
        .iter()
        .filter(|pair| !is_among(pair, ancestors))
        .count()
}

/// The visit of a buffer and of all replies in it.
#[tactic(auto, unfolding(crate::specs::Visit::visit))]
pub fn visit(
    alloc: Global,
    macros: &MacroTable,
    plugins: &[Plugin],
    table: &Table,
    buffer: &Buffer,
) -> Result<Visited, AllocError>
    requires readable { All IsDeclReadable macros.now }
    requires sound { IsSound (buffer_seen buffer.now) }
    ensures { IfOk result (λ visited. visited_seen visited ≡ visited_of (look table.now) (visit macros.now plugins.now (look table.now) (buffer_seen buffer.now))) }
{
    let pairs = pairs_of(alloc, macros)?;
    let free = count_free(&pairs, buffer.ancestors.items());
    let visited = visit_to(alloc, macros, plugins, table, free + 1, buffer)?;
    Ok(visited)
}
