// Asking what a source wants, round after round.
ghost use Rattle.std.specs.Prelude.{◌≡◌, [], ◌∷◌, None, List, IfOk, map};
ghost use Rattle.std.specs.List.{All, Contains};
ghost use Rattle.swift_base.specs.Outside.{StarterSeen};
ghost use Rattle.swift_base.specs.declared.plugins.Plugin.{Plugin};
ghost use Rattle.macro_decls.specs.Macros.{IsDeclReadable};
ghost use Rattle.macro_decls.specs.declared.table.MacroDecl.{MacroDecl};
ghost use Rattle.expansion_model.specs.Answer.{answer_of};
ghost use Rattle.expansion_model.specs.declared.answer.Answer.TheVariants as answers;
ghost use Rattle.expansion_model.specs.declared.answer.LimitKind.TheVariants as limits;
ghost use Rattle.expansion_model.specs.Buffers.{BufferSeen, IsSound, buffer_seen};
ghost use Rattle.expansion_model.specs.Table.{IsWithin, look};
ghost use Rattle.plugin_messages.specs.Writable.{IsRequestWritable};
ghost use Rattle.link_driver.specs.Driven as driven;
ghost use Rattle.link_driver.specs.Driven.{IsSpent, driver_seen};
ghost use Rattle.link_driver.specs.Links.{link_seen};
ghost use Rattle.link_driver.specs.Told.{HasTable, IsPut};
ghost use Rattle.expand_top.specs.Asking.{IsStartable, asking_of, command_for};
ghost use Rattle.expand_top.specs.UnderWay.{asked_with, HasAsked, IsAnswered, IsDecided, IsUnderWay};

use expansion_model::{
    Answer, Buffer, LimitKind, MOST_REQUESTS, Step, Table, expand_with, plugin_for,
    requests_are_writable,
};
use link_driver::{Asked, Driver, Ran, ask, finish, is_spent};
use macro_decls::MacroTable;
use plugin_messages::Request;
use std::alloc::{AllocError, Global};
use swift_base::{Plugin, Plugins, Starter};

/// The command of a module.
fn command_for<'a>(plugins: &'a [Plugin], module_name: &[u8]) -> &'a str
    requires { All IsStartable plugins.now }
    ensures { result.now ≡ command_for plugins.now module_name.now }
{
    let Some(plugin) = plugin_for(module_name, plugins) else {
        return "";
    };
    match str::from_utf8(plugin.command.bytes()) {
        Ok(command) => command,
        Err(_) => unreachable!(),
    }
}

// What was done so far, and the outcomes that came.
#[derive(Drop)]
struct UnderWay<W: Drop, R: Drop> {
    driver: Driver<W, R>,
    table: Table,
}

fn put_outcome<W: Drop, R: Drop>(
    table: Table,
    request: &Request,
    asked: Asked<W, R>,
) -> Result<UnderWay<W, R>, AllocError>
    ensures driver { IfOk result (λ next. next.driver ≡ asked.driver) }
    ensures table { IfOk result (λ next. IsPut (look table) request.now.key asked.outcome (look next.table)) }
{
    let mut table = table;
    let Asked { driver, outcome } = asked;
    match outcome {
        Some(outcome) => {
            table.put(request.key.clone()?, outcome)?;
            Ok(UnderWay { driver, table })
        }
        None => Ok(UnderWay { driver, table }),
    }
}

// Asks a request that has no outcome.
fn ask_one<P: Starter>(
    alloc: Global,
    way: UnderWay<P::Writer, P::Reader>,
    starter: &mut P,
    plugins: &[Plugin],
    request: &Request,
) -> Result<UnderWay<P::Writer, P::Reader>, AllocError>
    requires commands { All IsStartable plugins.now }
    requires writable { IsRequestWritable request.now }
    requires missing { look way.table request.now.key ≡ None }
    requires sound { driven.IsSound (driver_seen P.Writer.seen P.Reader.seen way.driver) }
    ensures sound { IfOk result (λ next. driven.IsSound (driver_seen P.Writer.seen P.Reader.seen next.driver)) }
    ensures wider { IfOk result (λ next. IsWithin (look way.table) (look next.table)) }
    ensures tells { HasTable (look way.table) (driver_seen P.Writer.seen P.Reader.seen way.driver)
        → IfOk result (λ next. HasTable (look next.table) (driver_seen P.Writer.seen P.Reader.seen next.driver)) }
    ensures decided { HasTable (look way.table) (driver_seen P.Writer.seen P.Reader.seen way.driver)
        → IfOk result (λ next. IsDecided (look next.table) (driver_seen P.Writer.seen P.Reader.seen next.driver) request.now) }
    ensures under_way { (macros : List MacroDecl) (source : BufferSeen) (before : StarterSeen)
        → IsUnderWay macros plugins.now source before (driver_seen P.Writer.seen P.Reader.seen way.driver) (look way.table) (P.seen starter.old)
        → (IsSpent (driver_seen P.Writer.seen P.Reader.seen way.driver) → ⊥) → Contains (asked_with macros plugins.now source (look way.table)) request.now
        → IfOk result (λ next. IsUnderWay macros plugins.now source before (driver_seen P.Writer.seen P.Reader.seen next.driver) (look next.table) (P.seen starter.new)) }
{
    let UnderWay { driver, table } = way;
    let command = command_for(plugins, request.target.module.bytes());
    let asked = ask(alloc, driver, starter, command, request)?;
    let next = put_outcome(table, request, asked)?;
    Ok(next)
}

// Asks a request that has no outcome, as long as anything is asked.
fn ask_next<P: Starter>(
    alloc: Global,
    way: UnderWay<P::Writer, P::Reader>,
    starter: &mut P,
    plugins: &[Plugin],
    request: &Request,
) -> Result<UnderWay<P::Writer, P::Reader>, AllocError>
    requires commands { All IsStartable plugins.now }
    requires writable { IsRequestWritable request.now }
    requires sound { driven.IsSound (driver_seen P.Writer.seen P.Reader.seen way.driver) }
    ensures sound { IfOk result (λ next. driven.IsSound (driver_seen P.Writer.seen P.Reader.seen next.driver)) }
    ensures wider { IfOk result (λ next. IsWithin (look way.table) (look next.table)) }
    ensures asked { HasTable (look way.table) (driver_seen P.Writer.seen P.Reader.seen way.driver)
        → IfOk result (λ next. HasAsked (request.now ∷ []) (driver_seen P.Writer.seen P.Reader.seen way.driver) (look next.table)
        (driver_seen P.Writer.seen P.Reader.seen next.driver)) }
    ensures under_way { (macros : List MacroDecl) (source : BufferSeen) (before : StarterSeen)
        → IsUnderWay macros plugins.now source before (driver_seen P.Writer.seen P.Reader.seen way.driver) (look way.table) (P.seen starter.old)
        → Contains (asked_with macros plugins.now source (look way.table)) request.now
        → IfOk result (λ next. IsUnderWay macros plugins.now source before (driver_seen P.Writer.seen P.Reader.seen next.driver) (look next.table) (P.seen starter.new)) }
{
    if is_spent(&way.driver) || way.table.get(&request.key).is_some() {
        return Ok(way);
    }
    let next = ask_one(alloc, way, starter, plugins, request)?;
    Ok(next)
}

// Asks those of the requests that have no outcome, as long as anything is asked.
fn ask_each<P: Starter>(
    alloc: Global,
    way: UnderWay<P::Writer, P::Reader>,
    starter: &mut P,
    plugins: &[Plugin],
    requests: &[Request],
) -> Result<UnderWay<P::Writer, P::Reader>, AllocError>
    requires commands { All IsStartable plugins.now }
    requires writable { All IsRequestWritable requests.now }
    requires sound { driven.IsSound (driver_seen P.Writer.seen P.Reader.seen way.driver) }
    ensures sound { IfOk result (λ next. driven.IsSound (driver_seen P.Writer.seen P.Reader.seen next.driver)) }
    ensures wider { IfOk result (λ next. IsWithin (look way.table) (look next.table)) }
    ensures asked { HasTable (look way.table) (driver_seen P.Writer.seen P.Reader.seen way.driver)
        → IfOk result (λ next. HasAsked requests.now (driver_seen P.Writer.seen P.Reader.seen way.driver) (look next.table)
        (driver_seen P.Writer.seen P.Reader.seen next.driver)) }
    ensures under_way { (macros : List MacroDecl) (source : BufferSeen) (before : StarterSeen)
        → IsUnderWay macros plugins.now source before (driver_seen P.Writer.seen P.Reader.seen way.driver) (look way.table) (P.seen starter.old)
        → All (Contains (asked_with macros plugins.now source (look way.table))) requests.now
        → IfOk result (λ next. IsUnderWay macros plugins.now source before (driver_seen P.Writer.seen P.Reader.seen next.driver) (look next.table) (P.seen starter.new)) }
{
    let mut way = way;
    'requests: for request in requests {
        way = ask_next(alloc, way, starter, plugins, request)?;
    }
    Ok(way)
}

// The answer for a source, and what was asked for it.
#[derive(Drop)]
pub struct Answered<W: Drop, R: Drop> {
    pub ran: Ran<W, R>,
    pub answer: Answer,
}

fn finished<P: Starter>(
    way: UnderWay<P::Writer, P::Reader>,
    answer: Answer,
) -> Result<Answered<P::Writer, P::Reader>, AllocError>
    requires { driven.IsSound (driver_seen P.Writer.seen P.Reader.seen way.driver) }
    ensures { (macros : List MacroDecl) (plugins : List Plugin) (source : BufferSeen) (before after : StarterSeen)
        → IsUnderWay macros plugins source before (driver_seen P.Writer.seen P.Reader.seen way.driver) (look way.table) after
        → answer ≡ answer_of macros plugins (look way.table) source
        → (answer ≡ answers.Limit limits.Bytes → IsSpent (driver_seen P.Writer.seen P.Reader.seen way.driver))
        → IfOk result (λ f. IsAnswered macros plugins source (asking_of (map (link_seen P.Writer.seen P.Reader.seen) f.ran.links.items) f.ran.unstarted.items before after) f.answer) }
{
    let ran = finish(way.driver)?;
    Ok(Answered { ran, answer })
}

fn started<P: Starter>(alloc: Global) -> UnderWay<P::Writer, P::Reader>
    ensures sound { driven.IsSound (driver_seen P.Writer.seen P.Reader.seen result.driver) }
    ensures under_way { (macros : List MacroDecl) (plugins : List Plugin) (source : BufferSeen) (before : StarterSeen)
        → IsUnderWay macros plugins source before (driver_seen P.Writer.seen P.Reader.seen result.driver) (look result.table) before }
{
    UnderWay {
        driver: Driver::new(alloc),
        table: Table::new(alloc),
    }
}

// One round: what has no outcome is asked.
fn ask_round<P: Starter>(
    alloc: Global,
    way: UnderWay<P::Writer, P::Reader>,
    starter: &mut P,
    plugins: &[Plugin],
    first: &Request,
    others: &[Request],
) -> Result<UnderWay<P::Writer, P::Reader>, AllocError>
    requires commands { All IsStartable plugins.now }
    requires first { IsRequestWritable first.now }
    requires others { All IsRequestWritable others.now }
    requires sound { driven.IsSound (driver_seen P.Writer.seen P.Reader.seen way.driver) }
    ensures sound { IfOk result (λ next. driven.IsSound (driver_seen P.Writer.seen P.Reader.seen next.driver)) }
    ensures wider { IfOk result (λ next. IsWithin (look way.table) (look next.table)) }
    ensures asked { HasTable (look way.table) (driver_seen P.Writer.seen P.Reader.seen way.driver)
        → IfOk result (λ next. HasAsked (first.now ∷ others.now) (driver_seen P.Writer.seen P.Reader.seen way.driver) (look next.table)
        (driver_seen P.Writer.seen P.Reader.seen next.driver)) }
    ensures under_way { (macros : List MacroDecl) (source : BufferSeen) (before : StarterSeen)
        → IsUnderWay macros plugins.now source before (driver_seen P.Writer.seen P.Reader.seen way.driver) (look way.table) (P.seen starter.old)
        → Contains (asked_with macros plugins.now source (look way.table)) first.now
        → All (Contains (asked_with macros plugins.now source (look way.table))) others.now
        → IfOk result (λ next. IsUnderWay macros plugins.now source before (driver_seen P.Writer.seen P.Reader.seen next.driver) (look next.table) (P.seen starter.new)) }
{
    let next = ask_next(alloc, way, starter, plugins, first)?;
    let last = ask_each(alloc, next, starter, plugins, others)?;
    Ok(last)
}

/// The answer for a source: what has no outcome is asked, round after round, until there is nothing more to ask, or
/// until the processes gave more bytes than are read.
pub fn expand_source<P: Starter>(
    alloc: Global,
    starter: &mut P,
    plugins: &Plugins,
    source: &Buffer,
    macros: &MacroTable,
) -> Result<Answered<P::Writer, P::Reader>, AllocError>
    requires sound { IsSound (buffer_seen source.now) }
    requires readable { All IsDeclReadable macros.now }
    requires commands { All IsStartable plugins.now }
    ensures { IfOk result (λ f. IsAnswered macros.now plugins.now (buffer_seen source.now)
        (asking_of (map (link_seen P.Writer.seen P.Reader.seen) f.ran.links.items) f.ran.unstarted.items (P.seen starter.old) (P.seen starter.new)) f.answer) }
{
    requests_are_writable();
    let mut way = started::<P>(alloc);
    'rounds: for _ in 0..=MOST_REQUESTS {
        match expand_with(alloc, source, macros, plugins, &way.table)? {
            Step::Done(answer) => return finished::<P>(way, answer),
            Step::Missing(first, others) => {
                if is_spent(&way.driver) {
                    return finished::<P>(way, Answer::Limit(LimitKind::Bytes));
                }
                way = ask_round(alloc, way, starter, plugins.list(), &first, &others)?;
            }
        }
    }
    unreachable!()
}
