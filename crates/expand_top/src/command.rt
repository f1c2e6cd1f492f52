// The words of the command line.
ghost use Rattle.std.specs.Prelude.{◌≡◌, ◌==◌, ◌∷◌, [], Some, None, IfNone, IfOk, IfSome, position, string_bytes, option_map, map};
ghost use Rattle.std.specs.List.{All, list_all};
ghost use Rattle.expand_top.specs.Asking.{IsStartable};
ghost use Rattle.expand_top.specs.declared.command.Command.TheVariants.{Expand};
ghost use Rattle.expand_top.specs.Command.{plugin_of, plugins_of, begins_module, continues_module, is_module, is_plain, source_words, macros_words, option_words, named_in, command_named, command_of, named_seen};

use std::alloc::{AllocError, Global};
use swift_base::{Plugin, Plugins, Text};

/// What the words ask for.
#[derive(Drop)]
pub enum Command {
    /// Expand the file `source`, with the macros of the file `macros` too, by the plug-ins of these modules.
    Expand {
        source: Text,
        macros: Option<Text>,
        plugins: Plugins,
    },
}

fn is_module(word: &[u8]) -> bool
    ensures { result ≡ is_module word.now }
{
    match word {
        [first, more @ ..] if begins_module(*first) => all_continue(more),
        _ => false,
    }
}

fn all_continue(more: &[u8]) -> bool
    ensures { result ≡ list_all continues_module more.now }
{
    more.iter().all(|b| continues_module(*b))
}

fn begins_module(byte: u8) -> bool
    ensures { result ≡ begins_module byte }
{
    byte.is_ascii_alphabetic() || byte == b'_'
}

fn continues_module(byte: u8) -> bool
    ensures { result ≡ continues_module byte }
{
    byte.is_ascii_alphanumeric() || byte == b'_'
}

fn is_plain(word: &[u8]) -> bool
    ensures { result ≡ is_plain word.now }
{
    match word {
        [] => false,
        [_] => true,
        [first, ..] => *first != b'-',
    }
}

// MODULE=COMMAND, split at its first `=`.
fn plugin_of(alloc: Global, word: &str) -> Result<Option<Plugin>, AllocError>
    ensures plugin { IfOk result (λ plugin. plugin ≡ plugin_of word.now) }
    ensures startable { IfOk result (λ plugin. IfSome plugin IsStartable) }
{
    let Some((module, command)) = word.split_once('=') else {
        return Ok(None);
    };
    if command.is_empty() || !is_module(module.as_bytes()) {
        return Ok(None);
    }
    let module = Text::from_bytes(alloc, module.as_bytes())?;
    let command = Text::from_bytes(alloc, command.as_bytes())?;
    Ok(Some(Plugin { module, command }))
}

fn no_plugins(alloc: Global) -> Plugins
    ensures plugins { result ≡ [] }
    ensures startable { All IsStartable result }
{
    Plugins::new(Vec::new(alloc))
}

fn one_plugin(alloc: Global, plugin: Plugin) -> Result<Plugins, AllocError>
    requires { IsStartable plugin }
    ensures plugins { IfOk result (λ plugins. plugins ≡ plugin ∷ []) }
    ensures startable { IfOk result (All IsStartable) }
{
    let mut list = Vec::new(alloc);
    list.push(plugin)?;
    Ok(Plugins::new(list))
}

fn plugins_of(alloc: Global, word: Option<&String>) -> Result<Option<Plugins>, AllocError>
    ensures plugins { IfOk result (λ plugins. plugins ≡ plugins_of (option_map (λ w. string_bytes w.now) word.entry)) }
    ensures startable { IfOk result (λ plugins. IfSome plugins (All IsStartable)) }
{
    let Some(word) = word else {
        return Ok(Some(no_plugins(alloc)));
    };
    match plugin_of(alloc, word.as_str())? {
        Some(plugin) => Ok(Some(one_plugin(alloc, plugin)?)),
        None => Ok(None),
    }
}

/// The words of a command by what they name.
#[derive(Clone, Copy)]
pub struct Named<'a> {
    pub macros: Option<&'a String>,
    pub source: &'a String,
    pub plugin: Option<&'a String>,
}

fn source_words<'a>(macros: Option<&'a String>, words: &'a [String]) -> Option<Named<'a>>
    ensures { option_map named_seen result ≡ source_words (option_map (λ w. string_bytes w.now) macros.entry) (map string_bytes words.now) }
{
    let (source, plugin) = match words {
        [source] => (source, None),
        [source, plugin] => (source, Some(plugin)),
        _ => return None,
    };
    if !is_plain(source.as_bytes()) {
        return None;
    }
    Some(Named {
        macros,
        source,
        plugin,
    })
}

fn macros_words(words: &[String]) -> Option<Named<'_>>
    ensures { option_map named_seen result ≡ macros_words (map string_bytes words.now) }
{
    let (file, words) = words.split_first()?;
    if !is_plain(file.as_bytes()) {
        return None;
    }
    source_words(Some(file), words)
}

fn option_words(words: &[String]) -> Option<Named<'_>>
    ensures { option_map named_seen result ≡ option_words (map string_bytes words.now) }
{
    let (first, others) = words.split_first()?;
    if first.as_str() == "--macros" {
        return macros_words(others);
    }
    source_words(None, words)
}

fn verb_words(words: &[String]) -> Option<Named<'_>>
    ensures { option_map named_seen result ≡ named_in (map string_bytes words.now) }
{
    let (verb, words) = words.split_first()?;
    if verb.as_str() != "expand" {
        return None;
    }
    option_words(words)
}

/// What the words `expand [--macros FILE] SOURCE [MODULE=COMMAND]` name.
pub fn named_in(words: &[String]) -> Option<Named<'_>>
    ensures none { IfNone result (command_of (map string_bytes words.now) ≡ None) }
    ensures some { IfSome result (λ named. command_of (map string_bytes words.now) ≡ command_named (named_seen named)) }
{
    verb_words(words)
}

/// The plug-ins that a command names, where its word is one.
pub fn named_plugins(alloc: Global, named: Named<'_>) -> Result<Option<Plugins>, AllocError>
    ensures plugins { IfOk result (λ plugins. command_named (named_seen named.entry)
        ≡ option_map (Expand (named_seen named.entry).source (named_seen named.entry).macros) plugins) }
    ensures startable { IfOk result (λ plugins. IfSome plugins (All IsStartable)) }
{
    plugins_of(alloc, named.plugin)
}
