// From payloads to messages, or the first reason against.
mod case;
mod check;
mod diagnostics;
mod fields;
mod host;
mod parts;
mod plugin;

pub use host::read_host;
pub use plugin::read_plugin;
