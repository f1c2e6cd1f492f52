// The outline of a Swift text: its declarations with their parts, by their places in the text.
// A caller may rely on `Outline::print` giving the text, and on what contracts see of an outline being plain data.
// What outline a text has is the business of `decl_parser`.
#![tactic(auto)]

mod item;
mod outline;

pub use item::{Attr, Binding, Block, BlockShape, Further, FurtherParts, Item, Kind, MacroUse};
pub use outline::{Outline, Shape};
