// What a run hands back.
use link_driver::{Closed, Unstarted};
use swift_base::Text;
use swift_tree::Outline;

/// How a file was read.
#[derive(Drop)]
pub enum SourceRead {
    /// No command asked for it.
    Nothing,
    Failed,
    /// It has more bytes than are read.
    Larger,
    Bytes(Text),
}

/// How the file of macros and the source were read.
#[derive(Drop)]
pub struct Inputs {
    pub macros: SourceRead,
    pub source: SourceRead,
}

/// A run as it ended: its status, its files, the outline of an accepted source, the processes in the order of their
/// starts, and the starts that failed.
#[derive(Drop)]
pub struct Ended<W: Drop, R: Drop> {
    pub status: u8,
    pub read: Inputs,
    pub source: Option<Outline>,
    pub links: Vec<Closed<W, R>>,
    pub unstarted: Vec<Unstarted>,
}
