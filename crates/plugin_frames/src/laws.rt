//! What holds of frames, whoever reads them: a call brings the law in as a fact.

ghost use Rattle.plugin_frames.specs.Laws.{EachListIsFrames, OneReading, FramesGoOn, LengthStays, RestIsUnfinished, PiecesDoNotMatter, NoFrames, FrameComesFirst, FramesComeFirst, FramesAreRead, FramesAlone};

/// Each byte list has exactly one reading as frames.
pub fn one_reading()
    ensures some { EachListIsFrames }
    ensures one { OneReading }
{}

/// A stream is read on from the rest of what came before.
pub fn frames_go_on()
    ensures rest { FramesGoOn }
    ensures length { LengthStays }
    ensures unfinished { RestIsUnfinished }
    ensures pieces { PiecesDoNotMatter }
{}

/// What was written as frames is read as the payloads.
pub fn frames_are_read()
    ensures none { NoFrames }
    ensures first { FrameComesFirst }
    ensures several { FramesComeFirst }
    ensures only { FramesAreRead }
    ensures alone { FramesAlone }
{}
