// Programs as plug-ins: their input as a writer, their output as a reader.
ghost use Rattle.std.specs.Prelude.{◌≡◌, None, IfOk};

use crate::count::raise;
use crate::sink::StdSink;
use crate::source::StdSource;
use std::alloc::Global;
use std::io;
use std::process::{Child, ChildStdin, ChildStdout, Command, Processes, Stdio, SystemProcess};
use swift_base::{ReadFault, Source, StartFault, Starter};

/// Starts a program without arguments, its standard input and output as pipes; its errors go where ours go.
#[derive(Drop)]
pub struct ChildStarter<R: Processes<Started = SystemProcess> + Drop> {
    rt: R,
    faults: u64,
}

/// A child's output, and the child, which is waited for when this is dropped: a child that hasn't ended its
/// output by then is ended first.
pub struct ChildSource {
    output: StdSource<ChildStdout>,
    child: Child,
}

impl Drop for ChildSource {
    fn drop(self) {
        let ChildSource { output, mut child } = self;
        if !output.has_ended() {
            let _ = child.kill();
        }
        drop(output);
        let _ = child.wait();
    }
}

impl Source for ChildSource {
    ghost seen = { λ s. record { faults = s.output.faults; ends = s.output.ends; left = None } };

    fn read(&mut self, room: &mut [u8]) -> Result<usize, ReadFault> {
        self.output.read(room)
    }
}

impl<R: Processes<Started = SystemProcess> + Drop> ChildStarter<R> {
    pub fn new(rt: R) -> ChildStarter<R>
        ensures faults { result.faults ≡ 0 }
        ensures rt { result.rt ≡ rt }
    {
        ChildStarter { rt, faults: 0 }
    }
}

fn spawn<R: Processes<Started = SystemProcess>>(
    alloc: Global,
    rt: &R,
    command: &str,
) -> io::Result<(ChildStdin, ChildSource)>
    ensures { IfOk result (λ p. (p.1.output.faults ≡ 0) × (p.1.output.ends ≡ 0)) }
{
    let mut program = Command::new(alloc, command)?;
    program.stdin(Stdio::piped()).stdout(Stdio::piped());
    let mut child = program.spawn(rt)?;
    match (child.stdin.take(), child.stdout.take()) {
        (Some(input), Some(output)) => Ok((
            input,
            ChildSource {
                output: StdSource::new(output),
                child,
            },
        )),
        _ => Err(io::Error::from(io::ErrorKind::Other)),
    }
}

impl<R: Processes<Started = SystemProcess> + Drop> Starter for ChildStarter<R> {
    type Writer = StdSink<ChildStdin>;

    type Reader = ChildSource;

    ghost seen = { λ s. record { faults = s.faults; links = None; commands = None } };

    fn start(
        &mut self,
        alloc: Global,
        command: &str,
    ) -> Result<(StdSink<ChildStdin>, ChildSource), StartFault> {
        match spawn(alloc, &self.rt, command) {
            Ok((input, output)) => Ok((StdSink::new(input), output)),
            Err(error) if error.kind() == io::ErrorKind::OutOfMemory => Err(StartFault::Memory),
            Err(_) => {
                self.faults = raise(self.faults);
                Err(StartFault::Failed)
            }
        }
    }

    fn faults(&self) -> u64 {
        self.faults
    }
}
