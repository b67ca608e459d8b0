// Where a process meets an instruction.
ghost use Rattle.std.specs.Prelude.{◌+◌, ◌≤◌, length};
ghost use Rattle.stack.specs.Ready.{Ready};

// A process as an instruction finds it: its program, its stack below SP, and where its loop begins.
#[derive(Clone, Copy)]
pub struct Running<'a> {
    pub code: &'a [u8],
    pub stack: &'a [u8],
    pub loopstart: u16,
    pub ghost ready: { Ready code.now stack.now },
}

// The process, and the place of the instruction's byte in its program.
#[derive(Clone, Copy)]
pub struct Frame<'a> {
    pub process: Running<'a>,
    pub at: usize,
    pub ghost inside: { at + 1 ≤ length process.code.now },
}
