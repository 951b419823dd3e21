//! Scripts run by the library's `run` alone: on a machine that is no segment, and on a segment whose writer fails.
ghost use Rattle.std.specs.Prelude.{◌≡◌, ◌+◌, ◌/◌, ◌%◌, ◌==◌, ◌∷◌, [], ℕ, false, min, length, take};
ghost use Rattle.std.proofs.Common.{ap, arith, length-take};
ghost use Rattle.segment_scripts.specs.Refusing.{was_refused};

use memory_devices::{EndBehaviour, MemorySink, MemorySource};
use raw_region::write_all;
use segment_cli::{Answered, Machine, RunFault, Scratch, run};
use std::alloc::{AllocError, Global};
use zaluxhoni::{DeviceFault, Mode, RawRegion, Segment, Sink};

/// A machine that counts the lines, and returns the count and the length of each, as far as 4098. It refuses those that
/// are so long.
#[derive(Drop)]
struct Lengths {
    count: u8,
}

impl Machine for Lengths {
    ghost RunState = { ℕ };

    ghost respond = { λ count line.
        let len = min (length line) 4098 in
        (count ∷ len / 256 ∷ len % 256 ∷ [], (count + 1) % 256) };

    ghost refuses = { λ count line. min (length line) 4098 == 4098 };

    ghost is_idle = { λ count line. false };

    ghost stands = { λ machine count. machine.count ≡ count };

    #[tactic(auto, using(crate::proofs::Told::writes_ok, crate::proofs::Told::writes_err))]
    fn answer<W: Sink>(
        &mut self,
        _scratch: &mut Scratch,
        line: &[u8],
        out: &mut W,
    ) -> Result<Answered, DeviceFault> {
        let len = line.len().min(4098);
        let answer = [self.count, (len / 256) as u8, (len % 256) as u8];
        self.count = self.count.wrapping_add(1);
        let told = told_of(len);
        match write_all(out, &answer) {
            Ok(()) => Ok(told),
            Err(fault) => Err(fault),
        }
    }

    ghost long_lines = { λ count line long.
        let same : min (length line) 4098 ≡ min (length (take 4098 line)) 4098 =
        Prim.omega (arith, length-take 4098 line) in
        ap (λ (len : ℕ). (count ∷ len / 256 ∷ len % 256 ∷ [], (count + 1) % 256)) same };

    ghost long_refusals = { λ count line long.
        let same : min (length line) 4098 ≡ min (length (take 4098 line)) 4098 =
        Prim.omega (arith, length-take 4098 line) in
        ap (λ (len : ℕ). len == 4098) same };
}

/// Tells what becomes of a line of `len` bytes.
fn told_of(len: usize) -> Answered
    ensures { was_refused result ≡ (len == 4098) }
{
    if len == 4098 {
        Answered::Refused
    } else {
        Answered::Done
    }
}

const SCRIPT: &[u8] = b"ab\n\ncde\nf";

/// A script for a segment of 1024 bytes.
const COMMANDS: &[u8] = b"size\nconstruct i64 - 5\nfree\n";

const ANSWERS: [u8; 12] = [0, 0, 2, 1, 0, 0, 2, 0, 3, 3, 0, 1];

/// How many runs there were, and how many of them came out otherwise than is wanted.
#[derive(Clone, Copy)]
pub struct Tally {
    pub runs: u64,
    pub wrong: u64,
}

impl Tally {
    fn count(&mut self, is_right: bool) {
        self.runs = self.runs.saturating_add(1);
        if !is_right {
            self.wrong = self.wrong.saturating_add(1);
        }
    }

    /// Runs a script on the machine, read in pieces of `piece` bytes: what comes of it, how many lines are executed,
    /// and the answers.
    fn reads(
        &mut self,
        alloc: Global,
        script: &[u8],
        piece: usize,
        last: EndBehaviour,
        answers: &[u8],
    ) -> Result<(), AllocError> {
        let mut out = MemorySink::new(alloc, 64, 5, EndBehaviour::Fails)?;
        let wanted = match last {
            EndBehaviour::Ends => Ok(()),
            EndBehaviour::Fails => Err(RunFault::ReadFault),
        };
        let mut machine = Lengths { count: 0 };
        let mut reader = MemorySource::new(script, piece, last);
        let result = run(&mut machine, &mut reader, &mut out);
        self.count(result == wanted && out.taken() == answers);
        Ok(())
    }

    /// Runs the script with a writer that takes `capacity` bytes: these go out, and `lines` lines are executed.
    fn writes(
        &mut self,
        alloc: Global,
        capacity: usize,
        last: EndBehaviour,
        lines: u8,
    ) -> Result<(), AllocError> {
        let mut out = MemorySink::new(alloc, capacity, 2, last)?;
        let mut machine = Lengths { count: 0 };
        let mut reader = MemorySource::new(SCRIPT, 4096, EndBehaviour::Ends);
        let result = run(&mut machine, &mut reader, &mut out);
        let is_told = result == Err(RunFault::WriteFault) && machine.count == lines;
        self.count(is_told && ANSWERS.get(..capacity) == Some(out.taken()));
        Ok(())
    }

    /// Runs a script on a segment with a writer that takes `capacity` bytes. These go out, and the line whose answer is
    /// cut is executed, so that `free` bytes are free.
    fn stops(&mut self, alloc: Global, capacity: usize, free: u64) -> Result<(), AllocError> {
        let mut out = MemorySink::new(alloc, capacity, 3, EndBehaviour::Fails)?;
        let mut segment = empty_segment(alloc)?;
        let mut script = MemorySource::new(COMMANDS, 4096, EndBehaviour::Ends);
        let result = run(&mut segment, &mut script, &mut out);
        let is_left = result == Err(RunFault::WriteFault) && segment.free() == free;
        drop(segment);
        self.count(is_left && b"1024\n#144\n832\n".get(..capacity) == Some(out.taken()));
        Ok(())
    }

    /// Reads the script in pieces.
    fn read_pieces(&mut self, alloc: Global) -> Result<(), AllocError> {
        for piece in [1, 7, 4096] {
            self.reads(alloc, SCRIPT, piece, EndBehaviour::Ends, &ANSWERS)?;
        }
        Ok(())
    }

    /// Reads no line, empty lines, and one that is too long.
    fn read_others(&mut self, alloc: Global) -> Result<(), AllocError> {
        self.reads(alloc, b"", 9, EndBehaviour::Ends, &[])?;
        self.reads(alloc, b"\n\n", 9, EndBehaviour::Ends, &[0, 0, 0, 1, 0, 0])?;
        let mut long = Vec::from_elem(alloc, b'x', 5000)?;
        long.extend_from_slice(b"\nab")?;
        self.reads(alloc, &long, 4096, EndBehaviour::Ends, &[0, 16, 2, 1, 0, 2])
    }

    /// Reads with a reader that fails after each of the first bytes: the lines are answered that ended before.
    fn fail_reading(&mut self, alloc: Global) -> Result<(), AllocError> {
        for (len, answered) in [0usize, 0, 0, 3, 6, 6, 6, 6, 9, 9].into_iter().enumerate() {
            let script = SCRIPT.get(..len).unwrap_or(SCRIPT);
            let answers = ANSWERS.get(..answered).unwrap_or(&[]);
            self.reads(alloc, script, 3, EndBehaviour::Fails, answers)?;
        }
        Ok(())
    }

    /// Writes the answers of the machine with too little room.
    fn fail_writing(&mut self, alloc: Global) -> Result<(), AllocError> {
        for (capacity, lines) in [(0, 1), (3, 2), (4, 2), (8, 3), (9, 4), (11, 4)] {
            self.writes(alloc, capacity, EndBehaviour::Fails, lines)?;
            self.writes(alloc, capacity, EndBehaviour::Ends, lines)?;
        }
        Ok(())
    }

    /// Writes the answers of a segment with too little room.
    fn stop_writing(&mut self, alloc: Global) -> Result<(), AllocError> {
        for (capacity, free) in [(0, 880), (4, 880), (5, 832), (9, 832), (13, 832)] {
            self.stops(alloc, capacity, free)?;
        }
        Ok(())
    }
}

/// Returns a segment of 1024 bytes without an object.
fn empty_segment(alloc: Global) -> Result<Segment, AllocError> {
    let Ok(region) = RawRegion::new(alloc, 1024) else {
        return Err(AllocError);
    };
    match Segment::create(region, 0, 1024, Mode::Write) {
        Ok(segment) => Ok(segment),
        Err(_) => Err(AllocError),
    }
}

/// Makes all runs.
pub fn make_runs(alloc: Global) -> Result<Tally, AllocError> {
    let mut tally = Tally { runs: 0, wrong: 0 };
    tally.read_pieces(alloc)?;
    tally.read_others(alloc)?;
    tally.fail_reading(alloc)?;
    tally.fail_writing(alloc)?;
    tally.stop_writing(alloc)?;
    Ok(tally)
}
