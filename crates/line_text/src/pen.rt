//! Writing a text to a sink.
ghost use Rattle.std.specs.Prelude.{◌≡◌, ◌≤◌, ◌<◌, ◌++◌, [], None, Some, length, IfOk, OnOk, OnErr, IfErr};
ghost use Rattle.outside.specs.Causes.{Counted, NeverFails};
ghost use Rattle.outside.specs.Streams.{appended, TookPrefix};
ghost use Rattle.line_text.specs.Pens.{Moved, Ended, IsNotFailed};

use crate::TextOut;
use itoa::Buffer;
use outside::{IoFault, Sink, put_all};
use pb_wire::{Blob, NoMemory};
use std::alloc::Global;
use std::marker::Model;

// How many bytes a pen holds back.
const ROOM: usize = 65_536;

/// Writes a text to a sink, in pieces of some 65,536 bytes. After a write that failed, or when out of memory, nothing more is
/// written.
#[derive(Debug, Drop)]
pub struct Pen {
    waiting: Blob,
    stop: Option<IoFault>,
}

impl Model for Pen {
    ghost use Rattle.line_text.specs.Pens.{PenState};

    ghost Value = { PenState };

    ghost view = { λ p. record { waiting = p.waiting; stop = p.stop } };
}

impl Pen {
    /// Nothing put.
    pub fn begin(alloc: Global) -> Result<Pen, NoMemory>
        ensures waiting { IfOk result (λ p. p.waiting ≡ []) }
        ensures stop { IfOk result (λ p. p.stop ≡ None) }
    {
        Ok(Pen {
            waiting: Blob::with_room(alloc, ROOM)?,
            stop: None,
        })
    }
}

impl Pen {
    /// Writes what waits. If a write failed before, or memory ran out, this is the answer.
    pub fn finish<W: Sink>(self, to: &mut W) -> Result<(), IoFault>
        ensures ok { OnOk result ((self.stop ≡ None) × (W.taken to.new ≡ appended (W.taken to.old) self.waiting)) }
        ensures refused { IfErr result (λ fault. Ended self fault (W.taken to.old) (W.taken to.new) (W.faults to.old) (W.faults to.new)) }
        ensures cause { OnOk result (W.faults to.new ≡ W.faults to.old) }
        ensures sound { W.sound to.old → W.sound to.new × (IsNotFailed self.stop → NeverFails result) }
    {
        match self.stop {
            Some(fault) => Err(fault),
            None => put_all(to, self.waiting.as_slice()),
        }
    }
}

impl<W: Sink> TextOut<W> for Pen {
    ghost use Rattle.line_text.specs.Pens.{PenPuts};
    ghost use Rattle.line_text.specs.PenLaws.{pens_put};

    ghost Puts = { PenPuts W.Sink };

    ghost lawful = { pens_put W.Sink };

    #[inline(always)]
    fn put(&mut self, to: &mut W, text: &[u8]) {
        if self.stop.is_none() && !text.is_empty() {
            if let Err(fault) = write_after(&mut self.waiting, to, text) {
                self.stop = Some(fault);
            }
        }
    }

    fn put_decimal(&mut self, to: &mut W, number: u64) {
        <Pen as TextOut<W>>::put(self, to, Buffer::new().format(number).as_bytes());
    }
}

// Puts a text behind what waits, which is written first where both do not fit.
#[inline(always)]
fn write_after<W: Sink>(waiting: &mut Blob, to: &mut W, text: &[u8]) -> Result<(), IoFault>
    requires { 0 < length text.now }
    ensures ok { OnOk result (Moved (waiting.old ++ text.now) (W.taken to.old) (W.taken to.new) waiting.new) }
    ensures refused { OnErr result (TookPrefix (waiting.old ++ text.now) (W.taken to.old) (W.taken to.new)) }
    ensures cause { Counted (W.faults to.old) (W.faults to.new) result }
    ensures sound { W.sound to.old → W.sound to.new × NeverFails result }
{
    if text.len() <= ROOM && waiting.len() <= ROOM - text.len() {
        waiting.append(text)?;
        Ok(())
    } else {
        write_both(waiting, to, text)
    }
}

// Writes what waits, and then a text.
fn write_both<W: Sink>(waiting: &mut Blob, to: &mut W, text: &[u8]) -> Result<(), IoFault>
    requires { 0 < length text.now }
    ensures ok { OnOk result (Moved (waiting.old ++ text.now) (W.taken to.old) (W.taken to.new) waiting.new) }
    ensures refused { OnErr result (TookPrefix (waiting.old ++ text.now) (W.taken to.old) (W.taken to.new)) }
    ensures cause { Counted (W.faults to.old) (W.faults to.new) result }
    ensures sound { W.sound to.old → W.sound to.new × NeverFails result }
{
    if let Err(fault) = put_all(to, waiting.as_slice()) {
        return Err(fault);
    }
    waiting.truncate(0);
    if text.len() > ROOM {
        return put_all(to, text);
    }
    match waiting.append(text) {
        Ok(()) => Ok(()),
        Err(NoMemory) => Err(IoFault::NoMemory),
    }
}
