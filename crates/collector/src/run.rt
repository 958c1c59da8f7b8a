//! The top call of the tool.
ghost use Rattle.std.specs.Prelude.{◌≡◌, ◌≢◌, ◌<◌, ◌⊎◌, Some, IsOk, IsErr, OnOk, IfOk, IfErr, IfSome, MatchResult};
ghost use Rattle.outside.specs.Causes.{Rose};
ghost use Rattle.outside.specs.Streams.{appended};
ghost use Rattle.commands.specs.Plan.{planned, texts_of};
ghost use Rattle.collector.specs.Lines.{IsStatus, words_line};
ghost use Rattle.collector.specs.Answer.{outcome, performed, answer, KeepsMeaning};
ghost use Rattle.collector.specs.Causes.{ReadFailedAt, WriteFailedAt, IsStop, IsNoFault, WordsCause, FaultCause};
ghost use Rattle.collector.specs.Delivery.{seen, put_files, Delivered, PartDelivered, LeftAtWrite, Unchanged, Untouched, NoneCounted, IsAnswered};
ghost use Rattle.collector.specs.FaultNames.{TookLine, FailedRead, FailedWrite};

use crate::{Stop, carry, tell};
use commands::plan;
use outside::{Files, Seeds, Sink};
use std::alloc::Global;

const DONE: u8 = 0;

// All but the line on the standard error.
fn carry_out<F: Files, O: Sink, M: Seeds>(
    alloc: Global,
    words: &[String],
    files: &mut F,
    out: &mut O,
    seeds: &mut M,
) -> Result<(), Stop>
    ensures done { OnOk result (IfSome (F.told files.old) (λ m.
        Delivered (outcome (texts_of words.now) m) m (F.told files.new) (O.taken out.old) (O.taken out.new))) }
    ensures kept { OnOk result (IfSome (F.told files.old) (λ m. IfOk (planned (texts_of words.now)) (λ plan. IfOk (performed plan m) (KeepsMeaning plan m)))) }
    ensures stopped { IfErr result (λ stop. IfSome (F.told files.old) (λ m. IsStop (outcome (texts_of words.now) m) stop)) }
    ensures words { MatchResult result (λ _. IsOk (planned (texts_of words.now))) (WordsCause (planned (texts_of words.now))) }
    ensures fault { IfErr result (FaultCause (planned (texts_of words.now)) (F.told files.old)
        (ReadFailedAt F.Files files.old files.new) (WriteFailedAt F.Files files.old files.new) (O.faults out.old) (O.faults out.new)) }
    ensures sound { F.sound files.old → O.sound out.old → F.sound files.new × O.sound out.new × IfErr result IsNoFault }
    ensures unchanged { IfErr result (λ stop. Unchanged stop (seen F.Files O.Sink files.old out.old) (seen F.Files O.Sink files.new out.new)) }
    ensures failed { IfErr result (λ stop. IfSome (F.told files.old) (λ m. LeftAtWrite (outcome (texts_of words.now) m) (seen F.Files O.Sink files.old out.old) (seen F.Files O.Sink files.new out.new) stop)) }
    ensures part { IfErr result (λ _. IfSome (F.told files.old) (λ m. PartDelivered (outcome (texts_of words.now) m) (seen F.Files O.Sink files.old out.old) (seen F.Files O.Sink files.new out.new))) }
{
    let plan = plan(alloc, words)?;
    carry(alloc, &plan, files, out, seeds)
}

/// Does what the command line says, and answers the status. It waits for nobody and always returns.
pub fn run_tool<F: Files, O: Sink, E: Sink, M: Seeds>(
    alloc: Global,
    words: &[String],
    files: &mut F,
    out: &mut O,
    err: &mut E,
    seeds: &mut M,
) -> u8
    // Where the files are told and the status is neither a fault's nor that of out of memory: the answer is given.
    ensures status { IsAnswered result → IfSome (F.told files.old) (λ m. result ≡ (answer (texts_of words.now) m).status) }
    ensures files { IsAnswered result → IfSome (F.told files.old) (λ m. F.told files.new ≡ put_files (answer (texts_of words.now) m).files (Some m)) }
    ensures out { IsAnswered result → IfSome (F.told files.old) (λ m. O.taken out.new ≡ appended (O.taken out.old) (answer (texts_of words.now) m).out) }
    ensures err { IsAnswered result → IfSome (F.told files.old) (λ m. TookLine E.Sink err.old err.new (answer (texts_of words.now) m).err) }
    // After 0 the output keeps what its command promises, and nothing is put on `err`.
    ensures rebuilt { result ≡ 0 → IfSome (F.told files.old) (λ m. IfOk (planned (texts_of words.now)) (λ plan. IfOk (performed plan m) (KeepsMeaning plan m))) }
    ensures silent { result ≡ 0 → E.taken err.new ≡ E.taken err.old }
    // Whatever the files tell, no other status is answered, and the command line is refused or accepted by itself.
    ensures statuses { IsStatus result }
    ensures words { result ≡ 1 → IsErr (planned (texts_of words.now)) }
    ensures refused_words { IsErr (planned (texts_of words.now)) → result ≢ 7 → result ≡ 1 }
    ensures words_line { result ≡ 1 → TookLine E.Sink err.old err.new (words_line (planned (texts_of words.now))) }
    // A fault is answered only where a count rose. What it names, and what it left:
    ensures read_fault { result ≡ 6 → Rose (F.read_faults files.old) (F.read_faults files.new) }
    ensures write_fault { result ≡ 8 → Rose (F.write_faults files.old) (F.write_faults files.new) ⊎ Rose (O.faults out.old) (O.faults out.new) }
    ensures failed_read { result ≡ 6 → FailedRead F.Files E.Sink (texts_of words.now) files.old files.new err.old err.new }
    ensures failed_write { result ≡ 8 → FailedWrite F.Files O.Sink E.Sink (texts_of words.now) files.old files.new out.old out.new err.old err.new }
    // What stays where nothing, or not all, was written.
    ensures unchanged { 0 < result → result < 7 → Untouched (seen F.Files O.Sink files.old out.old) (seen F.Files O.Sink files.new out.new) }
    ensures part { 6 < result → IfSome (F.told files.old) (λ m. PartDelivered (outcome (texts_of words.now) m) (seen F.Files O.Sink files.old out.old) (seen F.Files O.Sink files.new out.new)) }
    // Over files and an `out` that do not fail, no fault is answered.
    ensures sound { F.sound files.old → O.sound out.old → F.sound files.new × O.sound out.new × (result ≢ 6) × (result ≢ 8) }
    // With no fault counted, the answer is given, or memory ran out.
    ensures complete { NoneCounted F.Files O.Sink files.old files.new out.old out.new → result ≢ 7 → IfSome (F.told files.old) (λ m. result ≡ (answer (texts_of words.now) m).status) }
{
    match carry_out(alloc, words, files, out, seeds) {
        Ok(()) => DONE,
        Err(stop) => tell(alloc, &stop, err),
    }
}
