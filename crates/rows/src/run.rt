//! What comes of a case.
use crate::row::{Failing, Place, Row};
use anyhow::{Result, bail};
use collector::run_tool;
use outside::{Files, FixedSeeds, Got, IoFault, MemFiles, MemSink};
use pb_wire::Blob;
use row_text::text_of;
use std::alloc::{AllocError, Global};

/// The text of what comes of the case that a line says.
pub fn outcome(alloc: Global, line: &str) -> Result<String> {
    let Row {
        commands,
        mut places,
        failing,
    } = Row::parse(alloc, line)?;
    let mut files = files_of(alloc, &places, &failing.files)?;
    add_named_places(&commands, &mut places)?;
    let mut text = String::new(alloc);
    for command in &commands {
        if !text.is_empty() {
            text.push_str("; then ")?;
        }
        run_command(alloc, command, &failing, &mut files, &mut text)?;
        add_changes(
            alloc,
            &mut places,
            failing.files.len(),
            &mut files,
            &mut text,
        )?;
    }
    Ok(text)
}

// The files that are there before. A write of each of them comes before the calls that the case numbers.
fn files_of(alloc: Global, places: &[Place<'_>], failing: &[u64]) -> Result<MemFiles> {
    let mut numbers = Vec::new(alloc);
    for number in failing {
        numbers.push(number.saturating_add(places.len() as u64))?;
    }
    let mut files = MemFiles::begin(alloc, numbers);
    for place in places {
        let Some(bytes) = &place.seen else { continue };
        files.write(alloc, place.name, bytes.as_slice())?;
    }
    Ok(files)
}

// A command may write a file under each word that names none yet.
fn add_named_places<'a>(
    commands: &[&'a str],
    places: &mut Vec<Place<'a>>,
) -> Result<(), AllocError> {
    for command in commands {
        for name in command.split_whitespace() {
            if places.iter().all(|place| place.name != name) {
                places.push(Place { name, seen: None })?;
            }
        }
    }
    Ok(())
}

// Runs the tool once, and reports its status and what it wrote to the standard output and the standard error.
fn run_command(
    alloc: Global,
    command: &str,
    failing: &Failing,
    files: &mut MemFiles,
    text: &mut String,
) -> Result<()> {
    let mut words = Vec::new(alloc);
    for word in command.split_whitespace() {
        words.push(String::from_str(alloc, word)?)?;
    }
    let mut out = MemSink::begin(alloc, failing.out.clone()?);
    let mut err = MemSink::begin(alloc, failing.err.clone()?);
    let status = run_tool(alloc, &words, files, &mut out, &mut err, &mut FixedSeeds);
    text.push_str(format!(in alloc; "{status}")?.as_str())?;
    add_stream(alloc, "out", out.bytes(), text)?;
    add_stream(alloc, "err", err.bytes(), text)
}

// Reports what is on a stream, if anything is.
fn add_stream(alloc: Global, name: &str, bytes: &[u8], text: &mut String) -> Result<()> {
    if bytes.is_empty() {
        return Ok(());
    }
    let shown = str::from_utf8(bytes)?.replace(alloc, '\\', "\\\\")?;
    let shown = shown.replace(alloc, '\n', "\\n")?;
    text.push_str(format!(in alloc; "; {name} {shown}")?.as_str())?;
    Ok(())
}

// Reports each file that is new or has other bytes than were last seen.
fn add_changes(
    alloc: Global,
    places: &mut [Place<'_>],
    failures: usize,
    files: &mut MemFiles,
    text: &mut String,
) -> Result<()> {
    for place in places {
        let found = look(alloc, place.name, failures, files)?;
        if found.as_ref().map(Blob::as_slice) == place.seen.as_ref().map(Blob::as_slice) {
            continue;
        }
        if let Some(bytes) = &found {
            let bytes = text_of(alloc, bytes.as_slice())?;
            text.push_str(format!(in alloc; "; {}={bytes}", place.name)?.as_str())?;
        }
        place.seen = found;
    }
    Ok(())
}

// The bytes of a file. Where a call that is to fail is the look itself, it looks again.
fn look(alloc: Global, name: &str, failures: usize, files: &mut MemFiles) -> Result<Option<Blob>> {
    for _ in 0..=failures {
        match files.read(alloc, name, u64::MAX) {
            Ok(Got::Whole(bytes)) => return Ok(Some(bytes)),
            Ok(_) => return Ok(None),
            Err(IoFault::Failed) => {}
            Err(fault) => return Err(fault.into()),
        }
    }
    bail!("no look at {name}")
}
