//! A case, as it is read from its line.
use anyhow::{Context, Result, bail};
use pb_wire::Blob;
use row_text::bytes_of;
use std::alloc::Global;

/// A file that there is or may come to be, with its bytes as they were last seen.
#[derive(Drop)]
pub struct Place<'a> {
    pub name: &'a str,
    pub seen: Option<Blob>,
}

/// The numbers of the calls that are to fail.
#[derive(Drop)]
pub struct Failing {
    pub files: Vec<u64>,
    pub out: Vec<u64>,
    pub err: Vec<u64>,
}

/// A case.
#[derive(Drop)]
pub struct Row<'a> {
    pub commands: Vec<&'a str>,
    pub places: Vec<Place<'a>>,
    pub failing: Failing,
}

impl<'a> Row<'a> {
    /// The case that a line says.
    pub fn parse(alloc: Global, line: &'a str) -> Result<Row<'a>> {
        let mut row = Row {
            commands: Vec::new(alloc),
            places: Vec::new(alloc),
            failing: Failing {
                files: Vec::new(alloc),
                out: Vec::new(alloc),
                err: Vec::new(alloc),
            },
        };
        let mut parts = line.split(';');
        row.commands.push(parts.next().unwrap_or(""))?;
        for part in parts {
            row.add(alloc, part.trim())?;
        }
        Ok(row)
    }

    // Takes a part.
    fn add(&mut self, alloc: Global, part: &'a str) -> Result<()> {
        if let Some(words) = part.strip_prefix("then ") {
            self.commands.push(words)?;
        } else if let Some(numbers) = part.strip_prefix("failing files ") {
            self.failing.files = numbers_of(alloc, numbers)?;
        } else if let Some(numbers) = part.strip_prefix("failing out ") {
            self.failing.out = numbers_of(alloc, numbers)?;
        } else if let Some(numbers) = part.strip_prefix("failing err ") {
            self.failing.err = numbers_of(alloc, numbers)?;
        } else if let Some((name, text)) = part.split_once('=') {
            let seen = Some(Blob::from_vec(bytes_of(alloc, text)?));
            self.places.push(Place { name, seen })?;
        } else if !part.is_empty() {
            bail!("unknown part {part:?}");
        }
        Ok(())
    }
}

// The numbers in a text with a `,` between them.
fn numbers_of(alloc: Global, text: &str) -> Result<Vec<u64>> {
    let mut numbers = Vec::new(alloc);
    for number in text.split(',') {
        numbers.push(number.parse().context("number of a call")?)?;
    }
    Ok(numbers)
}
