//! What errors show in a log.
use anyhow::Result;
use collector::{Stop, ToolRefusal};
use commands::WordReason;
use dict_build::BuildFault;
use outside::{Failed, IoFault};
use pb_wire::Text;
use std::alloc::Global;

/// The texts of the errors of devices, of a draft and of the tool.
pub fn shown(alloc: Global) -> Result<String> {
    let too_long = BuildFault::OutputLimit { size: 33_554_433 };
    let text = format!(in alloc;
        "{Failed}; {}; {}; {too_long}; {}",
        IoFault::Failed,
        IoFault::NoMemory,
        BuildFault::NoMemory
    )?;
    stops_shown(alloc, text)
}

// The texts of the stops of the tool come after this one.
fn stops_shown(alloc: Global, mut text: String) -> Result<String> {
    let name = Text::copy_of(alloc, "IN")?;
    let missing = Text::copy_of(alloc, "missing")?;
    for stop in [
        Stop::Refused(ToolRefusal::File {
            name,
            text: missing,
        }),
        Stop::Refused(ToolRefusal::Words {
            place: 2,
            reason: WordReason::MissingWord,
        }),
        Stop::Refused(ToolRefusal::Limit { size: 33_554_433 }),
        Stop::Read {
            name: Text::copy_of(alloc, "IN")?,
        },
        Stop::Write {
            name: Text::copy_of(alloc, "OUT")?,
        },
        Stop::NoMemory,
    ] {
        text.push_str(format!(in alloc; "; {stop}")?.as_str())?;
    }
    Ok(text)
}
