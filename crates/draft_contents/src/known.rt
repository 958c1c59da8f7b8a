//! Heads of a draft that are known to be those of what comes, and need not be compared.
ghost use Rattle.std.specs.Prelude.{[], ◌∷◌, List};
ghost use Rattle.otlp_msg.specs.Message.{Message, records_of};
ghost use Rattle.parts.specs.Parts.{RecordPart};
ghost use Rattle.draft_contents.specs.Repeats.{AreKnown, HeadsStandIf};
ghost use Rattle.draft_contents.specs.Singles.{record_alone};

use otlp_msg::ProfilePos;

/// How many of the last heads of a draft are known to be those of what comes to it.
#[derive(Clone, Copy, Debug, PartialEq, Eq)]
pub enum KnownHeads {
    /// Nothing is known.
    None,
    /// That of the last resource record.
    Resource,
    /// That, and that of the last scope record in it.
    Both,
}

/// What is known of the profile at `pos` after the one at `last`, if the last heads are those of that one.
pub fn known_heads(last: Option<ProfilePos>, pos: ProfilePos) -> KnownHeads
    ensures { (parts : List RecordPart) → (m : Message) → HeadsStandIf last parts m → AreKnown result parts (record_alone (records_of m) pos ∷ []) }
{
    let Some(last) = last else {
        return KnownHeads::None;
    };
    if last.resource != pos.resource {
        return KnownHeads::None;
    }
    if last.scope == pos.scope {
        KnownHeads::Both
    } else {
        KnownHeads::Resource
    }
}
