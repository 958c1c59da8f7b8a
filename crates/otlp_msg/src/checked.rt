//! A message that was accepted.
ghost use Rattle.std.proofs.Props.{props};
ghost use Rattle.std.specs.Coded.{codes};
ghost use Rattle.std.specs.Prelude.{◌≡◌, ◌<◌, Ok, All};
ghost use Rattle.any_value.specs.Codes.{any_code};
ghost use Rattle.otlp_msg.specs.Message.{message_of};
ghost use Rattle.otlp_msg.specs.Views.{message_view};

use crate::Message;
use crate::counts::{profiles_in_resources, samples_in_resources};
use pb_wire::List;

/// A message that was accepted, with the bytes that it was read from.
#[derive(Debug, Drop)]
pub struct Checked<'a> {
    pub(crate) body: &'a [u8],
    pub(crate) message: Message<'a>,
    ghost octets: { All (λ b. b < 256) body.now },
    pub ghost read: { message_of body.now ≡ Ok (message_view message) } by { Prim.hlevel (props, codes, any_code) },
}

/// Messages in order. `begin`, `add` and `get` are those of `List`.
pub type Messages<'a> = List<Checked<'a>>;

impl<'a> Checked<'a> {
    ghost use Rattle.std.specs.Prelude.{◌^◌, length, map};
    ghost use Rattle.schema.specs.Messages.{envelope};
    ghost use Rattle.schema.specs.Spell.{spell};
    ghost use Rattle.otlp_msg.specs.Checked.{body_of, value_of};
    ghost use Rattle.otlp_msg.specs.Message.{dictionary_of, records_of, profiles_of, samples_of};
    ghost use Rattle.schema.specs.Each.{Each};
    ghost use Rattle.schema.specs.Fits.{Fits};
    ghost use Rattle.schema.specs.Messages.{resource_profiles};
    ghost use Rattle.schema.specs.Shape.{Table};
    ghost use Rattle.meaning.specs.Canonical.{IsWithin};
    ghost use Rattle.meaning.specs.Meaning.{HasZeros};
    ghost use Rattle.meaning.specs.Message.{tables_in};
    ghost use Rattle.meaning.specs.Tables.{entry};
    ghost use Rattle.meaning.specs.Tree.{tree};

    /// The bytes that the message was read from. It takes no memory.
    pub fn body(&self) -> &'a [u8]
        ensures { result.now ≡ body_of self.now }
    {
        self.body
    }

    /// The message. It takes no memory. Its spelling is short enough to be written, and it fits, so its spelling is read as
    /// it. Each table begins with its zero entry, and each index, of an entry or of a record, is in its table.
    pub fn message(&self) -> &Message<'a>
        ensures value { message_view result.now ≡ value_of self.now }
        ensures short { length (spell envelope (value_of self.now)) < 2 ^ 60 }
        ensures fits { Fits envelope (value_of self.now) }
        ensures zeros { HasZeros (tables_in (dictionary_of (value_of self.now))) }
        ensures entries { (T : Table) → let d = tables_in (dictionary_of (value_of self.now)) in Each (IsWithin d (entry T)) (d T) }
        ensures records { let d = tables_in (dictionary_of (value_of self.now)) in Each (IsWithin d resource_profiles) (map (tree resource_profiles) (records_of (value_of self.now))) }
    {
        &self.message
    }

    /// The number of profiles of all scopes. It takes no memory.
    pub fn profile_count(&self) -> u64
        ensures { result ≡ profiles_of (value_of self.now) }
    {
        profiles_in_resources(self.message().records.as_slice())
    }

    /// The number of samples of all profiles. It takes no memory.
    pub fn sample_count(&self) -> u64
        ensures { result ≡ samples_of (value_of self.now) }
    {
        samples_in_resources(self.message().records.as_slice())
    }
}
