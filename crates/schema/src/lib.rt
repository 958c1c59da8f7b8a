//! The schema of the OpenTelemetry Profiles messages as data, and what reading and writing by it mean. Every definition is
//! in `specs/`, by recursion on a message's shape; the laws about them are in `schema_laws`.
#![tactic(auto)]

ghost use Rattle.std.specs.Prelude.{◌≡◌, true};
ghost use Rattle.schema.specs.Fits.{ascends, is_lawful};
ghost use Rattle.schema.specs.Messages.{envelope, dictionary, resource_profiles, resource, scope_profiles, scope, profile, sample, value_type, link, stack, mapping, location, line, function, attribute, key_value, partial_success, export_response, rpc_status};

/// In each message of the schema the field numbers are distinct, and each is one that a tag can hold. The test does
/// not enter an index or an AnyValue, so each message is named.
pub fn table_is_lawful()
    ensures envelope { is_lawful envelope ≡ true }
    ensures dictionary { is_lawful dictionary ≡ true }
    ensures resource_profiles { is_lawful resource_profiles ≡ true }
    ensures resource { is_lawful resource ≡ true }
    ensures scope_profiles { is_lawful scope_profiles ≡ true }
    ensures scope { is_lawful scope ≡ true }
    ensures profile { is_lawful profile ≡ true }
    ensures sample { is_lawful sample ≡ true }
    ensures value_type { is_lawful value_type ≡ true }
    ensures link { is_lawful link ≡ true }
    ensures stack { is_lawful stack ≡ true }
    ensures mapping { is_lawful mapping ≡ true }
    ensures location { is_lawful location ≡ true }
    ensures line { is_lawful line ≡ true }
    ensures function { is_lawful function ≡ true }
    ensures attribute { is_lawful attribute ≡ true }
    ensures key_value { is_lawful (key_value 1) ≡ true }
    ensures partial_success { is_lawful partial_success ≡ true }
    ensures export_response { is_lawful export_response ≡ true }
    ensures rpc_status { is_lawful rpc_status ≡ true }
{}

/// In each message of the schema the fields ascend by number, so what is written by its rows in order ascends too.
pub fn rows_ascend()
    ensures envelope { ascends 0 envelope ≡ true }
    ensures dictionary { ascends 0 dictionary ≡ true }
    ensures resource_profiles { ascends 0 resource_profiles ≡ true }
    ensures resource { ascends 0 resource ≡ true }
    ensures scope_profiles { ascends 0 scope_profiles ≡ true }
    ensures scope { ascends 0 scope ≡ true }
    ensures profile { ascends 0 profile ≡ true }
    ensures sample { ascends 0 sample ≡ true }
    ensures value_type { ascends 0 value_type ≡ true }
    ensures link { ascends 0 link ≡ true }
    ensures stack { ascends 0 stack ≡ true }
    ensures mapping { ascends 0 mapping ≡ true }
    ensures location { ascends 0 location ≡ true }
    ensures line { ascends 0 line ≡ true }
    ensures function { ascends 0 function ≡ true }
    ensures attribute { ascends 0 attribute ≡ true }
    ensures key_value { ascends 0 (key_value 1) ≡ true }
    ensures partial_success { ascends 0 partial_success ≡ true }
    ensures export_response { ascends 0 export_response ≡ true }
    ensures rpc_status { ascends 0 rpc_status ≡ true }
{}
